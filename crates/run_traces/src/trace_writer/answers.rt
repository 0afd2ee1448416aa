//! Answers.

ghost use Rattle.std.specs.Prelude.{◌≡◌, ◌≤◌, ◌+◌, ◌++◌, ◌∷◌, [], OnOk, IfSome, IfNone, length};
ghost use Rattle.std.specs.List.{position, slice_split};
ghost use Rattle.script_lang.specs.Scripts.{ended_lines, is_newline};
ghost use Rattle.run_traces.specs.Written.{answer_lines, answer_text};

use crate::trace_writer::bytes::put;
use rdma_types::Answer;
use script_lang::print_answer;
use std::alloc::{AllocError, Global};

/// The place of the first newline.
fn newline_in(text: &[u8]) -> Option<usize>
    ensures { result ≡ position is_newline text.now }
{
    text.iter().position(|b| *b == b'\n')
}

/// The first line of a text, and the text behind its newline.
#[tactic(auto, using(crate::proofs::Cutting::cut_at, crate::proofs::Cutting::uncut, crate::proofs::Cutting::within))]
fn first_line(text: &[u8]) -> Option<(&[u8], &[u8])>
    ensures cut { IfSome result (λ p. slice_split is_newline text.now
        ≡ p.0.now ∷ slice_split is_newline p.1.now) }
    ensures shorter { IfSome result (λ p. length p.1.now + 1 ≤ length text.now) }
    ensures uncut { IfNone result (slice_split is_newline text.now ≡ text.now ∷ []) }
{
    let end = newline_in(text)?;
    Some((&text[..end], &text[end + 1..]))
}

/// The lines of a text, each behind `=` and a space.
fn put_lines(out: &mut Vec<u8>, text: &[u8]) -> Result<(), AllocError>
    ensures { OnOk result (out.new.items ≡ out.old.items ++ answer_text (ended_lines text.now)) }
{
    let mut rest = text;
    while let Some((line, behind)) = first_line(rest) {
        put(out, b"= ")?;
        put(out, line)?;
        put(out, b"\n")?;
        rest = behind;
    }
    Ok(())
}

/// Puts the lines of an answer. Errors: `AllocError` when out of memory; `out` may then have a part of them.
pub fn put_answer(alloc: Global, out: &mut Vec<u8>, answer: &Answer) -> Result<(), AllocError>
    ensures { OnOk result (out.new.items ≡ out.old.items ++ answer_text (answer_lines answer.now)) }
{
    let mut text = Vec::new(alloc);
    print_answer(answer, &mut text)?;
    put_lines(out, text.as_slice())
}

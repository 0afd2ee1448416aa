//! Verbs.
#![tactic(auto, using(std::proofs::lemmas::List::append_assoc))]

ghost use Rattle.std.specs.Prelude.{◌≡◌, ◌++◌, ◌∷◌, [], OnOk, codes, map};
ghost use Rattle.script_lang.specs.Printed.{line};
ghost use Rattle.script_lang.specs.Words.{words_from};
ghost use Rattle.run_traces.specs.Written as text;
ghost use Rattle.run_traces.specs.Written.{lower, lowered, verb_text};

use crate::trace_writer::bytes::put;
use rdma_types::{Name, Verb};
use script_lang::Words;
use std::alloc::AllocError;

/// The letters A to F in lower case.
fn lower_digit(b: u8) -> u8
    ensures { result ≡ lower b }
{
    match b {
        b'A'..=b'F' => b + 32,
        _ => b,
    }
}

/// A word with its letters A to F in lower case.
fn put_lower(out: &mut Vec<u8>, word: &[u8]) -> Result<(), AllocError>
    ensures { OnOk result (out.new.items ≡ out.old.items ++ map lower word.now) }
{
    for b in word {
        out.push(lower_digit(*b))?;
    }
    Ok(())
}

/// The words of a line of a script, with one space between two.
fn put_words(out: &mut Vec<u8>, written: &[u8]) -> Result<(), AllocError>
    ensures { OnOk result (out.new.items ≡ out.old.items
        ++ line (codes "v") (lowered (words_from 1 written.now))) }
{
    put(out, b"v")?;
    let mut words = Words::new(written);
    while let Some(word) = words.next_word() {
        put(out, b" ")?;
        put_lower(out, word.text)?;
    }
    put(out, b"\n")
}

/// A context that is made, or not, since its device is not there.
fn put_context(out: &mut Vec<u8>, name: Name, made: bool) -> Result<(), AllocError>
    ensures { OnOk result (out.new.items ≡ out.old.items
        ++ line (codes "v") (codes "context" ∷ name ∷ text.made_text made ∷ [])) }
{
    put(out, b"v context ")?;
    put(out, name.as_bytes())?;
    put(out, if made { b" made\n" } else { b" none\n" })
}

/// Puts the line of a verb, which is written so in a script. Errors: `AllocError` when out of memory; `out` may then
/// have a part of it.
pub fn put_verb(out: &mut Vec<u8>, written: &[u8], verb: &Verb) -> Result<(), AllocError>
    ensures { OnOk result (out.new.items ≡ out.old.items ++ verb_text written.now verb.now) }
{
    match verb {
        Verb::Context { name, made } => put_context(out, *name, *made),
        _ => put_words(out, written),
    }
}

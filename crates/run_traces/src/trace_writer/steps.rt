//! Inner steps.
#![tactic(auto, using(std::proofs::lemmas::List::append_assoc))]

ghost use Rattle.std.specs.Prelude.{◌≡◌, ◌++◌, ◌∷◌, [], OnOk};
ghost use Rattle.std.specs.Fmt.{decimal};
ghost use Rattle.script_lang.specs.Printed.{object_text};
ghost use Rattle.script_lang.specs.Printed as text;
ghost use Rattle.run_traces.specs.Written.{step_text};

use crate::trace_writer::bytes::{put, put_number, put_object};
use packetless_machine::MachineStep;
use rdma_types::{ObjName, RefusalReason};
use std::alloc::AllocError;

/// The word for why a request is refused.
fn why_text(why: RefusalReason) -> &'static [u8]
    ensures { result.now ≡ text.why_text why }
{
    match why {
        RefusalReason::Invalid => b"invalid",
        RefusalReason::Access => b"access",
        RefusalReason::Length => b"length",
    }
}

/// A step of an end.
fn put_end(out: &mut Vec<u8>, word: &[u8], q: &ObjName) -> Result<(), AllocError>
    ensures { OnOk result (out.new.items ≡ out.old.items
        ++ (word.now ++ (object_text q.now ++ 10 ∷ []))) }
{
    put_object(out, word, q)?;
    put(out, b"\n")
}

/// A step of an end with a number.
fn put_counted(out: &mut Vec<u8>, word: &[u8], q: &ObjName, n: u32) -> Result<(), AllocError>
    ensures { OnOk result (out.new.items ≡ out.old.items
        ++ (word.now ++ (object_text q.now ++ (32 ∷ (decimal n ++ 10 ∷ []))))) }
{
    put_object(out, word, q)?;
    put_number(out, n)?;
    put(out, b"\n")
}

/// A refusal.
fn put_refusal(out: &mut Vec<u8>, q: &ObjName, why: RefusalReason) -> Result<(), AllocError>
    ensures { OnOk result (out.new.items ≡ out.old.items
        ++ step_text (MachineStep.Refuse q.now why)) }
{
    put_object(out, b"i refuse ", q)?;
    put(out, b" ")?;
    put(out, why_text(why))?;
    put(out, b"\n")
}

/// An offer of `n` bytes of request `i`, from an offset on.
fn put_offer(out: &mut Vec<u8>, q: &ObjName, i: u32, off: u32, n: u32) -> Result<(), AllocError>
    ensures { OnOk result (out.new.items ≡ out.old.items
        ++ step_text (MachineStep.Offer q.now i off n)) }
{
    put_object(out, b"i offer ", q)?;
    put_number(out, i)?;
    put_number(out, off)?;
    put_number(out, n)?;
    put(out, b"\n")
}

/// Puts the line of an inner step. Errors: `AllocError` when out of memory; `out` may then have a part of it.
#[tactic(auto, unfolding(crate::specs::Written::step_words))]
pub fn put_step(out: &mut Vec<u8>, step: &MachineStep) -> Result<(), AllocError>
    ensures { OnOk result (out.new.items ≡ out.old.items ++ step_text step.now) }
{
    match step {
        MachineStep::Verb { .. } => put(out, b"i\n"),
        MachineStep::Run { q, n } => put_counted(out, b"i run ", q, *n),
        MachineStep::Atom { q } => put_end(out, b"i atom ", q),
        MachineStep::ReadTurn { q } => put_end(out, b"i turn ", q),
        MachineStep::Refuse { q, why } => put_refusal(out, q, *why),
        MachineStep::Dry { q } => put_end(out, b"i dry ", q),
        MachineStep::Offer { q, i, off, n } => put_offer(out, q, *i, *off, *n),
        MachineStep::Land { q, o } => put_counted(out, b"i land ", q, *o),
        MachineStep::Known { q, m } => put_counted(out, b"i known ", q, *m),
        MachineStep::Tell { q } => put_end(out, b"i tell ", q),
        MachineStep::Expire { q } => put_end(out, b"i expire ", q),
        MachineStep::Wait { q } => put_end(out, b"i wait ", q),
        MachineStep::Bounce { q } => put_end(out, b"i bounce ", q),
    }
}

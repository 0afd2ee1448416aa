//! The whole script.

ghost use Rattle.std.specs.Prelude.{◌≡◌, ◌++◌, ◌+◌, ◌*◌, ◌/◌, ◌%◌, ◌<◌, ◌≤◌, ◌^◌, OnOk, IfOk};
ghost use Rattle.workload_gen.specs.Plan as spec;

use crate::message::{Message, put_posting};
use crate::opening::put_opening;
use crate::schedule::{CLOSING, put_moves, put_polling, put_sending};
use crate::writing::put;
use rand_core::Rng;
use rand_pcg::Lcg64Xsh32;
use std::alloc::{AllocError, Global};

/// How much a script has of each: 1 to 8 connections, 1 to 2,000 messages and at most 16 moves of the second context.
#[derive(Clone, Copy, Debug, PartialEq, Eq)]
pub struct Mix {
    pub connections: u32,
    pub messages: u32,
    pub moves: u32,
}

/// Bytes that a script takes at first, and bytes that each message takes.
const OPENING_ROOM: usize = 4096;

const MESSAGE_ROOM: usize = 160;

/// Message `number`, by its word.
#[tactic(auto, using(std::proofs::lemmas::List::append_assoc), unfolding(crate::specs::Plan::message_lines))]
fn put_message(
    out: &mut Vec<u8>,
    connections: u32,
    number: u32,
    word: u32,
) -> Result<(), AllocError>
    requires { 0 < connections }
    ensures { OnOk result (out.new.items ≡ out.old.items
        ++ spec.message_lines connections number word) }
{
    let message = Message::of(connections, number, word);
    put_posting(out, word / 8 % 4, &message)?;
    put_sending(out, number, message.connection, word >> 30)?;
    put_polling(out, number)
}

/// Message `number`, by its word, and the moves that stand after it.
#[tactic(auto, using(std::proofs::lemmas::List::append_assoc))]
fn put_turn(out: &mut Vec<u8>, mix: &Mix, number: u32, word: u32) -> Result<(), AllocError>
    requires { 0 < mix.now.connections }
    ensures { OnOk result (out.new.items
        ≡ out.old.items
        ++ (spec.message_lines mix.now.connections number word ++ spec.moves_at mix.now number mix.now.moves)) }
{
    put_message(out, mix.connections, number, word)?;
    put_moves(out, mix, number)
}

/// The messages, each by the next word of the generator.
#[tactic(auto, using(crate::proofs::Growth::messages_start, crate::proofs::Growth::messages_more))]
fn put_messages(out: &mut Vec<u8>, seed: u64, mix: &Mix) -> Result<(), AllocError>
    requires connections { 0 < mix.now.connections }
    requires messages { mix.now.messages ≤ 2000 }
    ensures { OnOk result (out.new.items
        ≡ out.old.items ++ spec.messages_lines seed mix.now mix.now.messages) }
{
    let mut words = Lcg64Xsh32::new(seed, 1);
    for i in 0..mix.messages {
        let word = words.next_u32();
        put_turn(out, mix, i + 1, word)?;
    }
    Ok(())
}

/// The script of a seed: the opening lines, messages with what is done after each, moves of the second context between
/// them, and the closing lines (this project's choice). The same seed and mix always give the same bytes.
///
/// Errors: `AllocError` when out of memory.
#[tactic(auto, using(std::proofs::lemmas::List::append_assoc), unfolding(crate::specs::Plan::plan))]
pub fn plan_of(alloc: Global, seed: u64, mix: &Mix) -> Result<Vec<u8>, AllocError>
    requires connections { (0 < mix.now.connections) × (mix.now.connections ≤ 8) }
    requires messages { (0 < mix.now.messages) × (mix.now.messages ≤ 2000) }
    requires moves { mix.now.moves ≤ 16 }
    ensures { IfOk result (λ script. script.items ≡ spec.plan seed mix.now) }
{
    let room = OPENING_ROOM + MESSAGE_ROOM * mix.messages as usize;
    let mut out = Vec::with_capacity(alloc, room)?;
    put_opening(&mut out, mix.connections)?;
    put_moves(&mut out, mix, 0)?;
    put_messages(&mut out, seed, mix)?;
    put(&mut out, CLOSING)?;
    Ok(out)
}

//! What is done after a message, and the moves.

ghost use Rattle.std.specs.Prelude.{◌≡◌, ◌++◌, ◌+◌, ◌*◌, ◌<◌, ◌≤◌, ◌^◌, OnOk};
ghost use Rattle.workload_gen.specs.Plan as plan;

use crate::plan::Mix;
use crate::writing::{put, put_number};
use std::alloc::AllocError;

const SETTLE: &[u8] = b"settle\n";

pub const CLOSING: &[u8] = b"settle\npoll a.c 256\npoll b.c 256\n";

#[tactic(auto, using(std::proofs::lemmas::List::append_assoc))]
fn put_go(out: &mut Vec<u8>, connection: u32) -> Result<(), AllocError>
    ensures { OnOk result (out.new.items ≡ out.old.items ++ plan.go_line connection) }
{
    put_number(out, b"go a.q", u64::from(connection))?;
    put(out, b"\n")
}

#[tactic(auto, using(std::proofs::lemmas::List::append_assoc))]
fn put_expiry(out: &mut Vec<u8>, connection: u32) -> Result<(), AllocError>
    ensures { OnOk result (out.new.items
        ≡ out.old.items ++ (plan.go_line connection ++ plan.expire_line connection)) }
{
    put_go(out, connection)?;
    put_number(out, b"expire a.q", u64::from(connection))?;
    put(out, b"\n")
}

#[tactic(auto, using(std::proofs::lemmas::List::append_assoc))]
fn put_two(out: &mut Vec<u8>, connection: u32) -> Result<(), AllocError>
    ensures { OnOk result (out.new.items
        ≡ out.old.items ++ (plan.go_line connection ++ plan.go_line connection)) }
{
    put_go(out, connection)?;
    put_go(out, connection)
}

/// What is sent after message `number`: each sixteenth from the first on is sent and expires, and for another `bits`, 0
/// to 3, say whether it is sent once, twice or not at all, or all is settled. Errors: `AllocError` when out of memory;
/// what `out` then holds is not said.
#[tactic(auto, using(crate::proofs::Growth::nothing_more), unfolding(crate::specs::Plan::sending_lines))]
pub fn put_sending(
    out: &mut Vec<u8>,
    number: u32,
    connection: u32,
    bits: u32,
) -> Result<(), AllocError>
    requires { bits < 4 }
    ensures { OnOk result (out.new.items ≡ out.old.items
        ++ plan.sending_lines number connection bits) }
{
    if number % 16 == 1 {
        return put_expiry(out, connection);
    }
    match bits {
        0 => put_go(out, connection),
        1 => put_two(out, connection),
        2 => Ok(()),
        _ => put(out, SETTLE),
    }
}

/// Settles and polls after each sixteenth message. Errors: `AllocError` when out of memory; what `out` then holds is
/// not said.
#[tactic(auto, unfolding(crate::specs::Plan::polling_lines))]
pub fn put_polling(out: &mut Vec<u8>, number: u32) -> Result<(), AllocError>
    ensures { OnOk result (out.new.items ≡ out.old.items ++ plan.polling_lines number) }
{
    if number % 16 == 0 {
        put(out, CLOSING)
    } else {
        Ok(())
    }
}

/// Stops the second context, restores it on the device `new` and releases it on `old`.
#[tactic(auto, using(std::proofs::lemmas::List::append_assoc), unfolding(crate::specs::Plan::transfer_lines))]
fn put_transfer(out: &mut Vec<u8>, new: u64, old: u64) -> Result<(), AllocError>
    ensures { OnOk result (out.new.items ≡ out.old.items ++ plan.transfer_lines new old) }
{
    put_number(out, b"stop b\nrestore b ", new)?;
    put_number(out, b"\nsettle\nrelease b ", old)?;
    put(out, b"\n")
}

/// Move `k`, if it stands after message `number`.
#[tactic(auto, unfolding(crate::specs::Plan::move_at))]
fn put_move_at(out: &mut Vec<u8>, mix: &Mix, number: u32, k: u64) -> Result<(), AllocError>
    requires { k ≤ 2 ^ 32 }
    ensures { OnOk result (out.new.items ≡ out.old.items ++ plan.move_at mix.now number k) }
{
    if k * u64::from(mix.messages) / (u64::from(mix.moves) + 1) == u64::from(number) {
        put_transfer(out, 2 + k % 2, 3 - k % 2)
    } else {
        Ok(())
    }
}

/// The moves that stand after message `number`, or before the first where it is 0. Errors: `AllocError` when out of
/// memory; what `out` then holds is not said.
#[tactic(auto, using(crate::proofs::Growth::moves_start, crate::proofs::Growth::moves_more))]
pub fn put_moves(out: &mut Vec<u8>, mix: &Mix, number: u32) -> Result<(), AllocError>
    ensures { OnOk result (out.new.items ≡ out.old.items
        ++ plan.moves_at mix.now number mix.now.moves) }
{
    for k in 0..mix.moves {
        put_move_at(out, mix, number, u64::from(k) + 1)?;
    }
    Ok(())
}

//! Messages and their posting.

ghost use Rattle.std.specs.Prelude.{◌≡◌, ◌++◌, ◌<◌, ◌^◌, ◌+◌, OnOk};
ghost use Rattle.workload_gen.specs.Plan as plan;
ghost use Rattle.workload_gen.specs.Lines.{head, remote};

use crate::writing::{put, put_number};
use std::alloc::AllocError;

/// A message of the script: its number, from 1; its connection, from 1; and where its bytes lie.
#[derive(Clone, Copy)]
pub struct Message {
    pub number: u32,
    pub connection: u32,
    pub length: u32,
    pub address: u32,
}

impl Message {
    /// The message that a word of the generator says.
    pub fn of(connections: u32, number: u32, word: u32) -> Message
        requires { 0 < connections }
        ensures { result ≡ plan.message_of connections number word }
    {
        Message {
            number,
            connection: word % connections + 1,
            length: 1 + word / 64 % 4096,
            address: 65_536 + 8 * (word / 262_144 % 4096),
        }
    }
}

/// A verb and an end, the message's number, a local key, and its address.
#[tactic(auto, using(std::proofs::lemmas::List::append_assoc))]
fn put_head(out: &mut Vec<u8>, verb: &[u8], key: &[u8], message: &Message) -> Result<(), AllocError>
    ensures { OnOk result (out.new.items ≡ out.old.items ++ head verb.now key.now message.now) }
{
    put_number(out, verb, u64::from(message.connection))?;
    put_number(out, b" ", u64::from(message.number))?;
    put_number(out, key, u64::from(message.address))
}

/// What follows the address of a Write or a Read: its length, and the same address of the other region.
#[tactic(auto, using(std::proofs::lemmas::List::append_assoc))]
fn put_remote(out: &mut Vec<u8>, message: &Message) -> Result<(), AllocError>
    ensures { OnOk result (out.new.items ≡ out.old.items ++ remote message.now) }
{
    put_number(out, b" ", u64::from(message.length))?;
    put_number(out, b" ", u64::from(message.address))?;
    put(out, b" 02000003\n")
}

#[tactic(auto, using(std::proofs::lemmas::List::append_assoc))]
fn put_write(out: &mut Vec<u8>, message: &Message) -> Result<(), AllocError>
    ensures { OnOk result (out.new.items ≡ out.old.items ++ plan.write_line message.now) }
{
    put_head(out, b"write a.q", b" 01000002 ", message)?;
    put_remote(out, message)
}

#[tactic(auto, using(std::proofs::lemmas::List::append_assoc))]
fn put_read(out: &mut Vec<u8>, message: &Message) -> Result<(), AllocError>
    ensures { OnOk result (out.new.items ≡ out.old.items ++ plan.read_line message.now) }
{
    put_head(out, b"read a.q", b" 01000002 ", message)?;
    put_remote(out, message)
}

#[tactic(auto, using(std::proofs::lemmas::List::append_assoc))]
fn put_add(out: &mut Vec<u8>, message: &Message) -> Result<(), AllocError>
    ensures { OnOk result (out.new.items ≡ out.old.items ++ plan.add_line message.now) }
{
    put_head(out, b"add a.q", b" 01000002 ", message)?;
    put_number(out, b" ", u64::from(message.address))?;
    put_number(out, b" 02000003 ", u64::from(message.length))?;
    put(out, b"\n")
}

/// A Send, after its receive.
#[tactic(auto, using(std::proofs::lemmas::List::append_assoc))]
fn put_send(out: &mut Vec<u8>, message: &Message) -> Result<(), AllocError>
    ensures { OnOk result (out.new.items
        ≡ out.old.items ++ (plan.recv_line message.now ++ plan.send_line message.now)) }
{
    put_head(out, b"recv b.q", b" 02000002 ", message)?;
    put(out, b" 4096\n")?;
    put_head(out, b"send a.q", b" 01000002 ", message)?;
    put_number(out, b" ", u64::from(message.length))?;
    put(out, b"\n")
}

/// The posting of a message of kind 0 to 3: a Write, a Read, a FetchAdd, or a Send and its receive. Errors:
/// `AllocError` when out of memory; what `out` then holds is not said.
#[tactic(auto, unfolding(crate::specs::Plan::posting_lines))]
pub fn put_posting(out: &mut Vec<u8>, kind: u32, message: &Message) -> Result<(), AllocError>
    requires { kind < 4 }
    ensures { OnOk result (out.new.items ≡ out.old.items ++ plan.posting_lines kind message.now) }
{
    match kind {
        0 => put_write(out, message),
        1 => put_read(out, message),
        2 => put_add(out, message),
        _ => put_send(out, message),
    }
}

//! The opening lines.

ghost use Rattle.std.specs.Prelude.{◌≡◌, ◌++◌, ◌+◌, ◌*◌, ◌<◌, ◌≤◌, OnOk};
ghost use Rattle.workload_gen.specs.Plan as plan;

use crate::writing::{put, put_number};
use std::alloc::AllocError;

#[tactic(auto, unfolding(crate::specs::Plan::devices_text))]
fn devices() -> &'static [u8]
    ensures { result.now ≡ plan.devices_text }
{
    b"device 1 10.0.0.1\ndevice 2 10.0.0.2\ndevice 3 10.0.0.3\n"
}

#[tactic(auto, unfolding(crate::specs::Plan::contexts_text))]
fn contexts() -> &'static [u8]
    ensures { result.now ≡ plan.contexts_text }
{
    b"context a 1\ncontext b 2\ndomain a.p\ndomain b.p\n"
}

#[tactic(auto, unfolding(crate::specs::Plan::things_text))]
fn things() -> &'static [u8]
    ensures { result.now ≡ plan.things_text }
{
    b"region a.m a.p 65536 65536 lwra\nregion b.n b.p 65536 65536 lwra\ncq a.c 4096\ncq b.c 4096\n"
}

/// The queue pairs of connection `i`.
#[tactic(auto, using(std::proofs::lemmas::List::append_assoc))]
fn put_pairs(out: &mut Vec<u8>, i: u64) -> Result<(), AllocError>
    ensures { OnOk result (out.new.items ≡ out.old.items
        ++ (plan.qp_a_line i ++ plan.qp_b_line i)) }
{
    put_number(out, b"qp a.q", i)?;
    put_number(out, b" a.p a.c a.c 64 64\nqp b.q", i)?;
    put(out, b" b.p b.c b.c 64 64\n")
}

/// The terms of connection `i`: its packet numbers start at 1000 `i` and 2000 `i`.
#[tactic(auto, using(std::proofs::lemmas::List::append_assoc), unfolding(crate::specs::Plan::terms_text))]
fn put_terms(out: &mut Vec<u8>, i: u64) -> Result<(), AllocError>
    requires { i ≤ 8 }
    ensures { OnOk result (out.new.items ≡ out.old.items ++ plan.terms_text i) }
{
    put_number(out, b" mtu 1024 psn ", 1000 * i)?;
    put_number(out, b" ", 2000 * i)?;
    put(out, b" retry 7 rnr 7 reads 4\n")
}

/// Connects the queue pairs of connection `i`.
#[tactic(auto, using(std::proofs::lemmas::List::append_assoc))]
fn put_connect(out: &mut Vec<u8>, i: u64) -> Result<(), AllocError>
    requires { i ≤ 8 }
    ensures { OnOk result (out.new.items ≡ out.old.items ++ plan.connect_line i) }
{
    put_number(out, b"connect a.q", i)?;
    put_number(out, b" b.q", i)?;
    put_terms(out, i)
}

#[tactic(auto, using(std::proofs::lemmas::List::append_assoc), unfolding(crate::specs::Plan::connection_lines))]
fn put_connection(out: &mut Vec<u8>, i: u64) -> Result<(), AllocError>
    requires { i ≤ 8 }
    ensures { OnOk result (out.new.items ≡ out.old.items ++ plan.connection_lines i) }
{
    put_pairs(out, i)?;
    put_connect(out, i)
}

#[tactic(auto, using(crate::proofs::Growth::connections_start, crate::proofs::Growth::connections_more))]
fn put_connections(out: &mut Vec<u8>, connections: u32) -> Result<(), AllocError>
    requires { connections ≤ 8 }
    ensures { OnOk result (out.new.items ≡ out.old.items ++ plan.connections_lines connections) }
{
    for i in 0..connections {
        put_connection(out, u64::from(i) + 1)?;
    }
    Ok(())
}

/// Three devices, two contexts and what they have, and the connections between them, 8 at the most. Errors:
/// `AllocError` when out of memory; what `out` then holds is not said.
#[tactic(auto, using(std::proofs::lemmas::List::append_assoc), unfolding(crate::specs::Plan::opening_lines))]
pub fn put_opening(out: &mut Vec<u8>, connections: u32) -> Result<(), AllocError>
    requires { connections ≤ 8 }
    ensures { OnOk result (out.new.items ≡ out.old.items ++ plan.opening_lines connections) }
{
    put(out, devices())?;
    put(out, contexts())?;
    put(out, things())?;
    put_connections(out, connections)
}

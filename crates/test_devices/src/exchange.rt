//! One exchange, with a move at each of its moments.

use crate::net::{Net, Said};
use crate::opening::opened;
use crate::plays::{expire, go, post, read, receive, send, store, write};
use protocol::Event;
use rdma_types::{Completion, WcKind, WcStatus};
use std::alloc::Global;
use std::marker::Model;

/// An exchange under way: the devices of `a` and `b`, and the datagram that arrives next. Contracts
/// see nothing of it.
#[derive(Drop)]
struct Exchange {
    net: Net,
    a: u8,
    b: u8,
    next: usize,
}

impl Model for Exchange {
    ghost Value = { Unit {0} };

    ghost view = { λ _. tt };
}

/// Puts so many bytes at the end, each different from its neighbours.
fn put_pattern(bytes: &mut Vec<u8>, count: usize) -> Option<()> {
    for i in 0..count {
        bytes.push((i % 251) as u8).ok()?;
    }
    Some(())
}

/// What the owner of `a` stores.
fn pattern(alloc: Global) -> Option<Vec<u8>> {
    let mut bytes = Vec::new(alloc);
    put_pattern(&mut bytes, 300)?;
    Some(bytes)
}

/// What `b` has in the end: the first 4 bytes of the pattern, which are sent, zeros up to 64, and the pattern, which is
/// written.
fn moved_bytes(alloc: Global) -> Option<Vec<u8>> {
    let mut bytes = Vec::new(alloc);
    put_pattern(&mut bytes, 4)?;
    bytes.resize(64, 0).ok()?;
    put_pattern(&mut bytes, 300)?;
    Some(bytes)
}

/// Stores the bytes, and posts a receive, a Write of two packets, a Send, and a Read of both with two responses.
fn begin(net: &mut Net, bytes: Vec<u8>) -> Option<()> {
    let _ = store(net, bytes)?;
    let _ = receive(net, 8)?;
    let _ = post(net, 1, 4096, write(300, 8256))?;
    let _ = post(net, 2, 4096, send(4))?;
    let _ = post(net, 3, 4608, read(364))?;
    Some(())
}

fn begun(alloc: Global) -> Option<Exchange> {
    let mut net = opened(alloc)?;
    begin(&mut net, pattern(alloc)?)?;
    Some(Exchange {
        net,
        a: 1,
        b: 2,
        next: 0,
    })
}

fn success(qp: u32, id: u64, kind: WcKind, length: u32) -> Completion {
    Completion {
        qp,
        id,
        kind,
        status: WcStatus::Success,
        length,
        imm: None,
    }
}

impl Exchange {
    /// The next datagram arrives; where none is left, an end sends, or the owner's retransmission timeout is over.
    fn turn(&mut self) -> Option<()> {
        let k = self.next;
        if k < self.net.flown() {
            self.next = k + 1;
            let _ = self.net.deliver(k)?;
            return Some(());
        }
        let one = go(&mut self.net, self.a, b"a")?;
        if one == Said::Sent {
            return Some(());
        }
        let two = go(&mut self.net, self.b, b"b")?;
        if two != Said::Sent {
            let _ = expire(&mut self.net, self.a)?;
        }
        Some(())
    }

    fn turns(&mut self, count: usize) -> Option<()> {
        for _ in 0..count {
            self.turn()?;
        }
        Some(())
    }

    /// Context `a` moves to device 3, and is away for so many turns.
    fn owner_moves(&mut self, away: usize) -> Option<Said> {
        let image = self.net.stop(1, b"a")?;
        self.turns(away)?;
        self.a = 3;
        self.net.ask(3, Event::Restore { image })
    }

    /// Context `b` moves to device 3, and is away for so many turns.
    fn partner_moves(&mut self, away: usize) -> Option<Said> {
        let image = self.net.stop(2, b"b")?;
        self.turns(away)?;
        self.b = 3;
        self.net.ask(3, Event::Restore { image })
    }

    /// Whether the completions are those of three requests and a receive, all done.
    fn is_told(&mut self) -> Option<bool> {
        let a = [
            success(0x010001, 1, WcKind::Write, 300),
            success(0x010001, 2, WcKind::Send, 4),
            success(0x010001, 3, WcKind::Read, 364),
        ];
        let b = [success(0x020001, 9, WcKind::Recv, 4)];
        let one = self.net.tells(self.a, b"a", &a)?;
        let two = self.net.tells(self.b, b"b", &b)?;
        Some(one && two)
    }

    /// Whether `b` was written and sent these bytes, and `a` read them.
    fn is_moved(&mut self, bytes: &[u8]) -> Option<bool> {
        let written = self.net.holds(self.b, b"b", 8192, bytes)?;
        let read = self.net.holds(self.a, b"a", 4608, bytes)?;
        Some(written && read)
    }

    /// Whether all is done as without a move.
    fn is_done(&mut self, alloc: Global) -> Option<bool> {
        let all = moved_bytes(alloc)?;
        let moved = self.is_moved(all.as_slice())?;
        Some(moved && self.is_told()?)
    }

    /// Whether the move of a context after these turns is done. Many turns come after it.
    fn moves_at(&mut self, moment: usize, is_owner: bool) -> Option<bool> {
        self.turns(moment)?;
        let restored = if is_owner {
            self.owner_moves(moment % 3)?
        } else {
            self.partner_moves(moment % 3)?
        };
        self.turns(60)?;
        Some(restored == Said::Done)
    }
}

/// Whether all is done after these turns without a move.
fn ends(alloc: Global, turns: usize) -> Option<bool> {
    let mut still = begun(alloc)?;
    still.turns(turns)?;
    still.is_done(alloc)
}

/// Whether all is done in the end where a context moves after these turns.
fn ends_as_one_moves(alloc: Global, moment: usize, is_owner: bool) -> Option<bool> {
    let mut moved = begun(alloc)?;
    let restored = moved.moves_at(moment, is_owner)?;
    Some(moved.is_done(alloc)? && restored)
}

/// Four packets of requests are sent. They, two acknowledgements and two responses arrive.
#[test]
fn an_exchange_ends(rt: HostRuntime) {
    assert_eq!(rt; ends(rt.alloc(), 12), Some(true));
}

/// Context `a` or `b` moves before each of the 12 turns and after the last, and all is done in the end.
#[test]
fn a_move_makes_no_difference(rt: HostRuntime) {
    for moment in 0..13 {
        let owner = ends_as_one_moves(rt.alloc(), moment, true);
        let partner = ends_as_one_moves(rt.alloc(), moment, false);
        assert_eq!(rt; (owner, partner), (Some(true), Some(true)), "at {moment}");
    }
}

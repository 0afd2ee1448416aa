//! A clock in memory.

ghost use Rattle.std.specs.Prelude.{◌≡◌, Some, drop};
ghost use Rattle.host_ports.specs.Links.{TellsMoment};

use crate::Ticks;
use std::marker::Model;

/// A clock that answers the numbers that it was made with, one after the other, and 0 behind them.
#[derive(Drop)]
pub struct MemTicks {
    moments: Vec<u64>,
    at: usize,
}

impl Model for MemTicks {
    ghost use Rattle.std.specs.Prelude.{ℕ, List, ◌≤◌, drop};
    ghost use Rattle.std.specs.Vec.{vec_len};

    ghost Value = { List ℕ };

    ghost view = { λ t. drop t.at t.moments.items };

    ghost invariant = { λ t. t.at ≤ vec_len t.moments };
}

impl MemTicks {
    /// A clock that is to answer these numbers.
    pub fn make(to_come: Vec<u64>) -> MemTicks
        ensures { result ≡ to_come.items }
    {
        MemTicks {
            moments: to_come,
            at: 0,
        }
    }

    /// The numbers that it is still to answer.
    pub fn to_come(&self) -> &[u64]
        ensures { result.now ≡ self.now }
    {
        &self.moments[self.at..]
    }
}

impl Ticks for MemTicks {
    ghost to_come = { λ t. Some t };

    /// Answers the next of its numbers, or 0. It takes no memory.
    fn now(&mut self) -> u64
        ensures { TellsMoment (Some self.old) (Some self.new) result }
    {
        let Some(moment) = self.moments.get(self.at) else {
            return 0;
        };
        self.at += 1;
        *moment
    }
}

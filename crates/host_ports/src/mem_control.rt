//! A control in memory.

ghost use Rattle.std.specs.Prelude.{◌≡◌, Some, IfOk, OnErr};
ghost use Rattle.host_ports.specs.Controls.{GivesNext};

use crate::{Control, Heard};
use std::alloc::{AllocError, Global};
use std::collections::VecDeque;
use std::marker::Model;

/// A control that gives what it was made with, one after the other, and then the end.
#[derive(Drop)]
pub struct MemControl {
    to_come: VecDeque<Heard>,
}

impl Model for MemControl {
    ghost use Rattle.std.specs.Prelude.{List};
    ghost use Rattle.host_ports.specs.declared.control.Heard.{Heard};

    ghost Value = { List Heard };

    ghost view = { λ c. c.to_come.items };
}

impl MemControl {
    /// A control that is to give these.
    pub fn make(to_come: VecDeque<Heard>) -> MemControl
        ensures { result ≡ to_come.items }
    {
        MemControl { to_come }
    }
}

impl Control for MemControl {
    ghost to_come = { λ c. Some c };

    fn next(&mut self, _alloc: Global) -> Result<Heard, AllocError> {
        match self.to_come.pop_front() {
            Some(heard) => Ok(heard),
            None => Ok(Heard::Ended),
        }
    }
}

//! A control, which drives a run by lines.

ghost use Rattle.std.specs.Prelude.{◌≡◌, List, Option, IfOk, OnErr};
ghost use Rattle.host_ports.specs.Controls.{GivesNext};

use rdma_types::Items;
use std::alloc::{AllocError, Global};

/// What a control gave.
#[derive(Drop)]
pub enum Heard {
    /// The next line, without its newline and without a carriage return before that.
    Line(Items<u8>),
    /// No whole line has come.
    Nothing,
    /// No line will come any more.
    Ended,
}

/// Lines as they come.
pub trait Control {
    ghost use Rattle.host_ports.specs.declared.control.Heard.{Heard};

    // What it is to give, call after call, where that is told; behind it the end.
    ghost to_come: { Self → Option (List Heard) };

    /// The next line, if one has come. It does not wait for one.
    ///
    /// Of a line of more than 8,400 bytes an adapter may give the first 8,401 alone. An input that cannot be read has
    /// ended.
    ///
    /// # Errors
    ///
    /// `AllocError` when out of memory. Nothing is taken then.
    fn next(&mut self, alloc: Global) -> Result<Heard, AllocError>
        ensures given { IfOk result (λ h. GivesNext (to_come self.old) (to_come self.new) h) }
        ensures same { OnErr result (to_come self.new ≡ to_come self.old) };
}

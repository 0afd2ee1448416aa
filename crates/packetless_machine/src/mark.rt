//! How far the packet numbers of an end's requests are counted.
#![tactic(auto, using(crate::proofs::Marks::marks))]

ghost use Rattle.std.specs.Prelude.{◌<◌};
ghost use Rattle.packetless_machine.specs.Counted.{IsMark};

use crate::numbers::span_of;
use crate::posted::IdealRequest;

/// A place among the requests of an end, and the first packet number of the request there.
#[derive(Clone, Copy)]
pub(crate) struct Mark {
    pub(crate) place: usize,
    pub(crate) number: u64,
}

impl Mark {
    /// The mark one request on. It stays where no request is there, where there is no MTU to count by, and where the
    /// number would not fit.
    pub(crate) fn after(self, posted: &[IdealRequest], mtu: u32) -> Mark
        requires { IsMark posted.now mtu self.place self.number }
        ensures { IsMark posted.now mtu result.place result.number }
    {
        if mtu == 0 {
            return self;
        }
        let Some(r) = posted.get(self.place) else {
            return self;
        };
        match self.number.checked_add(span_of(r, mtu)) {
            Some(number) => Mark {
                place: self.place + 1,
                number,
            },
            None => self,
        }
    }
}

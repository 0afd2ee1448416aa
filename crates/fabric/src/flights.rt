//! Datagrams in the network's store.

ghost use Rattle.std.specs.Prelude.{◌≡◌, Some};
ghost use Rattle.protocol.specs.Fabric.{flight_of, look_at, marked_lost, marked_taken};
ghost use Rattle.fabric.specs.Store.{is_open, is_settled};

use rdma_types::{Address, Sent};
use std::marker::Model;

/// How late a datagram may be: its true number plus this is not below that of its receiver.
const LATEST: u64 = 4_194_304;

/// A datagram that was sent, and whether it was lost or taken.
#[derive(Drop)]
pub struct Flight {
    /// The address of the device that sent it.
    pub from: Address,
    /// Where to, its true number if it has one, and its bytes.
    pub sent: Sent,
    lost: bool,
    taken: bool,
}

impl Model for Flight {
    ghost use Rattle.protocol.specs.State as state;

    ghost Value = { state.Flight };

    ghost view = { λ f. record { from = f.from; to = f.sent.to; number = f.sent.number; bytes = f.sent.bytes; lost = f.lost; taken = f.taken } };
}

/// What a datagram is for its receiver.
#[derive(Clone, Copy)]
pub enum DatagramState<'a> {
    /// It is kept, not lost and not too late.
    Here(&'a Flight),
    /// It is not among the last 16,384 that were sent.
    Gone,
    /// It was lost.
    Lost,
    /// It is more than 4,194,304 packet numbers late.
    Aged,
}

impl Flight {
    ghost use Rattle.fabric.specs.Told.{told};

    /// A datagram on its way.
    pub(crate) fn new(from: Address, sent: Sent) -> Flight
        ensures { result ≡ flight_of from sent }
    {
        Flight {
            from,
            sent,
            lost: false,
            taken: false,
        }
    }

    /// Whether it is lost or taken.
    pub(crate) fn is_settled(&self) -> bool
        ensures { result ≡ is_settled self.now }
    {
        self.lost || self.taken
    }

    /// Whether it is neither lost nor taken.
    pub(crate) fn is_open(&self) -> bool
        ensures { result ≡ is_open (Some self.now) }
    {
        !self.lost && !self.taken
    }

    /// It is taken.
    pub(crate) fn take(&mut self)
        ensures { self.new ≡ marked_taken self.old }
    {
        self.taken = true;
    }

    /// It is lost.
    pub(crate) fn lose(&mut self)
        ensures { self.new ≡ marked_lost self.old }
    {
        self.lost = true;
    }

    /// What it is where its receiver is at number `now`.
    #[inline(always)]
    pub fn look(&self, now: u64) -> DatagramState<'_>
        ensures { told result ≡ look_at (Some self.now) now }
    {
        if self.lost {
            return DatagramState::Lost;
        }
        match self.sent.number {
            Some(number) if number < now.saturating_sub(LATEST) => DatagramState::Aged,
            _ => DatagramState::Here(self),
        }
    }
}

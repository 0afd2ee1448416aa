//! A link, over which datagrams come and go.

ghost use Rattle.std.specs.Prelude.{◌≡◌, ℕ, ◌+◌, ◌<◌, ◌≤◌, List, length, Option, IsOk, IfOk, OnOk, OnErr};
ghost use Rattle.rdma_types.specs.declared.requests.Address.{Address};
ghost use Rattle.host_ports.specs.Streams.{FaultsCounted};

use crate::Failed;
use rdma_types::Address;

/// Bytes of a datagram at most.
pub const LONGEST_DATAGRAM: usize = 4200;

/// What a link gave.
#[derive(Clone, Copy, Debug, PartialEq, Eq)]
pub enum Got {
    /// A datagram of that many bytes, from that address.
    Datagram { from: Address, length: usize },
    /// No datagram waits.
    Nothing,
}

/// Where datagrams come from and go to. None has over 4,200 bytes.
pub trait Link {
    ghost use Rattle.host_ports.specs.Links.{Addressed, FitsIn, SendsOne, TakesFirst, got_of, longest_datagram};

    // The datagrams that wait to be taken, each with the address that it comes from, where that is told.
    ghost waiting: { Self → Option (List Addressed) };

    // The datagrams that were sent, each with the address that it goes to, where that is told.
    ghost sent: { Self → Option (List Addressed) };

    // How many faults there were. The count stays at the last value that a u64 has.
    ghost faults: { Self → ℕ };

    // No call but `send_to` fails from here on.
    ghost never_fails: { Self → Type 0 };

    // How many more datagrams of at most 4,200 bytes it sends for sure: 0 promises nothing.
    ghost room: { Self → ℕ };

    /// Starts the link at the address. It is called once, before the other calls.
    ///
    /// # Errors
    ///
    /// A fault, which is counted.
    fn start(&mut self, own: Address) -> Result<(), Failed>
        ensures waiting { waiting self.new ≡ waiting self.old }
        ensures sent { sent self.new ≡ sent self.old }

        // The count of faults rises exactly with a fault.
        ensures faults_unchanged { OnOk result (faults self.new ≡ faults self.old) }
        ensures faults_counted { OnErr result (FaultsCounted (faults self.old) (faults self.new)) }
        ensures faults_monotone { faults self.old ≤ faults self.new }

        ensures never { never_fails self.old → IsOk result }
        ensures stays { never_fails self.old → never_fails self.new }
        ensures room { room self.old ≤ room self.new };

    /// Sends a datagram.
    ///
    /// # Errors
    ///
    /// A fault, which is counted and sends nothing.
    fn send_to(&mut self, to: Address, bytes: &[u8]) -> Result<(), Failed>
        ensures sent { OnOk result (SendsOne (sent self.old) (sent self.new) (to, bytes.now)) }
        ensures unsent { OnErr result (sent self.new ≡ sent self.old) }
        ensures waiting { waiting self.new ≡ waiting self.old }

        // The count of faults rises exactly with a fault.
        ensures faults_unchanged { OnOk result (faults self.new ≡ faults self.old) }
        ensures faults_counted { OnErr result (FaultsCounted (faults self.old) (faults self.new)) }
        ensures faults_monotone { faults self.old ≤ faults self.new }

        // A datagram that is not too long and finds room is no fault, and takes the room of one.
        ensures fits { length bytes.now ≤ longest_datagram → 0 < room self.old → IsOk result }
        ensures stays { never_fails self.old → never_fails self.new }
        ensures room { room self.old ≤ room self.new + 1 };

    /// Takes the first datagram that waits, into the first places of `out`, which has 4,200 bytes or more.
    ///
    /// What is left in the rest of `out` isn't said. An adapter may wait a while for a datagram.
    ///
    /// # Errors
    ///
    /// A fault, which is counted and takes nothing.
    fn take(&mut self, out: &mut [u8]) -> Result<Got, Failed>
        requires { longest_datagram ≤ length out.old }
        ensures fits { IfOk result (λ g. FitsIn (length out.old) g) }
        ensures taken { IfOk result (λ g. TakesFirst (waiting self.old) (waiting self.new)
            (got_of g out.new)) }
        ensures left { OnErr result (waiting self.new ≡ waiting self.old) }
        ensures sent { sent self.new ≡ sent self.old }

        // The count of faults rises exactly with a fault.
        ensures faults_unchanged { OnOk result (faults self.new ≡ faults self.old) }
        ensures faults_counted { OnErr result (FaultsCounted (faults self.old) (faults self.new)) }
        ensures faults_monotone { faults self.old ≤ faults self.new }

        ensures never { never_fails self.old → IsOk result }
        ensures stays { never_fails self.old → never_fails self.new }
        ensures room { room self.old ≤ room self.new };
}

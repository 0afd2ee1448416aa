//! Packet numbers. An end's request packets are numbered 0, 1, 2 and so on, which are their true numbers; a packet
//! carries 24 bits, its packet sequence number (IBA 9.7).

ghost use Rattle.std.specs.Prelude.{◌≡◌, ℕ, ◌^◌, ◌<◌, ◌↔◌, Option, Some, IsNone, IfSome};
ghost use Rattle.protocol.specs.Numbers.{wire_number, IsNear, unwrap_near as near_number};
ghost use Rattle.transport.specs.Near.{IsBelowZero};

use std::cmp::Ordering;

mod places;

pub use places::PsnOrder;

/// How many packet sequence numbers there are.
pub const WIRE_NUMBERS: u32 = 16_777_216;

/// Half of them.
const HALF: u64 = 8_388_608;

/// The packet sequence number of packet `n` of an end whose numbering begins at `start`.
#[tactic(auto, unfolding(protocol::specs::Numbers::wire_number))]
pub fn wire_of(n: u64, start: u32) -> u32
    requires { n < 2 ^ 63 }
    ensures spelled { result ≡ wire_number start n }
    ensures fits { result < 2 ^ 24 }
{
    ((u64::from(start) + n) % u64::from(WIRE_NUMBERS)) as u32
}

/// The one packet number from `near` - 2^23 up to `near` + 2^23 - 1 that has the packet sequence number `psn`, and None
/// exactly where that number lies below 0. Reading numbers within this half range is this project's choice.
#[tactic(auto, unfolding(protocol::specs::Numbers::wire_number))]
pub fn unwrap_near(psn: u32, start: u32, near: u64) -> Option<u64>
    requires psn_fits { psn < 2 ^ 24 }
    requires near_fits { near < 2 ^ 62 }

    ensures found { IfSome result (IsNear start psn near) }
    ensures only { (n : ℕ) → IsNear start psn near n → result ≡ Some n }
    ensures none { IsNone result ↔ IsBelowZero start psn near }

    // The protocol's rules find the same number.
    ensures rule { result ≡ near_number start psn near }
{
    let lowest = wire_of(near + HALF, start);
    let above_lowest = (psn + WIRE_NUMBERS - lowest) % WIRE_NUMBERS;
    (near + u64::from(above_lowest)).checked_sub(HALF)
}

/// Where packet `n` stands beside the expected one (IBA 9.7).
pub fn place(n: u64, expected: u64) -> PsnOrder
    ensures before { (result ≡ PsnOrder.Before) ↔ (n < expected) }
    ensures expected { (result ≡ PsnOrder.Expected) ↔ (n ≡ expected) }
    ensures ahead { (result ≡ PsnOrder.Ahead) ↔ (expected < n) }
{
    match n.cmp(&expected) {
        Ordering::Less => PsnOrder::Before,
        Ordering::Equal => PsnOrder::Expected,
        Ordering::Greater => PsnOrder::Ahead,
    }
}

/// At most one number near another has a given packet sequence number.
#[tactic(auto, unfolding(protocol::specs::Numbers::wire_number))]
pub fn near_numbers_are_one()
    ensures { (start psn near m n : ℕ) → IsNear start psn near m → IsNear start psn near n → m ≡ n }
{}

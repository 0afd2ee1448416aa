//! Kinds of requests.

ghost use Rattle.std.specs.Prelude.{◌≡◌};
ghost use Rattle.rdma_types.specs.Kinds as kinds;

use rdma_types::Kind;

/// A request of this kind sends the bytes of its message.
pub fn takes_bytes(kind: Kind) -> bool
    ensures { result ≡ kinds.takes_bytes kind }
{
    matches!(kind, Kind::Write | Kind::Send)
}

/// A compare and swap, or an addition.
pub fn is_atomic(kind: Kind) -> bool
    ensures { result ≡ kinds.is_atomic kind }
{
    matches!(kind, Kind::CompareSwap | Kind::FetchAdd)
}

//! Kinds of requests.

ghost use Rattle.std.specs.Prelude.{◌≡◌};
ghost use Rattle.rdma_types.specs.Kinds as kinds;

use rdma_types::Kind;

/// Bytes or an old value land in its local place.
pub fn lands(kind: Kind) -> bool
    ensures { result ≡ kinds.lands kind }
{
    matches!(kind, Kind::Read | Kind::CompareSwap | Kind::FetchAdd)
}

/// A Read.
pub fn is_read(kind: Kind) -> bool
    ensures { result ≡ kinds.is_read kind }
{
    matches!(kind, Kind::Read)
}

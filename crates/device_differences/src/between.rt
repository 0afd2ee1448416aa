//! Numbers, and lists of them.
#![tactic(auto, using(crate::proofs::Found::looked), unfolding(crate::specs::Differing::apart))]

ghost use Rattle.std.specs.Prelude.{◌≡◌, ◌<◌, ◌^◌, ◌∷◌, [], ℕ, List, length, Option};
ghost use Rattle.device_differences.specs.Differing.{apart as apart_in, between, first_of};
ghost use Rattle.std.specs.Result.{result_err};

use rdma_types::Name;

/// Two numbers, where they differ.
pub fn apart(m: u64, n: u64) -> Option<(u64, u64)>
    ensures { result ≡ apart_in m n }
{
    if m == n { None } else { Some((m, n)) }
}

/// The first two numbers that differ, or else the lengths.
pub fn numbers(a: &[u64], b: &[u64]) -> Option<(u64, u64)>
    ensures { result ≡ between a.now b.now }
{
    for i in 0..a.len().min(b.len()) {
        let found = apart(a[i], b[i]);
        if found.is_some() {
            return found;
        }
    }
    apart(a.len() as u64, b.len() as u64)
}

/// The same of bytes.
pub fn bytes(a: &[u8], b: &[u8]) -> Option<(u64, u64)>
    ensures { result ≡ between a.now b.now }
{
    for i in 0..a.len().min(b.len()) {
        let found = apart(u64::from(a[i]), u64::from(b[i]));
        if found.is_some() {
            return found;
        }
    }
    apart(a.len() as u64, b.len() as u64)
}

/// The same of names.
pub fn names(a: &Name, b: &Name) -> Option<(u64, u64)>
    ensures { result ≡ between a.now b.now }
{
    bytes(a.as_bytes(), b.as_bytes())
}

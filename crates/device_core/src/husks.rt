//! What moved contexts leave.

/// An entry of a husk, the tombstone that a moved context leaves on its old device (MigrOS): the number of an end, its
/// partner's number, and how often it had moved.
#[derive(Clone, Copy)]
pub(crate) struct HuskEntry {
    pub(crate) number: u32,
    pub(crate) peer: u32,
    pub(crate) moves: u16,
}

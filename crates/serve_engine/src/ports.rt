//! What a run speaks to.

/// The objects that a run speaks to: the link, the output, the store, the control and the clock.
#[derive(Drop)]
pub struct ServePorts<L, K, S, C, T> {
    pub link: L,
    pub output: K,
    pub store: S,
    pub control: C,
    pub ticks: T,
}

//! What the ports of one run tell each other.

use std::cell::Cell;

/// Whether a datagram was sent or taken, or a line came, and whether a line is waited for. The ports of one run share it: so a link
/// need not wait while its control has lines, and a line that comes ends its wait.
#[derive(Drop)]
pub struct Activity {
    was_active: Cell<bool>,
    is_listening: Cell<bool>,
}

impl Activity {
    /// Something happened, and no line is waited for.
    pub fn new() -> Activity {
        Activity {
            was_active: Cell::new(true),
            is_listening: Cell::new(false),
        }
    }

    /// Something happened.
    pub fn note(&self) {
        self.was_active.set(true);
    }

    /// A line is waited for.
    pub fn listen(&self) {
        self.is_listening.set(true);
    }

    /// Whether nothing happened since this was last asked.
    pub fn was_idle(&self) -> bool {
        !self.was_active.replace(false)
    }

    /// Whether a line was waited for since this was last asked.
    pub fn was_listening(&self) -> bool {
        self.is_listening.replace(false)
    }
}

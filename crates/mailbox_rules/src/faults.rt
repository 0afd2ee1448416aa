//! Why a call is refused.

ghost use Rattle.std.specs.Prelude.{◌≡◌};
ghost use Rattle.mailbox_rules.specs.declared.faults.MailFault.TheVariants as fault;

use std::alloc::AllocError;

/// Why a call on letters is refused: the first of these that holds, in this order (this project's choice).
#[derive(Clone, Copy, Debug, PartialEq, Eq)]
pub enum MailFault {
    /// No sender has this number.
    NoSender,
    /// The body has over 1,048,576 bytes.
    TooLong,
    /// The sender's context is carried.
    Moving,
    /// A completion of the sender's end had an error.
    Ended,
    /// The sender's end has 16 untold requests, or the body has to be fetched and the slot is not free.
    Full,
    /// The event is not of the network.
    NotNetwork,
    /// The call was cut off; the next one goes on from there. No letter was sent or taken.
    OutOfMemory,
}

impl From<AllocError> for MailFault {
    ghost from_gives = { λ _ e. e ≡ fault.OutOfMemory };

    fn from(_e: AllocError) -> MailFault {
        MailFault::OutOfMemory
    }
}

//! Names of contexts and of the things in them.

ghost use Rattle.std.specs.Prelude.{◌≡◌, true};
ghost use Rattle.rdma_types.specs.Spelled.{is_letter};
ghost use Rattle.mailbox_rules.specs.Opening as opening;
ghost use Rattle.mailbox_rules.specs.State as rules;

use rdma_types::{Name, ObjName};

/// A letter and a digit.
fn numbered(letter: u8, i: u8) -> Name
    requires { is_letter letter ≡ true }
    ensures { result ≡ opening.numbered letter i }
{
    Name::read(&[letter, b'0' + i % 10]).unwrap()
}

/// The domain of each context.
pub(crate) fn domain() -> Name
    ensures { result ≡ opening.domain_name }
{
    Name::read(b"p").unwrap()
}

/// The completion queue of each context.
pub(crate) fn queue() -> Name
    ensures { result ≡ opening.queue_name }
{
    Name::read(b"c").unwrap()
}

/// The context that takes letters.
pub(crate) fn receiver() -> Name
    ensures { result ≡ opening.receiver }
{
    Name::read(b"r").unwrap()
}

/// The context of sender `i`.
pub(crate) fn sender(i: u8) -> Name
    ensures { result ≡ opening.sender i }
{
    numbered(b's', i)
}

/// Context 0 is the receiver, and context `n` sender `n`.
pub(crate) fn context_at(n: u8) -> Name
    ensures { result ≡ rules.context_at n }
{
    if n == 0 { receiver() } else { sender(n) }
}

/// The receiver's region for sender `i`.
pub(crate) fn receiver_region(i: u8) -> ObjName
    ensures { result ≡ opening.receiver_region i }
{
    ObjName {
        context: receiver(),
        name: numbered(b'n', i),
    }
}

/// The receiver's end for sender `i`.
pub(crate) fn receiver_end(i: u8) -> ObjName
    ensures { result ≡ opening.receiver_end i }
{
    ObjName {
        context: receiver(),
        name: numbered(b'q', i),
    }
}

/// The region of sender `i`.
pub(crate) fn sender_region(i: u8) -> ObjName
    ensures { result ≡ opening.sender_region i }
{
    ObjName {
        context: sender(i),
        name: Name::read(b"m").unwrap(),
    }
}

/// The end of sender `i`.
pub(crate) fn sender_end(i: u8) -> ObjName
    ensures { result ≡ opening.sender_end i }
{
    ObjName {
        context: sender(i),
        name: Name::read(b"q").unwrap(),
    }
}

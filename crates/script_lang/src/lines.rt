//! What lines say, and what is wrong with them.

ghost use Rattle.std.specs.Prelude.{◌≡◌};
ghost use Rattle.script_lang.specs.declared.lines.LineFault.TheVariants as fault;

use rdma_types::{Address, Name, ObjName, Terms, Verb};
use std::alloc::AllocError;

/// What a line of a script says. Ids of devices are from 1 to 255.
#[derive(Drop)]
pub enum Line {
    /// It has no words, or is a comment, and has no answer.
    Blank,
    /// Any verb but `Verb::Context`.
    Verb(Verb),
    Device { id: u8, address: Address },
    Context { name: Name, device: u8 },
    /// The next packet of an end may be sent.
    Go(ObjName),
    /// A datagram by its number, which may be any.
    Deliver(u64),
    Lose(u64),
    Wire(u64),
    /// The retransmission timeout of an end.
    Expire(ObjName),
    /// The RNR timer of an end is over.
    Rnr(ObjName),
    Stop(Name),
    Restore { name: Name, device: u8 },
    Release { name: Name, device: u8 },
    Dump(Name),
    Settle,
}

/// What a line of a node's script says: that of one device, which is there already.
#[derive(Drop)]
pub enum NodeLine {
    /// It has no words, or is a comment, and has no answer.
    Blank,
    /// Any verb but `Verb::Context` and `Verb::Connect`.
    Verb(Verb),
    Context(Name),
    /// One end is connected to the queue pair with that number, below 2^24, at that address.
    Link {
        end: ObjName,
        peer: u32,
        partner: Address,
        terms: Terms,
    },
    Go(ObjName),
    Expire(ObjName),
    Rnr(ObjName),
    /// A context is stopped, and its dump is put in the depot under a name.
    Stop {
        name: Name,
        file: Name,
    },
    /// The dump of that name in the depot is restored.
    Restore {
        file: Name,
    },
    Release(Name),
    /// Turns of taking datagrams and sending them, 1 to 100,000.
    Serve(u32),
}

/// Why a line is in no form.
#[derive(Clone, Copy, Debug)]
pub enum LineWhy {
    /// Over 8,400 bytes.
    Long,
    /// A byte outside 32 to 126.
    Ascii,
    /// No line begins with this word.
    Word,
    /// A word is missing at the end.
    Missing,
    /// No name, or no name of an object.
    Name,
    /// No number, or a number out of its range.
    Number,
    /// No hexadecimal digits, or too few or too many.
    Hex,
    Rights,
    Address,
    /// Another word must stand here; it is printed `option`.
    BadOption,
    /// Nothing more may stand here.
    Extra,
}

/// Why a line was not read.
#[derive(Clone, Copy)]
pub enum LineFault {
    /// The line is in no form. The column, counted in bytes from 1, is that of the first word that is wrong, or one past
    /// the line's end where a word is missing.
    Bad { column: usize, why: LineWhy },
    OutOfMemory,
}

/// The first word that is wrong.
#[derive(Clone, Copy)]
pub struct Offence {
    pub column: usize,
    pub why: LineWhy,
}

impl From<Offence> for LineFault {
    ghost from_gives = { λ o f. f ≡ fault.Bad o.column o.why };

    fn from(offence: Offence) -> LineFault {
        LineFault::Bad {
            column: offence.column,
            why: offence.why,
        }
    }
}

impl From<AllocError> for LineFault {
    ghost from_gives = { λ _ f. f ≡ fault.OutOfMemory };

    fn from(_e: AllocError) -> LineFault {
        LineFault::OutOfMemory
    }
}

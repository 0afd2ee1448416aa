//! What the lines of a trace say.

use packetless_machine::MachineStep;
use rdma_types::Verb;
use script_lang::VerbForm;

/// What a line of a trace says that is no line of an answer.
#[derive(Drop)]
pub enum TraceLine {
    /// An application asked for a verb, and its answer follows.
    Verb(Verb),
    /// The machine made an inner step.
    Step(MachineStep),
    /// Nothing follows.
    End,
}

/// The first words of such lines.
#[derive(Clone, Copy)]
pub enum LineStart {
    Verb,
    Step,
    End,
}

/// The verbs of a trace: those that scripts share, a context with whether its device is made, and a connection.
#[derive(Clone, Copy)]
pub enum VerbLineForm {
    Shared(VerbForm),
    Context,
    Connect,
}

/// The inner steps.
#[derive(Clone, Copy)]
pub enum StepForm {
    Run,
    Atom,
    ReadTurn,
    Refuse,
    Dry,
    Offer,
    Land,
    Known,
    Tell,
    Expire,
    Wait,
    Bounce,
}

/// The first words of answers to verbs.
#[derive(Clone, Copy)]
pub enum AnswerForm {
    Done,
    NoEntry,
    Keys,
    Number,
    Bytes,
    Entry,
    Refused,
}

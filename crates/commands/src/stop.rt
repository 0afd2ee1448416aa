//! Why a run ends before its command is done.

ghost use Rattle.std.specs.Prelude.{◌≡◌, ◌≤◌, OnOk, OnErr};
ghost use Rattle.host_ports.specs.Streams.{FaultsCounted, Puts};
ghost use Rattle.program_rules.specs.Ends.{code};
ghost use Rattle.program_rules.specs.Texts.{audit_why_text, dump_why_text, line_why_text};
ghost use Rattle.script_runner.specs.Playing.{PutsPrefix};
ghost use Rattle.commands.specs.Stopping.{stop_of_audit, stop_of_dump, stop_of_node, stop_of_play, stop_of_read};
ghost use Rattle.commands.specs.Writing as writing;
ghost use Rattle.commands.specs.declared.stop.Stop.TheVariants.{OutOfMemory, WriteFault};

use crate::writing::write_line;
use dump_reader::DumpFault;
use host_ports::{ReadAllFault, Sink, WriteFault};
use itoa::Buffer;
use node_engine::NodeFault;
use protocol::DumpWhy;
use rdma_types::Name;
use run_traces::trace_audit::{AuditFault, AuditWhy};
use script_lang::LineWhy;
use script_runner::PlayFault;
use std::alloc::AllocError;

/// Why a run ends before its command is done.
#[derive(Clone, Copy)]
pub(crate) enum Stop {
    /// The words are of no command.
    Usage,
    /// The line of this number, counted from 1, is in no form; its first word that is wrong begins at that column.
    BadLine {
        line: u64,
        column: usize,
        why: LineWhy,
    },
    /// The bytes of a dump are wrong at that place, counted from 0.
    BadDump {
        place: usize,
        why: DumpWhy,
    },
    /// The input could not be read.
    ReadFault,
    /// The output could not be written.
    WriteFault,
    /// The link failed.
    LinkFault,
    /// The depot failed.
    DepotFault,
    OutOfMemory,
    /// The input has more bytes than the limit.
    TooLong,
    /// The depot holds nothing under the name.
    Missing {
        name: Name,
    },
    /// A trace is no run of the packetless machine: the line of this number, counted from 1, can be of none.
    Illegal {
        line: u64,
        why: AuditWhy,
    },
    /// A device is not emptied, which is written already.
    NotEmptied,
}

impl From<ReadAllFault> for Stop {
    ghost from_gives = { λ fault stop. stop ≡ stop_of_read fault };

    fn from(fault: ReadAllFault) -> Stop {
        match fault {
            ReadAllFault::ReadFault => Stop::ReadFault,
            ReadAllFault::TooLong => Stop::TooLong,
            ReadAllFault::OutOfMemory => Stop::OutOfMemory,
        }
    }
}

impl From<PlayFault> for Stop {
    ghost from_gives = { λ fault stop. stop ≡ stop_of_play fault };

    fn from(fault: PlayFault) -> Stop {
        match fault {
            PlayFault::BadLine { line, column, why } => Stop::BadLine { line, column, why },
            PlayFault::WriteFault => Stop::WriteFault,
            PlayFault::OutOfMemory => Stop::OutOfMemory,
        }
    }
}

impl From<DumpFault> for Stop {
    ghost from_gives = { λ fault stop. stop ≡ stop_of_dump fault };

    fn from(fault: DumpFault) -> Stop {
        match fault {
            DumpFault::BadDump { place, why } => Stop::BadDump { place, why },
            DumpFault::OutOfMemory => Stop::OutOfMemory,
        }
    }
}

impl From<AuditFault> for Stop {
    ghost from_gives = { λ fault stop. stop ≡ stop_of_audit fault };

    fn from(fault: AuditFault) -> Stop {
        match fault {
            AuditFault::BadLine { line, column, why } => Stop::BadLine { line, column, why },
            AuditFault::OutOfMemory => Stop::OutOfMemory,
        }
    }
}

impl From<NodeFault> for Stop {
    ghost from_gives = { λ fault stop. stop ≡ stop_of_node fault };

    fn from(fault: NodeFault) -> Stop {
        match fault {
            NodeFault::BadLine { line, column, why } => Stop::BadLine { line, column, why },
            NodeFault::BadDump { place, why } => Stop::BadDump { place, why },
            NodeFault::WriteFault => Stop::WriteFault,
            NodeFault::LinkFault => Stop::LinkFault,
            NodeFault::DepotFault => Stop::DepotFault,
            NodeFault::Missing(name) => Stop::Missing { name },
            NodeFault::OutOfMemory => Stop::OutOfMemory,
        }
    }
}

impl From<WriteFault> for Stop {
    ghost from_gives = { λ _ stop. stop ≡ WriteFault };

    fn from(_fault: WriteFault) -> Stop {
        Stop::WriteFault
    }
}

impl From<AllocError> for Stop {
    ghost from_gives = { λ _ stop. stop ≡ OutOfMemory };

    fn from(_e: AllocError) -> Stop {
        Stop::OutOfMemory
    }
}

/// The word of a reason.
fn line_why_word(why: LineWhy) -> &'static [u8]
    ensures { result.now ≡ line_why_text why }
{
    match why {
        LineWhy::Long => b"long",
        LineWhy::Ascii => b"ascii",
        LineWhy::Word => b"word",
        LineWhy::Missing => b"missing",
        LineWhy::Name => b"name",
        LineWhy::Number => b"number",
        LineWhy::Hex => b"hex",
        LineWhy::Rights => b"rights",
        LineWhy::Address => b"address",
        LineWhy::BadOption => b"option",
        LineWhy::Extra => b"extra",
    }
}

/// The word of a reason.
fn dump_why_word(why: DumpWhy) -> &'static [u8]
    ensures { result.now ≡ dump_why_text why }
{
    match why {
        DumpWhy::Short => b"short",
        DumpWhy::Magic => b"magic",
        DumpWhy::Version => b"version",
        DumpWhy::Name => b"name",
        DumpWhy::Count => b"count",
        DumpWhy::Field => b"field",
        DumpWhy::Trailing => b"trailing",
    }
}

/// The word of a reason.
fn audit_why_word(why: AuditWhy) -> &'static [u8]
    ensures { result.now ≡ audit_why_text why }
{
    match why {
        AuditWhy::Step => b"step",
        AuditWhy::Answer => b"answer",
    }
}

impl Stop {
    /// The status of a run that ends so.
    pub(crate) fn status(&self) -> u8
        ensures { result ≡ code (writing.status self.now) }
    {
        match self {
            Stop::Usage => 2,
            Stop::BadLine { .. } | Stop::BadDump { .. } => 3,
            Stop::ReadFault => 4,
            Stop::WriteFault => 5,
            Stop::LinkFault => 6,
            Stop::DepotFault => 7,
            Stop::OutOfMemory => 8,
            Stop::TooLong => 9,
            Stop::Missing { .. } => 12,
            Stop::Illegal { .. } => 13,
            Stop::NotEmptied => 14,
        }
    }

    /// Writes the last line of a run that ends so, where it has one. It takes no memory.
    pub(crate) fn write_last_line<K: Sink>(&self, output: &mut K) -> Result<(), WriteFault>
        ensures whole { OnOk result (Puts (K.held output.old) (K.held output.new)
            (writing.last_line self.now)) }
        ensures part { OnErr result (PutsPrefix (K.held output.old) (K.held output.new)
            (writing.last_line self.now)) }
        ensures speaks { OnErr result (writing.HasLastLine self.now) }
        ensures faults_unchanged { OnOk result (K.faults output.new ≡ K.faults output.old) }
        ensures faults_counted { OnErr result (FaultsCounted (K.faults output.old)
            (K.faults output.new)) }
        ensures faults_monotone { K.faults output.old ≤ K.faults output.new }
    {
        match self {
            Stop::Usage => write_line(b"usage", &[], output),
            Stop::BadLine { line, column, why } => write_bad_line(*line, *column, *why, output),
            Stop::BadDump { place, why } => write_bad_dump(*place, *why, output),
            Stop::ReadFault | Stop::WriteFault | Stop::NotEmptied => Ok(()),
            Stop::LinkFault => write_line(b"link", &[b"fault"], output),
            Stop::DepotFault => write_line(b"depot", &[b"fault"], output),
            Stop::OutOfMemory => write_line(b"out", &[b"of", b"memory"], output),
            Stop::TooLong => write_line(b"input", &[b"too", b"long"], output),
            Stop::Missing { name } => write_line(b"missing", &[name.as_bytes()], output),
            Stop::Illegal { line, why } => write_illegal(*line, *why, output),
        }
    }
}

/// Writes the last line of a run that stops at a bad line.
fn write_bad_line<K: Sink>(
    line: u64,
    column: usize,
    why: LineWhy,
    output: &mut K,
) -> Result<(), WriteFault>
    ensures whole { OnOk result (Puts (K.held output.old) (K.held output.new)
        (writing.last_line (Stop.BadLine line column why))) }
    ensures part { OnErr result (PutsPrefix (K.held output.old) (K.held output.new)
        (writing.last_line (Stop.BadLine line column why))) }
    ensures faults_unchanged { OnOk result (K.faults output.new ≡ K.faults output.old) }
    ensures faults_counted { OnErr result (FaultsCounted (K.faults output.old)
        (K.faults output.new)) }
    ensures faults_monotone { K.faults output.old ≤ K.faults output.new }
{
    let mut line_digits = Buffer::new();
    let line = line_digits.format(line).as_bytes();
    let mut column_digits = Buffer::new();
    let column = column_digits.format(column as u64).as_bytes();
    let words = [b"line", line, b"column", column, line_why_word(why)];
    write_line(b"bad", &words, output)
}

/// Writes the last line of a run that stops at a bad dump.
fn write_bad_dump<K: Sink>(place: usize, why: DumpWhy, output: &mut K) -> Result<(), WriteFault>
    ensures whole { OnOk result (Puts (K.held output.old) (K.held output.new)
        (writing.last_line (Stop.BadDump place why))) }
    ensures part { OnErr result (PutsPrefix (K.held output.old) (K.held output.new)
        (writing.last_line (Stop.BadDump place why))) }
    ensures faults_unchanged { OnOk result (K.faults output.new ≡ K.faults output.old) }
    ensures faults_counted { OnErr result (FaultsCounted (K.faults output.old)
        (K.faults output.new)) }
    ensures faults_monotone { K.faults output.old ≤ K.faults output.new }
{
    let mut place_digits = Buffer::new();
    let place = place_digits.format(place as u64).as_bytes();
    write_line(b"bad", &[b"dump", place, dump_why_word(why)], output)
}

/// Writes the last line of an audit that finds no run of the machine.
fn write_illegal<K: Sink>(line: u64, why: AuditWhy, output: &mut K) -> Result<(), WriteFault>
    ensures whole { OnOk result (Puts (K.held output.old) (K.held output.new)
        (writing.last_line (Stop.Illegal line why))) }
    ensures part { OnErr result (PutsPrefix (K.held output.old) (K.held output.new)
        (writing.last_line (Stop.Illegal line why))) }
    ensures faults_unchanged { OnOk result (K.faults output.new ≡ K.faults output.old) }
    ensures faults_counted { OnErr result (FaultsCounted (K.faults output.old)
        (K.faults output.new)) }
    ensures faults_monotone { K.faults output.old ≤ K.faults output.new }
{
    let mut line_digits = Buffer::new();
    let line = line_digits.format(line).as_bytes();
    write_line(b"illegal", &[line, audit_why_word(why)], output)
}

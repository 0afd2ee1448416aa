//! The commands.

ghost use Rattle.std.specs.Prelude.{◌≡◌, ◌≤◌, ◌<◌, ◌+◌, ◌⊎◌, ℕ, None, Some, Err, IsSome, OnOk, OnErr, IfOk, IfErr};
ghost use Rattle.host_ports.specs.Depots.{Has};
ghost use Rattle.host_ports.specs.Streams.{FaultsCounted, Puts, TakesCount};
ghost use Rattle.dump_writer.specs.Text.{text_of};
ghost use Rattle.law_headline.specs.Follows.{IsFollowed};
ghost use Rattle.law_headline.specs.Script.{answers_text, bad_line};
ghost use Rattle.program_rules.specs.Headline.{IsAnswered, IsEvacuated, IsLegalTrace, IsRecorded, IsShown, IsSummedUp};
ghost use Rattle.program_rules.specs.Runs.{Run, input_limit};
ghost use Rattle.program_rules.specs.Texts.{verdict_line};
ghost use Rattle.script_runner.specs.Playing.{PutsPrefix};
ghost use Rattle.run_traces.specs.declared.trace_audit.verdicts.Verdict.TheVariants.{Legal};
ghost use Rattle.commands.specs.Stopping.{AnswersStop, AuditStops, BulkStops, Counted, EvacuateStops, LookStops, NodeEnds, PlayStops, RecordStops, ShowStops, counts_of, over, over_depot, over_output};

use crate::stop::Stop;
use crate::telling::tale_of;
use crate::text_sink::TextSink;
use crate::writing::{write_line, write_text};
use dump_reader::decode_dump;
use dump_writer::dump_text;
use host_ports::{Depot, DepotFault, Link, Sink, Source, Ticks, WriteFault, read_all};
use itoa::Buffer;
use law_moves::evacuation::evacuations_are_followed;
use node_engine::{NodePorts, run_node};
use rdma_types::{Address, Name};
use run_traces::trace_audit::{Verdict, audit, audits_are_right};
use script_runner::{PlayFault, play, play_world};
use settle_core::Rounds;
use std::alloc::Global;
use trace_record::recorder::record_trace;
use workload_gen::{Mix, plan_of, summary_of};

/// Bytes of an input at most (this project's choice).
const LIMIT: usize = 1_048_576;

/// Reads the input to its end, and answers its lines.
pub(crate) fn play_input<S: Source, K: Sink>(
    alloc: Global,
    input: &mut S,
    output: &mut K,
) -> Result<(), Stop>
    ensures done { (r : Run)
        → OnOk result (IsAnswered (over r (S.left input.old) (S.left input.new) (K.held output.old)
        (K.held output.new))) }
    ensures stops { (r : Run)
        → IfErr result (PlayStops (over r (S.left input.old) (S.left input.new) (K.held output.old)
        (K.held output.new))) }
    ensures counts { (link depot : ℕ)
        → Counted result (S.faults input.old) (S.faults input.new)
        (counts_of link depot (K.faults output.old)) (counts_of link depot (K.faults output.new)) }
    ensures never_fails { S.never_fails input.old → result ≡ Err Stop.ReadFault → ⊥ }
{
    let text = read_all(alloc, input, LIMIT)?;
    play(alloc, text.as_slice(), &Rounds, output)?;
    Ok(())
}

/// Reads the input to its end, answers its lines, empties a device of the world that they leave, and tells how it ended.
pub(crate) fn evacuate_input<S: Source, K: Sink>(
    alloc: Global,
    from: u8,
    targets: &[u8],
    input: &mut S,
    output: &mut K,
) -> Result<(), Stop>
    ensures done { (r : Run)
        → OnOk result (IsEvacuated (over r (S.left input.old) (S.left input.new) (K.held output.old)
        (K.held output.new)) from targets.now None) }
    ensures stops { (r : Run)
        → IfErr result (EvacuateStops from targets.now
        (over r (S.left input.old) (S.left input.new) (K.held output.old) (K.held output.new))) }
    ensures counts { (link depot : ℕ)
        → Counted result (S.faults input.old) (S.faults input.new)
        (counts_of link depot (K.faults output.old)) (counts_of link depot (K.faults output.new)) }
    ensures never_fails { S.never_fails input.old → result ≡ Err Stop.ReadFault → ⊥ }
{
    evacuations_are_followed();
    let text = read_all(alloc, input, LIMIT)?;
    let mut world = play_world(alloc, text.as_slice(), &Rounds, output)?;
    let tale = tale_of(alloc, &mut world, from, targets)?;
    write_text(tale.text.as_slice(), output)?;
    if !tale.is_empty {
        return Err(Stop::NotEmptied);
    }
    Ok(())
}

/// The answers to a script, as they are written.
fn answers_to(alloc: Global, script: &[u8]) -> Result<TextSink, Stop>
    ensures good { OnOk result (bad_line script.now ≡ None) }
    ensures whole { IfOk result (λ answers. answers.text.items ≡ answers_text script.now) }
    ensures followed { IsFollowed script.now }
    ensures stops { IfErr result (AnswersStop script.now) }
{
    let mut answers = TextSink::new(alloc);
    match play(alloc, script, &Rounds, &mut answers) {
        Ok(()) => Ok(answers),
        Err(PlayFault::WriteFault) => Err(Stop::OutOfMemory),
        Err(fault) => Err(fault.into()),
    }
}

/// Plays the generated script of a seed, and writes the line that sums it up.
pub(crate) fn sum_up<K: Sink>(
    alloc: Global,
    seed: u64,
    mix: &Mix,
    output: &mut K,
) -> Result<(), Stop>
    requires connections { (0 < mix.now.connections) × (mix.now.connections ≤ 8) }
    requires messages { (0 < mix.now.messages) × (mix.now.messages ≤ 2000) }
    requires moves { mix.now.moves ≤ 16 }
    ensures done { (r : Run)
        → OnOk result (IsSummedUp (over_output r (K.held output.old) (K.held output.new)) seed
        mix.now) }
    ensures stops { (r : Run)
        → IfErr result (BulkStops seed mix.now
        (over_output r (K.held output.old) (K.held output.new))) }
    ensures counts { (input link depot : ℕ)
        → Counted result input input (counts_of link depot (K.faults output.old))
        (counts_of link depot (K.faults output.new)) }
{
    let script = plan_of(alloc, seed, mix)?;
    let answers = answers_to(alloc, script.as_slice())?;
    let line = summary_of(alloc, script.as_slice(), answers.as_bytes())?;
    write_text(line.as_slice(), output)?;
    Ok(())
}

/// The bytes that the depot holds under a name.
fn look_up<D: Depot>(alloc: Global, name: Name, depot: &mut D) -> Result<Vec<u8>, Stop>
    ensures found { IfOk result (λ bytes. Has (D.held depot.old) name (Some bytes.items)) }
    ensures stops { IfErr result (LookStops (D.held depot.old) name) }
    ensures same { D.held depot.new ≡ D.held depot.old }
    ensures counts { (input link output : ℕ)
        → Counted result input input (counts_of link (D.faults depot.old) output)
        (counts_of link (D.faults depot.new) output) }
    ensures never_fails { D.never_fails depot.old → result ≡ Err Stop.DepotFault → ⊥ }
{
    match depot.look(alloc, name) {
        Ok(bytes) => Ok(bytes),
        Err(DepotFault::Missing) => Err(Stop::Missing { name }),
        Err(DepotFault::Failed) => Err(Stop::DepotFault),
        Err(DepotFault::OutOfMemory) => Err(Stop::OutOfMemory),
    }
}

/// Writes what a dump in the depot says.
pub(crate) fn show_dump<K: Sink, D: Depot>(
    alloc: Global,
    name: Name,
    output: &mut K,
    depot: &mut D,
) -> Result<(), Stop>
    ensures done { (r : Run)
        → OnOk result (IsShown text_of (over_depot r (K.held output.old) (K.held output.new)
        (D.held depot.old) (D.held depot.new)) name) }
    ensures stops { (r : Run)
        → IfErr result (ShowStops text_of name
        (over_depot r (K.held output.old) (K.held output.new) (D.held depot.old)
        (D.held depot.new))) }
    ensures same { D.held depot.new ≡ D.held depot.old }
    ensures counts { (input link : ℕ)
        → Counted result input input (counts_of link (D.faults depot.old) (K.faults output.old))
        (counts_of link (D.faults depot.new) (K.faults output.new)) }
    ensures never_fails { D.never_fails depot.old → result ≡ Err Stop.DepotFault → ⊥ }
{
    let bytes = look_up(alloc, name, depot)?;
    let image = decode_dump(alloc, bytes.as_slice())?;
    let text = dump_text(alloc, &image)?;
    write_text(text.as_slice(), output)?;
    Ok(())
}

/// Writes the verdict on a run of the machine. It takes no memory.
fn write_legal<K: Sink>(verbs: u64, inner: u64, output: &mut K) -> Result<(), WriteFault>
    ensures whole { OnOk result (Puts (K.held output.old) (K.held output.new)
        (verdict_line (Legal verbs inner))) }
    ensures part { OnErr result (PutsPrefix (K.held output.old) (K.held output.new)
        (verdict_line (Legal verbs inner))) }
    ensures faults_unchanged { OnOk result (K.faults output.new ≡ K.faults output.old) }
    ensures faults_counted { OnErr result (FaultsCounted (K.faults output.old)
        (K.faults output.new)) }
    ensures faults_monotone { K.faults output.old ≤ K.faults output.new }
{
    let mut verb_digits = Buffer::new();
    let verbs = verb_digits.format(verbs).as_bytes();
    let mut inner_digits = Buffer::new();
    let inner = inner_digits.format(inner).as_bytes();
    write_line(b"legal", &[verbs, inner], output)
}

/// Reads the input to its end, and audits it as a trace.
pub(crate) fn audit_input<S: Source, K: Sink>(
    alloc: Global,
    input: &mut S,
    output: &mut K,
) -> Result<(), Stop>
    ensures done { (r : Run)
        → OnOk result (IsLegalTrace (over r (S.left input.old) (S.left input.new)
        (K.held output.old) (K.held output.new))) }
    ensures stops { (r : Run)
        → IfErr result (AuditStops (over r (S.left input.old) (S.left input.new) (K.held output.old)
        (K.held output.new))) }
    ensures counts { (link depot : ℕ)
        → Counted result (S.faults input.old) (S.faults input.new)
        (counts_of link depot (K.faults output.old)) (counts_of link depot (K.faults output.new)) }
    ensures never_fails { S.never_fails input.old → result ≡ Err Stop.ReadFault → ⊥ }
{
    audits_are_right();
    let trace = read_all(alloc, input, LIMIT)?;
    match audit(alloc, trace.as_slice())? {
        Verdict::Legal { verbs, inner } => write_legal(verbs, inner, output)?,
        Verdict::Illegal { line, why } => return Err(Stop::Illegal { line, why }),
    }
    Ok(())
}

/// Reads the input to its end, and writes the trace of its lines, in one write.
pub(crate) fn record_input<S: Source, K: Sink>(
    alloc: Global,
    input: &mut S,
    output: &mut K,
) -> Result<(), Stop>
    ensures done { (r : Run)
        → OnOk result (IsRecorded (over r (S.left input.old) (S.left input.new) (K.held output.old)
        (K.held output.new))) }
    ensures stops { (r : Run)
        → IfErr result (RecordStops (over r (S.left input.old) (S.left input.new)
        (K.held output.old) (K.held output.new))) }
    ensures counts { (link depot : ℕ)
        → Counted result (S.faults input.old) (S.faults input.new)
        (counts_of link depot (K.faults output.old)) (counts_of link depot (K.faults output.new)) }
    ensures never_fails { S.never_fails input.old → result ≡ Err Stop.ReadFault → ⊥ }
{
    audits_are_right();
    let script = read_all(alloc, input, LIMIT)?;
    let trace = record_trace(alloc, script.as_slice())?;
    write_text(trace.as_slice(), output)?;
    Ok(())
}

/// Reads the input to its end, and does its lines on one device over the link.
pub(crate) fn run_device<S: Source, L: Link, K: Sink, D: Depot, C: Ticks>(
    alloc: Global,
    id: u8,
    own: Address,
    input: &mut S,
    ports: &mut NodePorts<L, K, D, C>,
) -> Result<(), Stop>
    requires { 1 ≤ id }
    ensures ends { (r : Run) → NodeEnds id own (record r {
      left = S.left input.old;
      left_after = S.left input.new;
      before = record { waiting = L.waiting ports.old.link; sent = L.sent ports.old.link; to_come = C.to_come ports.old.ticks; held = D.held ports.old.depot; written = K.held ports.old.output; faults = record { link = L.faults ports.old.link; depot = D.faults ports.old.depot; output = K.faults ports.old.output } };
      after = record { waiting = L.waiting ports.new.link; sent = L.sent ports.new.link; to_come = C.to_come ports.new.ticks; held = D.held ports.new.depot; written = K.held ports.new.output; faults = record { link = L.faults ports.new.link; depot = D.faults ports.new.depot; output = K.faults ports.new.output } };
    }) result }
    ensures counts { Counted result (S.faults input.old) (S.faults input.new)
        (counts_of (L.faults ports.old.link) (D.faults ports.old.depot) (K.faults ports.old.output))
        (counts_of (L.faults ports.new.link) (D.faults ports.new.depot) (K.faults ports.new.output)) }
    ensures never_fails { S.never_fails input.old → result ≡ Err Stop.ReadFault → ⊥ }
{
    let script = read_all(alloc, input, LIMIT)?;
    run_node(alloc, id, own, script.as_slice(), ports)?;
    Ok(())
}

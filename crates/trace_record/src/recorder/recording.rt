//! A script is recorded.
#![tactic(auto)]

ghost use Rattle.std.specs.Prelude.{◌≡◌, ◌+◌, ◌∷◌, ℕ, List, true, OnOk, IfOk, IfErr};
ghost use Rattle.law_headline.specs.Does.{IsWithinOf, MayBeAskedOf, happening_of};
ghost use Rattle.law_kept_datagrams.specs.Alike.{with_kept_datagrams};
ghost use Rattle.law_simulation.specs.Stands.{Stands};
ghost use Rattle.trace_rules.specs.Recording.{IsFaultOf, IsTraceOf};
ghost use Rattle.protocol.specs.State as state;
ghost use Rattle.trace_record.specs.Arrivals.{IsBeside};
ghost use Rattle.trace_record.specs.Lines.{IsNoSettling};
ghost use Rattle.trace_record.specs.Recorded.{IsLegalText, IsLineRecorded, IsRecordedTo};

use crate::recorder::events::happen;
use crate::recorder::lines::read_line;
use law_headline::lines_are_in_range;
use law_simulation::runs::law_holds;
use law_traces::{records_are_legal, records_are_said};
use packetless_machine::PacketlessMachine;
use run_traces::trace_audit::AuditFault;
use script_lang::{Line, LineFault, Lines};
use script_runner::{Action, action_of};
use std::alloc::{AllocError, Global};
use trace_rules::scripts_are_recorded_line_by_line;
use world_core::World;

/// Does what a line says, and records it. Errors: `AllocError` when out of memory.
fn record_said(
    alloc: Global,
    world: &mut World,
    machine: &mut PacketlessMachine,
    written: &[u8],
    line: Line,
    trace: &mut Vec<u8>,
) -> Result<(), AllocError>
    requires beside { IsBeside world.old machine.old }
    requires asked { MayBeAskedOf (happening_of line) }
    requires quiet { IsNoSettling (happening_of line) }
    ensures { (w : state.World) → world.old ≡ with_kept_datagrams w → Stands w machine.old → IsWithinOf (happening_of line)
        → OnOk result (IsLineRecorded w machine.old written.now (happening_of line) world.new machine.new trace.old.items trace.new.items) }
{
    match action_of(line) {
        Some(Action::Event(event)) => happen(alloc, world, machine, written, event, trace),
        Some(Action::Dump(_)) => Ok(()),
        Some(Action::Settle) => Ok(()),
        None => Ok(()),
    }
}

/// Reads and records the line of this number.
fn record_line(
    alloc: Global,
    world: &mut World,
    machine: &mut PacketlessMachine,
    number: u64,
    line: &[u8],
    trace: &mut Vec<u8>,
) -> Result<(), AuditFault>
    requires { IsBeside world.old machine.old }
    ensures recorded { (script : List ℕ) (n : ℕ) (rest : List (List ℕ)) → n + 1 ≡ number
        → IsRecordedTo script trace.old.items world.old machine.old n (line.now ∷ rest)
        → OnOk result (IsRecordedTo script trace.new.items world.new machine.new number rest) }
    ensures bad { (script : List ℕ) (n : ℕ) (rest : List (List ℕ)) → n + 1 ≡ number
        → IsRecordedTo script trace.old.items world.old machine.old n (line.now ∷ rest)
        → IfErr result (IsFaultOf script) }
{
    lines_are_in_range();
    scripts_are_recorded_line_by_line();
    match read_line(alloc, line) {
        Ok(says) => match record_said(alloc, world, machine, line, says, trace) {
            Ok(()) => Ok(()),
            Err(_) => Err(AuditFault::OutOfMemory),
        },
        Err(LineFault::Bad { column, why }) => Err(AuditFault::BadLine {
            line: number,
            column,
            why,
        }),
        Err(LineFault::OutOfMemory) => Err(AuditFault::OutOfMemory),
    }
}

/// Records a script without lines that settle, in an empty world: its verbs that count as made with their answers, the inner
/// steps of the packetless machine where they happen, and `end`. An audit finds each trace legal that is returned.
///
/// # Errors
///
/// `BadLine` with the first bad line, where a line that settles is one; or `OutOfMemory`, also where the number of an
/// offer passes 32 bits, which takes over a million repeats of a Read.
pub fn record_trace(alloc: Global, script: &[u8]) -> Result<Vec<u8>, AuditFault>
    ensures trace { IfOk result (λ trace. IsTraceOf script.now trace.items) }
    ensures legal { IfOk result (λ trace. IsLegalText trace.items) }
    ensures bad { IfErr result (IsFaultOf script.now) }
{
    law_holds();
    scripts_are_recorded_line_by_line();
    records_are_said();
    records_are_legal();
    let mut world = World::make(alloc)?;
    let mut machine = PacketlessMachine::make(alloc);
    let mut trace = Vec::new(alloc);
    let mut lines = Lines::new(script);
    let mut number = 0u64;
    while let Some(line) = lines.next_line() {
        number += 1;
        record_line(alloc, &mut world, &mut machine, number, line, &mut trace)?;
    }
    trace.extend_from_slice(b"end\n")?;
    Ok(trace)
}

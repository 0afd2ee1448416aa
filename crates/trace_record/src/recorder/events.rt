//! An event of the world: its answer, and what is recorded of it.
#![tactic(auto, using(std::proofs::lemmas::List::append_assoc))]

ghost use Rattle.std.specs.Prelude.{◌≡◌, ◌++◌, OnOk, IfOk};
ghost use Rattle.std.specs.List.{All};
ghost use Rattle.packetless_machine.specs.Legal.{IsRun, after, effect};
ghost use Rattle.law_kept_datagrams.specs.Alike.{with_kept_datagrams};
ghost use Rattle.law_traces.specs.Said.{IsShort};
ghost use Rattle.law_simulation.specs.Carries as carries;
ghost use Rattle.law_simulation.specs.Kept.{kept_of, kept_verb};
ghost use Rattle.law_simulation.specs.Law.{IsInRange};
ghost use Rattle.law_simulation.specs.Named.{given_in, spoken_steps, turn_steps};
ghost use Rattle.law_simulation.specs.Stands.{Stands};
ghost use Rattle.trace_rules.specs.Recording.{spoken_text};
ghost use Rattle.protocol.specs.Events.{IsLawfulWorldEvent};
ghost use Rattle.protocol.specs.State as state;
ghost use Rattle.run_traces.specs.Written.{answer_lines, answer_text, steps_text, verb_text};
ghost use Rattle.trace_record.specs.Arrivals.{HasItsNumbers, IsBeside};
ghost use Rattle.trace_record.specs.Events.{IsEventRecorded, IsForeseen, foreseen_steps, made_by, taken_steps};

use crate::recorder::arrivals::{Arrival, arrival_of, arrive};
use crate::recorder::verbs::{given_in, is_unmade, verb_of};
use law_kept_datagrams::alike_worlds_are_answered_alike;
use packetless_machine::{MachineStep, PacketlessMachine};
use protocol::{Event, WorldEvent};
use rdma_types::{Answer, Verb};
use run_traces::trace_writer::{put_answer, put_step, put_verb};
use std::alloc::{AllocError, Global};
use world_core::World;

/// What an event may do, before it happens. Errors: `AllocError` where an offset has over 32 bits.
fn foreseen(
    world: &World,
    machine: &PacketlessMachine,
    event: &WorldEvent,
) -> Result<Arrival, AllocError>
    requires { IsBeside world.now machine.now }
    ensures named { IfOk result (IsForeseen world.now machine.now event.now) }
    ensures numbers { IfOk result (HasItsNumbers machine.now) }
{
    match event {
        WorldEvent::Deliver { k } => arrival_of(world, machine, *k),
        _ => Ok(Arrival::Nothing),
    }
}

/// Whether the device of a new context is there.
fn is_made(world: &World, event: &WorldEvent) -> bool
    ensures { result ≡ made_by world.now event.now }
{
    match event {
        WorldEvent::MakeContext { device, .. } => world.has_device(*device),
        _ => false,
    }
}

/// Whether an expiry was counted.
#[tactic(auto, unfolding(law_simulation::specs::Carries::is_counted))]
fn is_counted(answer: &Answer) -> bool
    ensures { result ≡ carries.is_counted answer.now }
{
    match answer {
        Answer::Expired(_) | Answer::Spent => true,
        _ => false,
    }
}

/// Adds the steps of a delivery that was answered so. Errors: `AllocError` when out of memory.
fn take(
    machine: &PacketlessMachine,
    arrival: Arrival,
    answer: &Answer,
    steps: &mut Vec<MachineStep>,
) -> Result<(), AllocError>
    requires { HasItsNumbers machine.now arrival }
    ensures { IsRun machine.now (taken_steps machine.now arrival answer.now)
        → OnOk result (steps.new.items ≡ steps.old.items
        ++ taken_steps machine.now arrival answer.now) }
{
    match answer {
        Answer::Took { took, .. } => arrive(machine, arrival, *took, steps),
        _ => Ok(()),
    }
}

/// Adds the steps of an event of a device that was answered so. Errors: `AllocError` when out of memory.
#[tactic(auto, unfolding(law_simulation::specs::Carries::expire_steps))]
fn turn(event: &Event, answer: &Answer, steps: &mut Vec<MachineStep>) -> Result<(), AllocError>
    ensures { OnOk result (steps.new.items ≡ steps.old.items ++ turn_steps event.now answer.now) }
{
    let Event::Expire { end } = event else {
        return Ok(());
    };
    let counted = is_counted(answer);
    if !counted {
        return Ok(());
    }
    steps.push(MachineStep::Expire { q: *end })?;
    Ok(())
}

/// Adds the inner steps at an event that was answered so. Errors: `AllocError` when out of memory.
fn add_inner(
    machine: &PacketlessMachine,
    event: &WorldEvent,
    arrival: Arrival,
    answer: &Answer,
    steps: &mut Vec<MachineStep>,
) -> Result<(), AllocError>
    requires { HasItsNumbers machine.now arrival }
    ensures { IsRun machine.now (foreseen_steps machine.now event.now arrival answer.now)
        → OnOk result (steps.new.items ≡ steps.old.items
        ++ foreseen_steps machine.now event.now arrival answer.now) }
{
    match event {
        WorldEvent::Deliver { .. } => take(machine, arrival, answer, steps),
        WorldEvent::At { event } => turn(event, answer, steps),
        _ => Ok(()),
    }
}

/// The machine makes a step. Errors: `AllocError` when out of memory.
fn make(
    alloc: Global,
    machine: &mut PacketlessMachine,
    step: &MachineStep,
) -> Result<(), AllocError>
    ensures { OnOk result (machine.new ≡ effect machine.old step.now) }
{
    match machine.step(alloc, step) {
        Ok(_) => Ok(()),
        Err(_) => Err(AllocError),
    }
}

/// Records a verb that was answered so; `line` is the line that asked for it. Errors: `AllocError` when out of memory.
fn speak(
    alloc: Global,
    machine: &mut PacketlessMachine,
    line: &[u8],
    verb: Verb,
    answer: &Answer,
    out: &mut Vec<u8>,
) -> Result<(), AllocError>
    ensures made { OnOk result (machine.new ≡ effect machine.old
        (MachineStep.Verb verb (given_in answer.now))) }
    ensures text { OnOk result (out.new.items ≡ out.old.items
        ++ (verb_text line.now verb ++ answer_text (answer_lines answer.now))) }
{
    put_verb(out, line, &verb)?;
    put_answer(alloc, out, answer)?;
    let given = given_in(answer);
    make(alloc, machine, &MachineStep::Verb { verb, given })
}

/// Records the verb of an event that was answered so, where it counts as made. Errors: `AllocError` when out of memory.
fn speak_kept(
    alloc: Global,
    machine: &mut PacketlessMachine,
    line: &[u8],
    verb: Option<Verb>,
    answer: &Answer,
    out: &mut Vec<u8>,
) -> Result<(), AllocError>
    ensures made { OnOk result (machine.new ≡ after machine.old
        (spoken_steps (kept_verb verb answer.now))) }
    ensures text { OnOk result (out.new.items ≡ out.old.items
        ++ spoken_text line.now (kept_verb verb answer.now)) }
{
    let Some(verb) = verb else {
        return Ok(());
    };
    let unmade = is_unmade(answer);
    if unmade {
        return Ok(());
    }
    speak(alloc, machine, line, verb, answer, out)
}

/// The numbers of a step have 32 bits, as its fields have.
fn numbers_are_short(step: &MachineStep)
    ensures { IsShort step.now }
{
    match step {
        MachineStep::Run { n, .. } => {
            let _n = *n;
        }
        MachineStep::Offer { i, off, n, .. } => {
            let _i = *i;
            let _off = *off;
            let _n = *n;
        }
        MachineStep::Land { o, .. } => {
            let _o = *o;
        }
        MachineStep::Known { m, .. } => {
            let _m = *m;
        }
        _ => {}
    }
}

/// Records inner steps. Errors: `AllocError` when out of memory.
fn make_all(
    alloc: Global,
    machine: &mut PacketlessMachine,
    steps: &[MachineStep],
    out: &mut Vec<u8>,
) -> Result<(), AllocError>
    ensures made { OnOk result (machine.new ≡ after machine.old steps.now) }
    ensures text { OnOk result (out.new.items ≡ out.old.items ++ steps_text steps.now) }
    ensures short { OnOk result (All IsShort steps.now) }
{
    for step in steps {
        numbers_are_short(step);
        put_step(out, step)?;
        make(alloc, machine, step)?;
    }
    Ok(())
}

/// An event happens, and is recorded: its verb with the answer, where it counts as made, and the inner steps that it
/// causes. Errors: `AllocError` when out of memory.
pub(crate) fn happen(
    alloc: Global,
    world: &mut World,
    machine: &mut PacketlessMachine,
    line: &[u8],
    event: WorldEvent,
    out: &mut Vec<u8>,
) -> Result<(), AllocError>
    requires beside { IsBeside world.old machine.old }
    requires lawful { IsLawfulWorldEvent event }
    ensures { (w : state.World) → world.old ≡ with_kept_datagrams w → Stands w machine.old
        → IsInRange event
        → OnOk result (IsEventRecorded w machine.old line.now event world.new machine.new
        out.old.items out.new.items) }
{
    alike_worlds_are_answered_alike();
    let arrival = foreseen(world, machine, &event)?;
    let made = is_made(world, &event);
    let answer = world.step(alloc, &event)?;
    let mut steps = Vec::new(alloc);
    add_inner(machine, &event, arrival, &answer, &mut steps)?;
    let verb = verb_of(event, made);
    speak_kept(alloc, machine, line, verb, &answer, out)?;
    make_all(alloc, machine, steps.as_slice(), out)
}

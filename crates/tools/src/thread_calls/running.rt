//! Runs by threads, and their lines.

ghost use Rattle.std.specs.Prelude.{IfOk};
ghost use Rattle.tools.specs.Endings.{IsWritten};
ghost use Rattle.completion_fanout.specs.HandedOut.{IsFanPlan};
ghost use Rattle.thread_plan.specs.Planned.{IsPlan};
ghost use Rattle.tools.specs.ThreadEndings.{fault_status, fault_text, status_of, text_of as told_text};
ghost use Rattle.tools.specs.Fanout.{EndsFanout, IsFanoutText};
ghost use Rattle.tools.specs.Threads.{EndsThreads, IsThreadsText};

use crate::endings::end_with;
use crate::thread_calls::fan_line::fan_line_of;
use crate::thread_calls::line::line_of;
use completion_fanout::{FanPlan, run_fan_out};
use host_ports::Sink;
use rdma_types::Items;
use std::alloc::Global;
use std::sync::Wait;
use std::thread::Threads;
use thread_workers::{Gate, PlanFault, ThreadPlan, run_threads};

/// Makes the run of a plan, and gives its line.
fn text_of<R: Threads + Wait + Sync, G: Gate + Sync>(
    rt: &R,
    alloc: Global,
    plan: &ThreadPlan,
    gate: &G,
) -> Result<Items<u8>, PlanFault>
    requires { IsPlan plan.now }
    ensures { IfOk result (λ text. IsThreadsText plan.now text) }
{
    let run = run_threads(rt, alloc, plan, gate)?;
    let text = line_of(alloc, plan, &run)?;
    Ok(Items::new(text))
}

/// Hands completions out as planned, and gives the line that tells of it.
fn fan_text_of<R: Threads + Wait + Sync, G: Gate + Sync>(
    rt: &R,
    alloc: Global,
    plan: &FanPlan,
    gate: &G,
) -> Result<Items<u8>, PlanFault>
    requires { IsFanPlan plan.now }
    ensures { IfOk result (λ text. IsFanoutText plan.now text) }
{
    let fanned = run_fan_out(rt, alloc, plan, gate)?;
    let text = fan_line_of(alloc, plan, &fanned)?;
    Ok(Items::new(text))
}

/// Writes why there is no line, and gives the status.
fn tell_fault<K: Sink>(fault: PlanFault, output: &mut K) -> u8
    ensures { IsWritten (K.held output.old) (K.held output.new) (K.faults output.old)
        (K.faults output.new) (fault_text fault) (fault_status fault) result }
{
    match fault {
        PlanFault::OutOfMemory => end_with(b"out of memory\n", 8, output),
        PlanFault::NotAsPlanned => end_with(b"not as planned\n", 10, output),
    }
}

/// Writes a line, or why there is none, and gives the status.
fn tell<K: Sink>(told: Result<Items<u8>, PlanFault>, output: &mut K) -> u8
    ensures { IsWritten (K.held output.old) (K.held output.new) (K.faults output.old)
        (K.faults output.new) (told_text told) (status_of told) result }
{
    match told {
        Ok(text) => end_with(text.as_slice(), 0, output),
        Err(fault) => tell_fault(fault, output),
    }
}

/// Makes a run of the plan by threads, writes its line, and gives the status: 0, or 5 where the line could not be written.
/// It may wait.
///
/// Where memory runs out the status is 8 and the line `out of memory`. Where neither the threads' run nor the caller's own
/// is as planned, the status is 10 and the line `not as planned`.
pub fn run_plan<K: Sink, G: Gate + Sync, R: Threads + Wait + Sync>(
    rt: &R,
    alloc: Global,
    plan: &ThreadPlan,
    output: &mut K,
    gate: &G,
) -> u8
    requires { IsPlan plan.now }
    ensures { EndsThreads plan.now (K.held output.old) (K.held output.new) (K.faults output.old)
        (K.faults output.new) result }
{
    let told = text_of(rt, alloc, plan, gate);
    tell(told, output)
}

/// Hands the completions of a shared device to consumers in threads, as planned; writes the line that tells of it, and gives
/// the status. All else is as for `run_plan`.
pub fn run_fan_plan<K: Sink, G: Gate + Sync, R: Threads + Wait + Sync>(
    rt: &R,
    alloc: Global,
    plan: &FanPlan,
    output: &mut K,
    gate: &G,
) -> u8
    requires { IsFanPlan plan.now }
    ensures { EndsFanout plan.now (K.held output.old) (K.held output.new) (K.faults output.old)
        (K.faults output.new) result }
{
    let told = fan_text_of(rt, alloc, plan, gate);
    tell(told, output)
}

//! Tables of the additions that were completed.

ghost use Rattle.std.specs.Prelude.{◌≡◌, ◌==◌, ◌∷◌, [], ℕ, Some, cond, count_by, replicate, slice_get, IfOk, IsTrue};
ghost use Rattle.run_check.specs.Gathered.{polled};
ghost use Rattle.thread_plan.specs.Planned.{completes};
ghost use Rattle.thread_plan.specs.Tables.{AreOnes, AreRaised, IsRaised, TellsTable};

use crate::plan::ThreadPlan;
use rdma_types::{Answer, Completion, WcStatus};
use std::alloc::{AllocError, Global};
use std::marker::Model;

/// The number of the end of worker 1 in the context a; those of the other workers follow it.
const FIRST_END: u32 = 65_537;

/// A place for each addition of a worker, with 1 once it is completed, and 0 before. Contracts see these numbers.
#[derive(Drop)]
pub struct Table {
    places: Vec<u8>,
}

impl Model for Table {
    ghost use Rattle.std.specs.Prelude.{List, ℕ};

    ghost Value = { List ℕ };

    ghost view = { λ t. t.places.items };
}

impl Table {
    /// A table for that many additions, none of which is completed. Errors: out of memory.
    fn make(alloc: Global, adds: u32) -> Result<Table, AllocError>
        ensures { IfOk result (λ table. table ≡ replicate adds 0) }
    {
        let places = Vec::from_elem(alloc, 0, adds as usize)?;
        Ok(Table { places })
    }

    /// Notes that an addition is completed, and says whether its place was free. A number that no addition has is passed
    /// over.
    fn note(&mut self, id: u64) -> bool
        ensures { IsTrue result → IsRaised (λ j. cond (id == j) 1 0) self.old self.new }
    {
        if id == 0 || id > self.places.len() as u64 {
            return true;
        }
        let k = id as usize - 1;
        let is_free = self.places[k] == 0;
        self.places[k] = 1;
        is_free
    }

    /// Whether every number is 1.
    fn is_full(&self) -> bool
        ensures { IsTrue result → (k n : ℕ) → slice_get self.now k ≡ Some n → n ≡ 1 }
    {
        for k in 0..self.places.len() {
            if self.places[k] != 1 {
                return false;
            }
        }
        true
    }
}

/// A table for each worker, from worker 1 on. Errors: out of memory.
pub fn make_tables(alloc: Global, plan: &ThreadPlan) -> Result<Vec<Table>, AllocError>
    ensures { IfOk result (λ tables. tables.items
        ≡ replicate plan.now.workers (replicate plan.now.adds 0)) }
{
    let mut tables = Vec::new(alloc);
    for _ in 0..plan.workers {
        tables.push(Table::make(alloc, plan.adds)?)?;
    }
    Ok(tables)
}

/// The place of the table of the worker at whose end a completion is, among so many tables; None where there is none, or
/// where its status is not 0.
fn table_of(completion: &Completion, count: usize) -> Option<usize>
    ensures { TellsTable completion.now count result }
{
    if completion.qp < FIRST_END || !matches!(completion.status, WcStatus::Success) {
        return None;
    }
    let place = (completion.qp - FIRST_END) as usize;
    if place < count { Some(place) } else { None }
}

/// Notes a completion in the table of its worker, and says whether its place was free; one that has no table is passed
/// over.
fn note(tables: &mut Vec<Table>, completion: &Completion) -> bool
    ensures { IsTrue result
        → AreRaised (λ i j. count_by (completes i j) (completion.now ∷ [])) tables.old.items
        tables.new.items }
{
    match table_of(completion, tables.len()) {
        Some(place) => tables[place].note(completion.id),
        None => true,
    }
}

/// Notes completions, and says whether their places were free.
fn note_all(tables: &mut Vec<Table>, completions: &[Completion]) -> bool
    ensures { IsTrue result
        → AreRaised (λ i j. count_by (completes i j) completions.now) tables.old.items
        tables.new.items }
{
    for k in 0..completions.len() {
        if !note(tables, &completions[k]) {
            return false;
        }
    }
    true
}

/// The same of those that an answer polls.
pub fn note_polled(tables: &mut Vec<Table>, answer: &Answer) -> bool
    ensures { IsTrue result
        → AreRaised (λ i j. count_by (completes i j) (polled answer.now)) tables.old.items
        tables.new.items }
{
    match answer {
        Answer::Polled(completions) => note_all(tables, completions.as_slice()),
        _ => true,
    }
}

/// Whether every number of every table is 1.
pub fn are_full(tables: &[Table]) -> bool
    ensures { IsTrue result → AreOnes tables.now }
{
    for i in 0..tables.len() {
        if !tables[i].is_full() {
            return false;
        }
    }
    true
}

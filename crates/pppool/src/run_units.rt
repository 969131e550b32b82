//! Runs all units of a list.
//!
//! The outputs must be those of one set of file contents, though the workers run at the same time and each observes
//! contents by itself. So each worker has a pass of its own, and at the end all are merged into the caller's: the file
//! table lets no two passes observe different contents, and a unit keeps its value over more files (`growth`). Outputs
//! come back in list order by slots, one for each unit. That each slot is full follows from the desk alone: if all seats
//! come back and one of them found no block left, `Desk::close` says that each block was claimed once.
ghost use Rattle.std.specs.Prelude.{◌≡◌, ℕ, ◌<◌, ◌≤◌, ◌/◌, [], length, All, IfOk, IsSome, Some, None, true, slice_index_or};
ghost use Rattle.ppshelf.specs.Files.{max_rows, Extends, Agree, AllPermitted};
ghost use Rattle.ppunit.specs.Unit.{IsUnitOf};
ghost use Rattle.ppunit.specs.Units.{AreUnits, AreInBudget, AreCapped};
ghost use Rattle.ppshelf.specs.Events.{times};
ghost use Rattle.pppool.specs.Desk.{max_blocks, new_seat, claims_of};
ghost use Rattle.pppool.specs.Retained.{AreRetained, AreRetainedInBudget, AreRetainedCapped};
ghost use Rattle.pppool.specs.code.Workers.{AllFilled, FitSlots, IsDone};

use crate::batch::Batch;
use crate::desk::{Desk, DeskSeat};
use crate::gate::Gate;
use crate::limits::Block;
use crate::retention::Retain;
use crate::slots::{empty_slots, fill_slots, take_all};
use crate::workers::{Job, Worker};
use ppshelf::{Disk, Pass};
use pptext::Memory;
use ppunit::{UnitOut, budget_caps_units, growth, stays_in_budget};
use std::alloc::Global;
use std::thread;
use std::thread::Threads;

/// Preprocesses the units of a batch. The file table and the units' definitions must have been read by the setting's
/// profile.
///
/// Each worker claims blocks of units through its seat at a desk, until none is left. Each has a `Pass` of its own: the
/// file contents that it has observed. It calls `enter` of the gate before each unit. If no thread can be created, the
/// workers run one after the other. At the end all workers' passes are merged into `pass`. The outputs, in list order,
/// are what the specification requires for the file contents in `pass`.
///
/// With a budget, the replacements and opened files of each unit total at most the budget. Its tokens and dependencies
/// are then prefixes of those without a budget, for the file contents in `pass` or in any larger set. The outputs are
/// equal if and only if the budget suffices.
///
/// Fails only if an allocation fails or the disk answers `Memory`; the pass then still has all contents that it had.
pub fn run<'a, R: Threads + Sync, D: Disk + Send + Sync, G: Gate + Sync>(
    threads: &R,
    alloc: Global,
    pass: &mut Pass<'a, D>,
    batch: &Batch<'a, '_, D, G>,
) -> Result<Vec<UnitOut<'a>>, Memory>
    requires shelf { pass.old.shelf ≡ batch.now.shelf.now }
    requires count { length batch.now.units.now ≤ max_rows }
    requires profile { batch.now.shelf.now.profile ≡ batch.now.setting.now.profile }
    requires rows { All (IsUnitOf (length batch.now.shelf.now.names) batch.now.setting.now.profile) batch.now.units.now }
    ensures shelf { pass.new.shelf ≡ batch.now.shelf.now }
    ensures grows { Extends pass.new.files pass.old.files }
    ensures value { IfOk result (λ outs. AreUnits batch.now.shelf.now.names pass.new.files batch.now.setting.now batch.now.units.now outs.items) }
    ensures within { IfOk result (λ outs. AreInBudget batch.now.shelf.now.names pass.new.files batch.now.setting.now batch.now.units.now outs.items) }
    ensures capped { IfOk result (λ outs. AreCapped batch.now.shelf.now.names pass.new.files batch.now.setting.now batch.now.units.now outs.items) }
    ensures contents_permitted { AllPermitted D.may batch.now.shelf.now.names pass.new.files }
    ensures filled { Agree batch.now.shelf.now.filled pass.new.files }
{
    let outs = run_retaining(threads, alloc, pass, batch, Retain::Everything)?;
    // For proofs only: cites a promise of the file table and the theorems about budgets.
    batch.shelf.names_are_distinct();
    stays_in_budget();
    budget_caps_units();
    Ok(outs)
}

/// Preprocesses the units of a list as `run` does, and keeps as much of each output as `retain` says. The rest is freed
/// as soon as the unit is done. The same budget applies as in `run`.
///
/// Fails only if an allocation fails or the disk answers `Memory`; the pass then still has all contents that it had.
pub fn run_retaining<'a, R: Threads + Sync, D: Disk + Send + Sync, G: Gate + Sync>(
    threads: &R,
    alloc: Global,
    pass: &mut Pass<'a, D>,
    batch: &Batch<'a, '_, D, G>,
    retain: Retain,
) -> Result<Vec<UnitOut<'a>>, Memory>
    requires shelf { pass.old.shelf ≡ batch.now.shelf.now }
    requires count { length batch.now.units.now ≤ max_rows }
    requires profile { batch.now.shelf.now.profile ≡ batch.now.setting.now.profile }
    requires rows { All (IsUnitOf (length batch.now.shelf.now.names) batch.now.setting.now.profile) batch.now.units.now }
    ensures shelf { pass.new.shelf ≡ batch.now.shelf.now }
    ensures grows { Extends pass.new.files pass.old.files }
    ensures retained { IfOk result (λ outs. AreRetained retain batch.now.shelf.now.names pass.new.files batch.now.setting.now batch.now.units.now outs.items) }
    ensures within { IfOk result (λ outs. AreRetainedInBudget retain batch.now.shelf.now.names pass.new.files batch.now.setting.now batch.now.units.now outs.items) }
    ensures capped { IfOk result (λ outs. AreRetainedCapped retain batch.now.shelf.now.names pass.new.files batch.now.setting.now batch.now.units.now outs.items) }
    ensures contents_permitted { AllPermitted D.may batch.now.shelf.now.names pass.new.files }
    ensures filled { Agree batch.now.shelf.now.filled pass.new.files }
{
    let Batch {
        shelf,
        disk,
        gate,
        setting,
        units,
        workers,
        block,
    } = *batch;
    // For proofs only: cites a promise of the pass.
    pass.contents_permitted();
    let (desk, seats) = Desk::new(alloc, block_count(units.len(), block), workers.get())?;
    let gathered = run_workers(
        threads,
        &Job {
            alloc,
            shelf,
            disk,
            gate,
            setting,
            units,
            block,
            retain,
            desk: &desk,
        },
        seats,
        pass,
    );
    // For proofs only: cites promises of the pass and the file table.
    pass.contents_permitted();
    shelf.names_are_distinct();
    // For proofs only: cites the theorems about budgets.
    stays_in_budget();
    budget_caps_units();
    let (seats, slots) = gathered?;
    let all_claimed = desk.close(seats);
    prove!(all_claimed);
    take_all(alloc, slots)
}

/// Returns the number of blocks. The last block may be shorter than the others.
fn block_count(units: usize, block: Block) -> u64
    requires { units ≤ max_rows }
    ensures few { result ≤ max_blocks }
    ensures all { (i : ℕ) → i < units → i / block < result }
{
    units.div_ceil(block.get()) as u64
}

/// Runs a worker in each seat, and collects their results.
fn run_workers<'a, R: Threads + Sync, D: Disk + Send + Sync, G: Gate + Sync>(
    threads: &R,
    job: &Job<'a, '_, D, G>,
    seats: Vec<DeskSeat>,
    pass: &mut Pass<'a, D>,
) -> Result<(Vec<DeskSeat>, Vec<Option<UnitOut<'a>>>), Memory>
    requires seats { All (λ s. s ≡ new_seat job.now.desk.now) seats.items }
    requires shelf { pass.old.shelf ≡ job.now.shelf.now }
    requires blocks { job.now.desk.now.plan.blocks ≤ max_blocks }
    requires profile { job.now.shelf.now.profile ≡ job.now.setting.now.profile }
    requires rows { All (IsUnitOf (length job.now.shelf.now.names) job.now.setting.now.profile) job.now.units.now }
    ensures shelf { pass.new.shelf ≡ job.now.shelf.now }
    ensures grows { Extends pass.new.files pass.old.files }
    ensures seats { IfOk result (λ r. All (λ s. s.desk ≡ job.now.desk.now) r.0.items) }
    ensures drained { IfOk result (λ r. All (λ s. s.found_empty ≡ true) r.0.items) }
    ensures count { IfOk result (λ r. length r.0.items ≡ length seats.items) }
    ensures slots { IfOk result (λ r. FitSlots job.now.retain job.now.shelf.now pass.new.files job.now.setting.now job.now.units.now r.1.items) }
    ensures full { IfOk result (λ r. AllFilled (length job.now.units.now) job.now.block (claims_of r.0.items) r.1.items) }
{
    let task = |seat: DeskSeat| -> Result<Worker<D>, Memory>
        requires { (seat ≡ new_seat job.now.desk.now) × (job.now.desk.now.plan.blocks ≤ max_blocks)
            × (job.now.shelf.now.profile ≡ job.now.setting.now.profile)
            × All (IsUnitOf (length job.now.shelf.now.names) job.now.setting.now.profile) job.now.units.now }
        ensures { IfOk result (λ w. IsDone job.entry.now.retain job.entry.now.desk.now job.entry.now.shelf.now
            job.entry.now.setting.now job.entry.now.units.now job.entry.now.block w.seat w.pass w.results.items) }
    { Worker::run(job, seat) };
    let done = thread::map_vec(threads, seats, &task)?;
    collect(job, pass, done)
}

/// Collects the results of the workers.
fn collect<'a, D: Disk, G: Gate>(
    job: &Job<'a, '_, D, G>,
    pass: &mut Pass<'a, D>,
    done: Vec<Result<Worker<'a, D>, Memory>>,
) -> Result<(Vec<DeskSeat>, Vec<Option<UnitOut<'a>>>), Memory>
    requires shelf { pass.old.shelf ≡ job.now.shelf.now }
    requires done { All (λ r. IfOk r (λ w. IsDone job.now.retain job.now.desk.now job.now.shelf.now job.now.setting.now
        job.now.units.now job.now.block w.seat w.pass w.results.items)) done.items }
    ensures shelf { pass.new.shelf ≡ job.now.shelf.now }
    ensures grows { Extends pass.new.files pass.old.files }
    ensures seats { IfOk result (λ r. All (λ s. s.desk ≡ job.now.desk.now) r.0.items) }
    ensures drained { IfOk result (λ r. All (λ s. s.found_empty ≡ true) r.0.items) }
    ensures count { IfOk result (λ r. length r.0.items ≡ length done.entry.items) }
    ensures slots { IfOk result (λ r. FitSlots job.now.retain job.now.shelf.now pass.new.files job.now.setting.now job.now.units.now r.1.items) }
    ensures full { IfOk result (λ r. AllFilled (length job.now.units.now) job.now.block (claims_of r.0.items) r.1.items) }
{
    let mut seats = Vec::new(job.alloc);
    let mut slots = empty_slots(job.alloc, job.units.len())?;
    for finished in done {
        let worker = finished?;
        let seat = absorb(job, pass, worker, &mut slots);
        seats.push(seat)?;
    }
    Ok((seats, slots))
}

/// Merges a worker's pass, moves its outputs into their slots, and returns its seat.
fn absorb<'a, D: Disk, G: Gate>(
    job: &Job<'a, '_, D, G>,
    pass: &mut Pass<'a, D>,
    worker: Worker<'a, D>,
    slots: &mut Vec<Option<UnitOut<'a>>>,
) -> DeskSeat
    requires shelf { pass.old.shelf ≡ job.now.shelf.now }
    requires done { IsDone job.now.retain job.now.desk.now job.now.shelf.now job.now.setting.now
        job.now.units.now job.now.block worker.seat worker.pass worker.results.items }
    requires slots { FitSlots job.now.retain job.now.shelf.now pass.old.files job.now.setting.now job.now.units.now slots.old.items }
    ensures seat { (result.desk ≡ job.now.desk.now) × (result.found_empty ≡ true) }
    ensures shelf { pass.new.shelf ≡ job.now.shelf.now }
    ensures grows { Extends pass.new.files pass.old.files }
    ensures slots { FitSlots job.now.retain job.now.shelf.now pass.new.files job.now.setting.now job.now.units.now slots.new.items }
    ensures slots_stay { (i : ℕ) → IsSome (slice_index_or slots.old.items i None) → IsSome (slice_index_or slots.new.items i None) }
    ensures claims_filled { (i : ℕ) → i < length job.now.units.now → 0 < times (i / job.now.block) result.claims
        → IsSome (slice_index_or slots.new.items i None) }
{
    let (seat, other, results) = worker.into_parts();
    job.shelf.meet(pass, other);
    // For proofs only: cites the theorem that units have the same values over more files.
    growth();
    fill_slots(results, slots);
    seat
}

//! Workers, which claim blocks of units and preprocess them.
ghost use Rattle.std.specs.Prelude.{◌≡◌, ℕ, ◌<◌, ◌≤◌, ◌/◌, [], ◌∷◌, ◌++◌, length, All, IfOk, OnOk};
ghost use Rattle.ppunit.specs.Unit.{IsUnitOf};
ghost use Rattle.ppshelf.specs.Events.{times};
ghost use Rattle.pppool.specs.Desk.{max_blocks, new_seat};
ghost use Rattle.pppool.specs.code.Workers.{IsRetained, AreUnitResults, IsDone, result_units};
ghost use Rattle.ppshelf.specs.Files.{Extends};

use crate::desk::{Desk, DeskSeat};
use crate::gate::Gate;
use crate::limits::Block;
use crate::retention::Retain;
use ppshelf::{Disk, Pass, Shelf};
use pptext::Memory;
use ppunit::{Setting, Unit, UnitOut, growth, preprocess, preprocess_without_items};
use std::alloc::Global;
use std::marker::Model;

/// What all workers share: the units of a list in blocks, and the desk at which blocks are claimed.
pub(crate) struct Job<'a, 'j, D: Disk, G: Gate> {
    pub alloc: Global,
    pub shelf: &'a Shelf<D>,
    pub disk: &'j D,
    pub gate: &'j G,
    pub setting: &'j Setting,
    pub units: &'a [Unit],
    pub block: Block,
    pub retain: Retain,
    pub desk: &'j Desk,
}

impl<D: Disk, G: Gate> Drop for Job<'_, '_, D, G> {
    fn drop(self) {
        let Job {
            alloc: _,
            shelf: _,
            disk: _,
            gate: _,
            setting: _,
            units: _,
            block: _,
            retain: _,
            desk: _,
        } = self;
    }
}

/// What is kept of a unit's output, with the unit's number in the list.
#[derive(Drop)]
pub(crate) struct UnitResult<'a> {
    pub unit: usize,
    pub out: UnitOut<'a>,
}

impl<'a> Model for UnitResult<'a> {
    ghost use Rattle.pppool.specs.code.Workers.{UnitResult};

    ghost Value = { UnitResult };

    ghost view = { λ a. record { unit = a.unit; out = a.out } };
}

/// A worker: its seat at the desk, its pass, which knows the files that it has read, and the outputs of its units.
pub(crate) struct Worker<'a, D: Disk> {
    pub seat: DeskSeat,
    pub pass: Pass<'a, D>,
    pub results: Vec<UnitResult<'a>>,
}

impl<D: Disk> Drop for Worker<'_, D> {
    fn drop(self) {
        let Worker {
            seat: _,
            pass: _,
            results: _,
        } = self;
    }
}

/// Preprocesses a unit. Returns what is kept of its output.
fn unit_output<'a, D: Disk, G: Gate>(
    job: &Job<'a, '_, D, G>,
    pass: &mut Pass<'a, D>,
    unit: &'a Unit,
) -> Result<UnitOut<'a>, Memory>
    requires shelf { pass.old.shelf ≡ job.now.shelf.now }
    requires profile { job.now.shelf.now.profile ≡ job.now.setting.now.profile }
    requires unit { IsUnitOf (length job.now.shelf.now.names) job.now.setting.now.profile unit.now }
    ensures shelf { pass.new.shelf ≡ job.now.shelf.now }
    ensures grows { Extends pass.new.files pass.old.files }
    ensures is { IfOk result (λ out. IsRetained job.now.retain job.now.shelf.now.names pass.new.files job.now.setting.now unit.now out) }
{
    let (alloc, shelf, disk, setting) = (job.alloc, job.shelf, job.disk, job.setting);
    match job.retain {
        Retain::Everything => preprocess(alloc, shelf, pass, disk, setting, unit),
        Retain::WithoutItems => preprocess_without_items(alloc, shelf, pass, disk, setting, unit),
    }
}

impl<'a, D: Disk> Worker<'a, D> {
    /// Preprocesses the unit with this number.
    fn work_unit<G: Gate>(&mut self, job: &Job<'a, '_, D, G>, unit: usize) -> Result<(), Memory>
        requires shelf { self.old.pass.shelf ≡ job.now.shelf.now }
        requires unit { unit < length job.now.units.now }
        requires profile { job.now.shelf.now.profile ≡ job.now.setting.now.profile }
        requires rows { All (IsUnitOf (length job.now.shelf.now.names) job.now.setting.now.profile) job.now.units.now }
        requires results { AreUnitResults job.now.retain job.now.shelf.now self.old.pass.files
            job.now.setting.now job.now.units.now self.old.results.items }
        ensures seat { self.new.seat ≡ self.old.seat }
        ensures shelf { self.new.pass.shelf ≡ job.now.shelf.now }
        ensures results { OnOk result (AreUnitResults job.now.retain job.now.shelf.now self.new.pass.files
            job.now.setting.now job.now.units.now self.new.results.items) }
        ensures result_units { OnOk result (result_units self.new.results.items ≡ result_units self.old.results.items ++ unit ∷ []) }
    {
        job.gate.enter(unit);
        let outcome = unit_output(job, &mut self.pass, &job.units[unit]);
        growth();
        let out = outcome?;
        self.results.push(UnitResult { unit, out })?;
        Ok(())
    }

    /// Preprocesses the units of the block with this number. The last block may be shorter than the others.
    fn work_block<G: Gate>(&mut self, job: &Job<'a, '_, D, G>, number: usize) -> Result<(), Memory>
        requires shelf { self.old.pass.shelf ≡ job.now.shelf.now }
        requires number { number < max_blocks }
        requires profile { job.now.shelf.now.profile ≡ job.now.setting.now.profile }
        requires rows { All (IsUnitOf (length job.now.shelf.now.names) job.now.setting.now.profile) job.now.units.now }
        requires results { AreUnitResults job.now.retain job.now.shelf.now self.old.pass.files
            job.now.setting.now job.now.units.now self.old.results.items }
        ensures seat { self.new.seat ≡ self.old.seat }
        ensures shelf { self.new.pass.shelf ≡ job.now.shelf.now }
        ensures results { OnOk result (AreUnitResults job.now.retain job.now.shelf.now self.new.pass.files
            job.now.setting.now job.now.units.now self.new.results.items) }
        ensures stay { OnOk result ((i : ℕ) → 0 < times i (result_units self.old.results.items) → 0 < times i (result_units self.new.results.items)) }
        ensures block_complete { OnOk result ((i : ℕ) → i < length job.now.units.now → i / job.now.block ≡ number
            → 0 < times i (result_units self.new.results.items)) }
    {
        let size = job.block.get();
        let first = number * size;
        let end = (first + size).min(job.units.len());
        for unit in first..end {
            self.work_unit(job, unit)?;
        }
        Ok(())
    }

    /// Claims blocks and preprocesses their units until no block is left.
    pub(crate) fn work<G: Gate>(&mut self, job: &Job<'a, '_, D, G>) -> Result<(), Memory>
        requires seat { (self.old.seat.desk ≡ job.now.desk.now) × (self.old.seat.claims ≡ []) }
        requires shelf { self.old.pass.shelf ≡ job.now.shelf.now }
        requires blocks { job.now.desk.now.plan.blocks ≤ max_blocks }
        requires profile { job.now.shelf.now.profile ≡ job.now.setting.now.profile }
        requires rows { All (IsUnitOf (length job.now.shelf.now.names) job.now.setting.now.profile) job.now.units.now }
        requires results { self.old.results.items ≡ [] }
        ensures { OnOk result (IsDone job.now.retain job.now.desk.now job.now.shelf.now job.now.setting.now
            job.now.units.now job.now.block self.new.seat self.new.pass self.new.results.items) }
    {
        while let Some(number) = job.desk.claim(&mut self.seat) {
            self.work_block(job, number as usize)?;
        }
        Ok(())
    }

    /// Runs a worker in this seat, with a pass that knows nothing. Returns the worker after its work.
    pub(crate) fn run<G: Gate>(job: &Job<'a, '_, D, G>, seat: DeskSeat) -> Result<Self, Memory>
        requires seat { seat ≡ new_seat job.now.desk.now }
        requires blocks { job.now.desk.now.plan.blocks ≤ max_blocks }
        requires profile { job.now.shelf.now.profile ≡ job.now.setting.now.profile }
        requires rows { All (IsUnitOf (length job.now.shelf.now.names) job.now.setting.now.profile) job.now.units.now }
        ensures { IfOk result (λ w. IsDone job.now.retain job.now.desk.now job.now.shelf.now job.now.setting.now
            job.now.units.now job.now.block w.seat w.pass w.results.items) }
    {
        let mut worker = Worker {
            seat,
            pass: job.shelf.pass()?,
            results: Vec::new(job.alloc),
        };
        worker.work(job)?;
        Ok(worker)
    }

    /// Returns the seat, the pass and the outputs.
    pub(crate) fn into_parts(self) -> (DeskSeat, Pass<'a, D>, Vec<UnitResult<'a>>)
        ensures { (result.0 ≡ self.entry.seat) × (result.1 ≡ self.entry.pass) × (result.2 ≡ self.entry.results) }
    {
        let Worker {
            seat,
            pass,
            results,
        } = self;
        (seat, pass, results)
    }
}

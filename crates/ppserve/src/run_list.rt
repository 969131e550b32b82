//! Runs the units of a list with workers, and prints their outputs.
//!
//! There is one run, `run_over`, over a file table and a disk. The table takes over the names of the list. A list that
//! holds its files fills the table before it runs, and its disk has no file; a list that only names them begins with an
//! empty table. What a run promises, `Delivers`, is the same for both, over the files that it observes; from that
//! `run_with_contents` and `run_with_disk` conclude what `serve` promises of each. Outputs borrow from the file table, and
//! its names are printed, so that a run keeps it until all is printed: then `AtEnd` says whether the memory is freed at
//! all.
ghost use Rattle.std.specs.Prelude.{◌≡◌, ◌≤◌, [], length, All, IfOk, false};
ghost use Rattle.ppshelf.specs.Content.{longest};
ghost use Rattle.ppshelf.specs.Files.{max_rows, IsFull};
ghost use Rattle.ppunit.specs.Unit.{IsUnitOf};
ghost use Rattle.ppserve.specs.Contents.{files_of, AreInList, ArePermitted};
ghost use Rattle.ppserve.specs.Listing.{IsRunnable};
ghost use Rattle.ppserve.specs.Serving.{IsOutput};
ghost use Rattle.ppserve.specs.code.NeededRetention.{needed_retention};
ghost use Rattle.ppserve.specs.code.Runs.{AreObservedFor, AreRetainedOverSome, Delivers, list_over};

use crate::list::{List, Units};
use crate::output::{Mode, Output};
use crate::printing::print;
use crate::serving::RunFault;
use crate::streams::Sink;
use pppool::{Batch, Block, Gate, Retain, Workers, list_growth, run_retaining};
use ppshelf::{Contents, Disk, FileNames, MemoryDisk, Shelf};
use pptext::{Hashing, Memory, Profile};
use ppunit::{Setting, UnitOut};
use std::alloc::Global;
use std::mem;
use std::thread::Threads;

/// The options of a run.
#[derive(Clone, Copy)]
pub struct RunOptions {
    /// What is printed of each unit.
    pub mode: Mode,
    /// The number of workers, which preprocess units in parallel.
    pub workers: Workers,
    /// The largest number of units that a worker claims at a time.
    pub block: Block,
    /// The hash function of names.
    pub hashing: Hashing,
    /// Whether the memory of files and results is freed after printing.
    pub at_end: AtEnd,
}

/// Whether a run frees its memory when it ends. The output doesn't depend on it.
#[derive(Clone, Copy, Debug, PartialEq, Eq)]
pub enum AtEnd {
    /// Frees it, token by token.
    Free,
    /// Leaves it to the system, for a program that exits next. Freeing it would take time.
    Leave,
}

impl AtEnd {
    /// Drops a value, or leaves its memory to the system.
    pub(crate) fn let_go<T: Drop>(self, value: T) {
        match self {
            AtEnd::Free => drop(value),
            AtEnd::Leave => mem::forget(value),
        }
    }
}

/// Returns what must be kept of outputs to print them.
pub(crate) fn needed_retention(mode: Mode) -> Retain
    ensures { result ≡ needed_retention mode }
{
    match mode {
        Mode::Dump | Mode::Faults | Mode::Text => Retain::Everything,
        Mode::Deps => Retain::WithoutItems,
    }
}

/// A gate that never waits.
pub(crate) struct OpenGate;

impl Gate for OpenGate {
    fn enter(&self, _unit: usize) {}
}

/// Creates a disk without files. It is never read, since all files are known.
pub(crate) fn no_disk(alloc: Global) -> MemoryDisk
    ensures { result.files.items ≡ [] }
{
    MemoryDisk {
        files: Vec::new(alloc),
    }
}

/// What a run preprocesses: units with their setting, over a file table and the disk from which it reads the files that
/// it doesn't know.
pub(crate) struct Run<'d, D: Disk> {
    pub shelf: Shelf<D>,
    pub disk: &'d D,
    pub setting: Setting,
    pub units: Units,
}

/// Preprocesses the units of a list that holds its files, and writes their output once all are done. Returns whether a
/// unit has a fault.
pub(crate) fn run_with_contents<T: Threads + Sync, W: Sink>(
    threads: &T,
    alloc: Global,
    writer: &mut W,
    list: List,
    options: RunOptions,
) -> Result<bool, RunFault>
    requires writer { W.has_failed writer.old ≡ false }
    requires runnable { IsRunnable list }
    requires contents { length list.contents ≡ length list.names }
    ensures { Delivers W.written W.has_failed (IsOutput AreInList options.mode list) writer.old writer.new result }
{
    let List {
        setting,
        names,
        contents,
        units,
    } = list;
    let shelf = filled_shelf(alloc, names, setting.profile, contents)?;
    let disk = no_disk(alloc);
    // For proofs only: units have the same values over more files.
    list_growth();
    let run = Run {
        shelf,
        disk: &disk,
        setting,
        units,
    };
    run_over(threads, alloc, writer, run, options)
}

/// Creates a file table with these names and moves the contents into it.
pub(crate) fn filled_shelf(
    alloc: Global,
    names: FileNames,
    profile: Profile,
    contents: Contents,
) -> Result<Shelf<MemoryDisk>, Memory>
    requires few { length names.names ≤ max_rows }
    requires count { length contents ≡ length names.names }
    requires small { All (λ bytes. length bytes ≤ longest) contents }
    ensures names { IfOk result (λ s. s.names ≡ names.names) }
    ensures profile { IfOk result (λ s. s.profile ≡ profile) }
    ensures hashing { IfOk result (λ s. s.hashing ≡ names.hashing) }
    ensures files { IfOk result (λ s. s.filled ≡ files_of contents) }
    ensures full { IfOk result (λ s. IsFull s) }
{
    let mut shelf = Shelf::over(alloc, names, profile)?;
    shelf.fill_with(contents)?;
    Ok(shelf)
}

/// Preprocesses the units of a list that only names its files, and writes their output once all are done. Returns
/// whether a unit has a fault.
pub(crate) fn run_with_disk<T: Threads + Sync, W: Sink, D: Disk + Send + Sync>(
    threads: &T,
    alloc: Global,
    writer: &mut W,
    disk: &D,
    list: List,
    options: RunOptions,
) -> Result<bool, RunFault>
    requires writer { W.has_failed writer.old ≡ false }
    requires runnable { IsRunnable list }
    ensures { Delivers W.written W.has_failed (IsOutput (ArePermitted D.may) options.mode list) writer.old writer.new result }
{
    let List {
        setting,
        names,
        contents: _,
        units,
    } = list;
    let shelf = Shelf::over(alloc, names, setting.profile)?;
    let run = Run {
        shelf,
        disk,
        setting,
        units,
    };
    run_over(threads, alloc, writer, run, options)
}

/// Preprocesses the units of a run, and writes their output once all are done. Returns whether a unit has a fault.
fn run_over<T: Threads + Sync, W: Sink, D: Disk + Send + Sync>(
    threads: &T,
    alloc: Global,
    writer: &mut W,
    run: Run<D>,
    options: RunOptions,
) -> Result<bool, RunFault>
    requires writer { W.has_failed writer.old ≡ false }
    requires runnable { IsRunnable (list_over run.shelf run.setting run.units) }
    requires profile { run.shelf.profile ≡ run.setting.profile }
    ensures { Delivers W.written W.has_failed
        (IsOutput (AreObservedFor D.may run.entry.shelf) options.mode (list_over run.entry.shelf run.entry.setting run.entry.units)) writer.old writer.new result }
{
    let Run {
        shelf,
        disk,
        setting,
        units,
    } = run;
    let units = units.as_slice();
    let outs = run_batch(
        threads,
        alloc,
        &Batch {
            shelf: &shelf,
            disk,
            gate: &OpenGate,
            setting: &setting,
            units,
            workers: options.workers,
            block: options.block.fitted(units.len(), options.workers),
        },
        options.mode,
    )?;
    let names = shelf.names().as_slice();
    let output = Output {
        mode: options.mode,
        names,
        units,
        outs: outs.as_slice(),
    };
    let outcome = print(threads, alloc, writer, options.workers, output);
    options.at_end.let_go(outs);
    options.at_end.let_go(shelf);
    outcome
}

/// Preprocesses the units of a batch over one set of files, which the run observes. Returns what is needed of their
/// outputs, in list order.
fn run_batch<'a, R: Threads + Sync, D: Disk + Send + Sync>(
    threads: &R,
    alloc: Global,
    batch: &Batch<'a, '_, D, OpenGate>,
    mode: Mode,
) -> Result<Vec<UnitOut<'a>>, Memory>
    requires count { length batch.now.units.now ≤ max_rows }
    requires profile { batch.now.shelf.now.profile ≡ batch.now.setting.now.profile }
    requires units { All (IsUnitOf (length batch.now.shelf.now.names) batch.now.setting.now.profile) batch.now.units.now }
    ensures { IfOk result (λ outs. AreRetainedOverSome D.may (needed_retention mode) batch.now.shelf.now batch.now.setting.now batch.now.units.now outs.items) }
{
    let mut pass = batch.shelf.pass()?;
    let outs = run_retaining(threads, alloc, &mut pass, batch, needed_retention(mode))?;
    // For proofs only: cites a promise of the pass.
    pass.contents_permitted();
    Ok(outs)
}

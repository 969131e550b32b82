//! Runs a list in memory: from its bytes to those of its output, in the caller's thread.
//!
//! `serve` needs what starts threads, which only a program has. Here units are preprocessed one after another, through one
//! pass. A caller of C has no streams either, so the whole output is returned.
ghost use Rattle.std.specs.Prelude.{◌≡◌, ◌≢◌, ◌∷◌, [], ℕ, All, IfOk, IfErr, IsErrOf, length, true};
ghost use Rattle.ppunit.specs.Unit.{IsUnitOf};
ghost use Rattle.pppool.specs.Retained.{AreRetained};
ghost use Rattle.ppshelf.specs.Files.{Extends};
ghost use Rattle.ppserve.specs.Contents.{AreInList};
ghost use Rattle.ppserve.specs.Listing.{IsRunnable, verdict_of, refused};
ghost use Rattle.ppserve.specs.Serving.{IsOutput, ServesInMemory};
ghost use Rattle.ppserve.specs.declared.serving.RunFault.TheVariants.{List as ListRefused, Read as ReadFailed, Write as WriteFailed};
ghost use Rattle.ppserve.specs.code.Runs.{AreObservedFor, AreRetainedOverSome, IsOutputOf, list_over};

use crate::list::{List, read_list};
use crate::output::{Mode, Output, print_alone};
use crate::printing::any_fault;
use crate::run_list::{Run, filled_shelf, needed_retention, no_disk};
use crate::serving::RunFault;
use pppool::{Retain, list_growth};
use ppshelf::{Disk, Pass, Shelf};
use pptext::{Hashing, Memory};
use ppunit::{Setting, Unit, UnitOut, preprocess, preprocess_without_items};
use std::alloc::Global;

/// The output of a list.
#[derive(Drop)]
pub struct Printed {
    /// The bytes.
    pub text: Vec<u8>,
    /// Whether a unit has a fault.
    pub any_fault: bool,
}

/// Runs translation phases 1 to 4 (5.1.1.2) of the units of a list that holds its files, and returns their output. It is
/// the output of `serve` for the same bytes.
///
/// # Errors
///
/// `List` with the lowest refusal number that applies, and `Memory` if an allocation fails.
pub fn serve_in_memory(
    alloc: Global,
    bytes: &[u8],
    mode: Mode,
    hashing: Hashing,
) -> Result<Printed, RunFault>
    ensures ok { IfOk result (λ p. ServesInMemory mode bytes.now p.any_fault p.text.items) }
    ensures refused { (n : ℕ) → IsErrOf result (ListRefused n) → verdict_of true bytes.now ≡ refused n }
    ensures kinds { IfErr result (λ fault. (fault ≢ ReadFailed) × (fault ≢ WriteFailed)) }
{
    let list = read_list(alloc, bytes, true, hashing)?;
    let printed = print_list(alloc, list, mode)?;
    Ok(printed)
}

/// Returns the output of a list that holds its files.
fn print_list(alloc: Global, list: List, mode: Mode) -> Result<Printed, Memory>
    requires runnable { IsRunnable list }
    requires contents { length list.contents ≡ length list.names }
    ensures { IfOk result (λ p. IsOutput AreInList mode list p.any_fault p.text.items) }
{
    let List {
        setting,
        names,
        contents,
        units,
    } = list;
    let shelf = filled_shelf(alloc, names, setting.profile, contents)?;
    let disk = no_disk(alloc);
    // For proofs only: units have the same values over more files.
    list_growth();
    let run = Run {
        shelf,
        disk: &disk,
        setting,
        units,
    };
    print_run(alloc, run, mode)
}

/// Preprocesses the units of a run, and returns their output.
fn print_run<D: Disk>(alloc: Global, run: Run<D>, mode: Mode) -> Result<Printed, Memory>
    requires runnable { IsRunnable (list_over run.shelf run.setting run.units) }
    requires profile { run.shelf.profile ≡ run.setting.profile }
    ensures { IfOk result (λ p. IsOutput (AreObservedFor D.may run.entry.shelf) mode
        (list_over run.entry.shelf run.entry.setting run.entry.units) p.any_fault p.text.items) }
{
    let Run {
        shelf,
        disk,
        setting,
        units,
    } = run;
    let units = units.as_slice();
    let alone = Alone {
        alloc,
        shelf: &shelf,
        disk,
        setting: &setting,
        retain: needed_retention(mode),
    };
    let outs = alone.run(units)?;
    let names = shelf.names().as_slice();
    let output = Output {
        mode,
        names,
        units,
        outs: outs.as_slice(),
    };
    print_output(alloc, output)
}

/// Prints the output of units.
fn print_output(alloc: Global, output: Output) -> Result<Printed, Memory>
    ensures { IfOk result (λ p. IsOutputOf output.entry p.any_fault p.text.items) }
{
    let text = print_alone(alloc, output)?;
    Ok(Printed {
        text,
        any_fault: any_fault(output.outs),
    })
}

/// A run in the caller's thread: the file table, the disk from which it reads the files that it doesn't know, the units'
/// setting, and what is kept of their outputs.
struct Alone<'a, 'd, D: Disk> {
    alloc: Global,
    shelf: &'a Shelf<D>,
    disk: &'d D,
    setting: &'d Setting,
    retain: Retain,
}

impl<D: Disk> Drop for Alone<'_, '_, D> {
    fn drop(self) {
        let Alone {
            alloc: _,
            shelf: _,
            disk: _,
            setting: _,
            retain: _,
        } = self;
    }
}

impl<'a, D: Disk> Alone<'a, '_, D> {
    /// Preprocesses units over one set of files, which the run observes, one after another. Returns what is kept of
    /// their outputs.
    fn run(&self, units: &'a [Unit]) -> Result<Vec<UnitOut<'a>>, Memory>
        requires profile { self.now.shelf.now.profile ≡ self.now.setting.now.profile }
        requires units { All (IsUnitOf (length self.now.shelf.now.names) self.now.setting.now.profile) units.now }
        ensures { IfOk result (λ outs. AreRetainedOverSome D.may self.now.retain self.now.shelf.now self.now.setting.now units.now outs.items) }
    {
        let mut pass = self.shelf.pass()?;
        let mut outs = Vec::with_capacity(self.alloc, units.len())?;
        // For proofs only: units have the same values over more files.
        list_growth();
        for unit in units {
            let out = self.unit_output(&mut pass, unit)?;
            outs.push(out)?;
        }
        // For proofs only: cites a promise of the pass.
        pass.contents_permitted();
        Ok(outs)
    }

    /// Preprocesses a unit. Returns what is kept of its output.
    fn unit_output(&self, pass: &mut Pass<'a, D>, unit: &'a Unit) -> Result<UnitOut<'a>, Memory>
        requires shelf { pass.old.shelf ≡ self.now.shelf.now }
        requires profile { self.now.shelf.now.profile ≡ self.now.setting.now.profile }
        requires unit { IsUnitOf (length self.now.shelf.now.names) self.now.setting.now.profile unit.now }
        ensures shelf { pass.new.shelf ≡ self.now.shelf.now }
        ensures grows { Extends pass.new.files pass.old.files }
        ensures is { IfOk result (λ out. AreRetained self.now.retain self.now.shelf.now.names pass.new.files self.now.setting.now (unit.now ∷ []) (out ∷ [])) }
    {
        let (alloc, shelf, disk, setting) = (self.alloc, self.shelf, self.disk, self.setting);
        match self.retain {
            Retain::Everything => preprocess(alloc, shelf, pass, disk, setting, unit),
            Retain::WithoutItems => {
                preprocess_without_items(alloc, shelf, pass, disk, setting, unit)
            }
        }
    }
}

//! Preprocesses a unit: its definitions, and then its file.
//!
//! The methods of `Preprocessor` end with the first fault as an `Err`, so that `?` stops the unit; its state stays in the
//! preprocessor, since the output has what was emitted before the fault. `run_unit` takes the state out, and there alone
//! is the fault of a unit told apart from a lack of memory, which has no output.
//!
//! Definitions are lines of `#define` in a file of their own, whose lines `CommandMacros` reads once for all calls: they
//! are walked like any file, and the rules for definitions stand once.
ghost use Rattle.std.specs.Prelude.{◌≡◌, ◌<◌, ℕ, suc, IfOk, OnOk, Ok, Option, None, All, length};
ghost use Rattle.std.specs.Result.{result_err};
ghost use Rattle.pptext.specs.Errors.{UnlessOutOfMemory};
ghost use Rattle.pptext.specs.declared.tokens.Fault.{Fault};
ghost use Rattle.ppshelf.specs.Files.{Files, Extends, Agree, AllPermitted};
ghost use Rattle.ppunit.specs.States.{Progress, named, marked, output};
ghost use Rattle.ppunit.specs.code.Contexts.{context_over};
ghost use Rattle.ppunit.specs.Group.{OpensFile};
ghost use Rattle.ppunit.specs.Unit.{IsUnit, IsUnitWithoutItems, IsUnitOf, HasRows, Translates, OpensFirst, state_before, before_first, main_name};
ghost use Rattle.ppunit.specs.Unit.{first_place, first_file_place, first_opening, main_opening};
ghost use Rattle.ppunit.specs.declared.units.FirstFile.{FirstFile};
ghost use Rattle.ppunit.specs.declared.units.MarkSort.TheVariants.{Line as MarkLine};
ghost use Rattle.ppunit.specs.Capped.{IsInBudget, IsCappedOver};
ghost use Rattle.ppunit.specs.code.Preprocessor.{KeepsContext};
ghost use Rattle.ppunit.specs.code.Opening.{opening_in};
ghost use Rattle.ppunit.specs.code.Walk.{DefinesOver};

use crate::collections::{Items, Rows};
use crate::command_macros::{COMMAND_FILE, CommandMacros};
use crate::laws::{budget_caps_units, stays_in_budget};
use crate::open_file::{OpenFile, Opening, UnitContext};
use crate::preprocessor::Preprocessor;
use crate::shown_names::{Showing, copy_shown};
use crate::states::{Resumption, State};
use crate::units::{FirstFile, MarkSort, Setting, Unit, UnitOut};
use ppshelf::{Directories, Disk, Pass, Shelf};
use pptext::{Error, Fault, Memory, Place, tree_unless_fault};
use std::alloc::Global;

impl<'x, 'a: 'x, D: Disk> Preprocessor<'_, 'x, 'a, D> {
    /// Executes the unit's definitions.
    fn define_all(&mut self, defines: &'x CommandMacros) -> Result<(), Error>
        requires profile { defines.now.profile ≡ self.old.context.now.shelf.profile }
        ensures keeps_context { KeepsContext self.old self.new }
        ensures defined { UnlessOutOfMemory result (λ r.
            DefinesOver (context_over self.old.context.now) self.new.pass.now.files defines.now.texts self.old.state
            (record { state = self.new.state; fault = result_err r })) }
    {
        let context = self.context;
        let source = match defines.lines() {
            Ok(source) => source,
            Err(fault) => return Err(Error::of(context.alloc, fault.clone()?)),
        };
        tree_unless_fault();
        let file = OpenFile::new(COMMAND_FILE as usize, source);
        self.walk(0, file)
    }

    /// Opens a file at this depth, for the line at location `at`, and processes it with all that it includes.
    fn process(&mut self, depth: u32, at: Place, opening: Opening) -> Result<(), Error>
        requires row { opening.row < length self.old.context.now.shelf.names }
        ensures keeps_context { KeepsContext self.old self.new }
        ensures opened { UnlessOutOfMemory result (λ r.
            (more : Files)
            → Extends more self.new.pass.now.files
            → OpensFile (context_over self.old.context.now more) depth at self.old.state opening.row (opening_in self.old.context.now.shelf.names opening)
            (record { state = self.new.state; fault = result_err r })) }
    {
        let Some(entered) = self.open(depth, at, opening)? else {
            return Ok(());
        };
        let parts = entered.into_parts();
        let walked = self.walk(depth, parts.file);
        self.state.restore_context(parts.outer);
        walked?;
        self.state.resume(parts.resumption)?;
        Ok(())
    }

    /// Gives the unit's own file its name and a mark, before the files that are read first.
    fn name_main(&mut self, unit: &'x Unit) -> Result<(), Memory>
        requires row { unit.now.file < length self.old.context.now.shelf.names }
        ensures keeps_context { KeepsContext self.old self.new }
        ensures named { OnOk result (self.new.state
            ≡ marked (named self.old.state (main_name self.old.context.now.shelf.names unit.now)) MarkLine unit.now.file 0) }
    {
        let context = self.context;
        self.state.set_name(main_name(context, unit));
        self.state.emit_mark(MarkSort::Line, unit.file, 0)
    }

    /// Processes a file that is read before the unit's own, as if it were named by this line of the unit's definitions.
    fn process_first(&mut self, main: usize, number: usize, file: &FirstFile) -> Result<(), Error>
        requires row { file.now.file < length self.old.context.now.shelf.names }
        ensures keeps_context { KeepsContext self.old self.new }
        ensures opened { UnlessOutOfMemory result (λ r.
            (more : Files)
            → Extends more self.new.pass.now.files
            → OpensFile (context_over self.old.context.now more) 1 (first_file_place number) self.old.state file.now.file
            (first_opening self.old.context.now.shelf.names main file.now) (record { state = self.new.state; fault = result_err r })) }
    {
        // A list has far fewer bytes than this number of lines.
        let Ok(line) = u32::try_from(number) else {
            return Err(Error::Memory);
        };
        let context = self.context;
        let at = Place {
            file: COMMAND_FILE,
            line,
            col: 1,
        };
        let opening = Opening {
            row: file.file,
            directory: Some(0),
            shown: copy_shown(context.alloc, &file.shown)?,
            system: file.system,
            resumption: Some(Resumption { row: main, last: 0 }),
        };
        self.process(1, at, opening)
    }

    /// Processes the files that are read before the unit's own.
    fn process_all_first(&mut self, unit: &'x Unit) -> Result<(), Error>
        requires row { unit.now.file < length self.old.context.now.shelf.names }
        requires first { All (λ (f : FirstFile). f.file < length self.old.context.now.shelf.names) unit.now.first }
        ensures keeps_context { KeepsContext self.old self.new }
        ensures opened { UnlessOutOfMemory result (λ r.
            (more : Files)
            → Extends more self.new.pass.now.files
            → OpensFirst (context_over self.old.context.now more) unit.now.file (suc (length unit.now.defines.texts))
            (before_first unit.now.file (main_name self.old.context.now.shelf.names unit.now) unit.now.first self.old.state) unit.now.first
            (record { state = self.new.state; fault = result_err r })) }
    {
        let files = unit.first.as_slice();
        if files.is_empty() {
            return Ok(());
        }
        self.name_main(unit)?;
        let defines = unit.defines.texts().as_slice().len();
        for (index, file) in files.iter().enumerate() {
            self.process_first(unit.file, defines + index + 1, file)?;
        }
        Ok(())
    }

    /// Processes the unit's own file.
    fn process_main(&mut self, unit: &'x Unit) -> Result<(), Error>
        requires row { unit.now.file < length self.old.context.now.shelf.names }
        ensures keeps_context { KeepsContext self.old self.new }
        ensures opened { UnlessOutOfMemory result (λ r.
            (more : Files)
            → Extends more self.new.pass.now.files
            → OpensFile (context_over self.old.context.now more) 0 (first_place unit.now.file) self.old.state unit.now.file
            (main_opening (main_name self.old.context.now.shelf.names unit.now)) (record { state = self.new.state; fault = result_err r })) }
    {
        let context = self.context;
        let row = unit.file;
        // A file index fits into a location, since a file table has at most `MAX_ROWS` files.
        let _count = context.shelf().len();
        let at = Place {
            file: row as u32,
            line: 1,
            col: 1,
        };
        let opening = Opening {
            row,
            directory: None,
            shown: copy_shown(context.alloc, &unit.shown)?,
            system: false,
            resumption: None,
        };
        self.process(0, at, opening)
    }

    /// Executes the definitions, processes the files that are read first, and then the unit's own.
    fn translate(&mut self, unit: &'x Unit) -> Result<(), Error>
        requires rows { HasRows (length self.old.context.now.shelf.names) unit.now }
        requires profile { unit.now.defines.profile ≡ self.old.context.now.shelf.profile }
        ensures keeps_context { KeepsContext self.old self.new }
        ensures translated { UnlessOutOfMemory result (λ r.
            Translates (context_over self.old.context.now self.new.pass.now.files) unit.now self.old.state
            (record { state = self.new.state; fault = result_err r })) }
    {
        self.define_all(&unit.defines)?;
        self.process_all_first(unit)?;
        self.process_main(unit)
    }

    /// Returns the first fault of a unit, if it has one.
    fn first_fault(&mut self, unit: &'x Unit) -> Result<Option<Fault>, Memory>
        requires rows { HasRows (length self.old.context.now.shelf.names) unit.now }
        requires profile { unit.now.defines.profile ≡ self.old.context.now.shelf.profile }
        ensures keeps_context { KeepsContext self.old self.new }
        ensures translated { IfOk result (λ fault.
            Translates (context_over self.old.context.now self.new.pass.now.files) unit.now self.old.state
            (record { state = self.new.state; fault = fault })) }
    {
        match self.translate(unit) {
            Ok(()) => Ok(None),
            Err(Error::Fault(fault)) => Ok(Some(fault.into_fault())),
            Err(Error::Memory) => Err(Memory),
        }
    }
}

/// Returns the name under which the unit's own file is shown.
fn main_name<'x, 'a: 'x, D: Disk>(context: &UnitContext<'a, '_, D>, unit: &'x Unit) -> &'x [u8]
    requires { unit.now.file < length context.now.shelf.names }
    ensures { result.now ≡ main_name context.now.shelf.names unit.now }
{
    match &unit.shown {
        Some(shown) => shown.as_str().as_bytes(),
        None => context.shelf().name(unit.file).as_bytes(),
    }
}

/// Returns the output with these items and dependencies, and the fault of the unit if it has one. Fails if an
/// allocation failed.
fn unit_out<'x>(
    items: Items<'x>,
    deps: Rows,
    outcome: Result<Option<Fault>, Memory>,
) -> Result<UnitOut<'x>, Memory>
    ensures { IfOk result (λ out.
        (fault : Option Fault) × (outcome ≡ Ok fault) × (out ≡ record { items = items.entry; deps = deps; fault = fault })) }
{
    let fault = outcome?;
    Ok(UnitOut {
        items: items.trim(),
        deps,
        fault,
    })
}

/// Returns the output of a unit that ends in this state.
fn into_output<'x>(
    state: State<'x>,
    outcome: Result<Option<Fault>, Memory>,
) -> Result<UnitOut<'x>, Memory>
    ensures { IfOk result (λ out.
        (fault : Option Fault) × (outcome ≡ Ok fault) × (out ≡ output (record { state = state.entry; fault = fault }))) }
{
    let State {
        macros: _,
        once: _,
        pushed: _,
        meter: _,
        keeps: _,
        items,
        deps,
        file_context: _,
        system_rows: _,
        waiting: _,
        scratch: _,
    } = state;
    unit_out(items, deps, outcome)
}

/// Returns the output of a unit over the files of `context`, with its items if `keeps`.
fn run_unit<'x, 'a: 'x, D: Disk>(
    context: &UnitContext<'a, '_, D>,
    pass: &mut Pass<'a, D>,
    setting: &Setting,
    unit: &'x Unit,
    keeps: bool,
) -> Result<UnitOut<'x>, Memory>
    requires shelf { pass.old.shelf ≡ context.now.shelf }
    requires rows { HasRows (length context.now.shelf.names) unit.now }
    requires profile { unit.now.defines.profile ≡ context.now.shelf.profile }
    ensures shelf { pass.new.shelf ≡ context.now.shelf }
    ensures grows { Extends pass.new.files pass.old.files }
    ensures value { IfOk result (λ out.
        (progress : Progress)
        × Translates (context_over context.now pass.new.files) unit.now (state_before keeps setting.now) progress
        × (out ≡ output progress)) }
{
    let state = State::new(context.alloc, setting, context.shelf().hashing(), keeps)?;
    let mut preprocessor = Preprocessor {
        context,
        pass,
        state,
    };
    let outcome = preprocessor.first_fault(unit);
    let Preprocessor {
        context: _,
        pass: lent,
        state,
    } = preprocessor;
    // For proofs: the pass is read once more, so that its last value is known.
    let _lent = &*lent;
    into_output(state, outcome)
}

/// Executes translation phases 1 to 4 of a unit: its definitions, and then its file with all that it includes (5.1.1.2,
/// 6.10).
///
/// The output is the value of the unit over the files that the pass has observed when the call returns: those that `fill`
/// put into the shelf, and those that the disk returned. With a budget the unit's replacements and opened files total at most the budget, and
/// its value is a prefix of the value without one: the whole of it exactly if the budget suffices, and otherwise ending
/// in fault 35. Fails only if an allocation fails or the disk returns `Memory`; the pass then has at least what it had
/// observed before.
pub fn preprocess<'x, 'a: 'x, D: Disk>(
    alloc: Global,
    shelf: &'a Shelf<D>,
    pass: &mut Pass<'a, D>,
    disk: &D,
    setting: &Setting,
    unit: &'x Unit,
) -> Result<UnitOut<'x>, Memory>
    requires shelf { pass.old.shelf ≡ shelf.now }
    requires profile { shelf.now.profile ≡ setting.now.profile }
    requires unit { IsUnitOf (length shelf.now.names) setting.now.profile unit.now }
    ensures shelf { pass.new.shelf ≡ shelf.now }
    ensures grows { Extends pass.new.files pass.old.files }
    ensures deps { IfOk result (λ out. All (λ row. row < length shelf.now.names) out.deps) }
    ensures is { IfOk result (λ out. IsUnit shelf.now.names pass.new.files setting.now unit.now out) }
    ensures within { IfOk result (λ out. IsInBudget shelf.now.names pass.new.files setting.now unit.now out) }
    ensures capped { IfOk result (λ out. IsCappedOver shelf.now.names pass.new.files setting.now unit.now out) }
    ensures contents_permitted { AllPermitted D.may shelf.now.names pass.new.files }
    ensures filled { Agree shelf.now.filled pass.new.files }
{
    let directories = Directories {
        unit: unit.search.as_slice(),
        setting: setting.search.as_slice(),
    };
    let showing = Showing::of(setting, unit);
    let context = UnitContext::new(alloc, shelf, disk, directories, showing);
    let output = run_unit(&context, pass, setting, unit, true);
    // For proofs: file names are distinct, the contents are permitted, and the theorems about budgets hold.
    shelf.names_are_distinct();
    pass.contents_permitted();
    stays_in_budget();
    budget_caps_units();
    output
}

/// Executes translation phases 1 to 4 of a unit like `preprocess`, but keeps no items, which dependencies and faults don't need. The output
/// is the one of `preprocess` without its items.
///
/// Fails only if an allocation fails or the disk returns `Memory`; the pass then has at least what it had observed before.
pub fn preprocess_without_items<'x, 'a: 'x, D: Disk>(
    alloc: Global,
    shelf: &'a Shelf<D>,
    pass: &mut Pass<'a, D>,
    disk: &D,
    setting: &Setting,
    unit: &'x Unit,
) -> Result<UnitOut<'x>, Memory>
    requires shelf { pass.old.shelf ≡ shelf.now }
    requires profile { shelf.now.profile ≡ setting.now.profile }
    requires unit { IsUnitOf (length shelf.now.names) setting.now.profile unit.now }
    ensures shelf { pass.new.shelf ≡ shelf.now }
    ensures grows { Extends pass.new.files pass.old.files }
    ensures is { IfOk result (λ out. IsUnitWithoutItems shelf.now.names pass.new.files setting.now unit.now out) }
{
    let directories = Directories {
        unit: unit.search.as_slice(),
        setting: setting.search.as_slice(),
    };
    let showing = Showing::of(setting, unit);
    let context = UnitContext::new(alloc, shelf, disk, directories, showing);
    let UnitOut {
        items: _,
        deps,
        fault,
    } = run_unit(&context, pass, setting, unit, false)?;
    Ok(UnitOut {
        items: Items::new(alloc),
        deps,
        fault,
    })
}

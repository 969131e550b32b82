//! Walks over the lines of a file in the order of execution: the groups that are taken and no others (6.10.1). The
//! lines of an included file come before the line after its include line.
//!
//! A walk is one loop with a stack of suspended files, not a recursion: an include depth of 200 would cost a thread 200
//! frames. The lines of a file stay a flat list, in which each branch line has the index of the next one (`next_branch`).
//! So a group that isn't taken is skipped in steps from branch line to branch line, whatever is nested in it.
//!
//! The specification speaks of group trees, and the walk of line indices. `specs/code/Walk` relates them: a line index
//! stands for the parts that are left and the if-sections around them (`HasPartsAt`), and each step promises that all
//! that is reached from the next line is reached from this one (`Advances`).
ghost use Rattle.std.specs.Prelude.{◌≡◌, ◌<◌, ◌≤◌, ◌+◌, ℕ, suc, Bool, true, false, if◌then◌else◌, None, Some, IfOk, IfSome};
ghost use Rattle.std.specs.Prelude.{List, ◌++◌, drop, length};
ghost use Rattle.std.specs.List.{AllByRecursion};
ghost use Rattle.std.specs.Result.{result_err};
ghost use Rattle.pptext.specs.Lines.{LogicalLine};
ghost use Rattle.pptext.specs.Errors.{UnlessOutOfMemory};
ghost use Rattle.pptext.specs.Tree.{GroupParts, Branches, branch_lines, AreBranches};
ghost use Rattle.pptext.specs.Classes.{opens_section, ends_group};
ghost use Rattle.pptext.specs.declared.sources.Directive.{Directive};
ghost use Rattle.ppmacro.specs.DefineLines.{IsDefineLine};
ghost use Rattle.ppshelf.specs.Files.{Files};
ghost use Rattle.ppunit.specs.Group.{ExecutesControlLine, ExecutesInclude};
ghost use Rattle.ppunit.specs.States.{Context, Progress, with_meter};
ghost use Rattle.ppunit.specs.code.Contexts.{context_over, search_in_unit};
ghost use Rattle.ppunit.specs.ShownNames.{opening_of};
ghost use Rattle.ppunit.specs.code.Lines.{directed, line_refusal};
ghost use Rattle.ppunit.specs.code.Opening.{opening_in};
ghost use Rattle.ppunit.specs.code.Preprocessor.{KeepsContext};
ghost use Rattle.ppunit.specs.code.Walk.{line_at, IsTextLine, StartsWithoutTextLine, EnclosingSections, BranchesAt, TakesBranch, FindsBranch, Advances, Leads, Steps, Walks};

use crate::conditions::decide;
use crate::directive_line::{DirectiveLine, DirectiveTokens, line_fault, refuse_unmatched_quote};
use crate::directives::{control, define_as_read, error};
use crate::include_stack::Stack;
use crate::including::{IncludeName, read_include_name};
use crate::open_file::{Entered, LocatedFile, OpenFile, Opening, UnitContext, find_file};
use crate::preprocessor::Preprocessor;
use crate::shown_names::{is_system, shown_name};
use crate::states::{Resumption, State};
use crate::waiting::{emit_text, refuse_among_arguments, refuse_at_end};
use ppmacro::DefineLine;
use ppshelf::Disk;
use pptext::{Class, Directive, Error, Memory, Profile, Source};
use std::alloc::Global;
use std::marker::Model;

/// Returns the index of the line after the text lines that begin at `start`.
fn text_end(source: &Source, start: usize) -> usize
    requires index { start < length source.now }
    requires text { IsTextLine (line_at source.now start) }
    ensures within { result ≤ length source.now }
    ensures further { start < result }
    ensures text_lines { (lines rest : List LogicalLine)
        → drop start source.now ≡ lines ++ rest
        → AllByRecursion IsTextLine lines
        → StartsWithoutTextLine rest
        → (result ≡ start + length lines) × (drop result source.now ≡ rest) }
{
    let lines = source.line_count();
    let mut end = start + 1;
    while end < lines && source.line(end).directive.is_none() {
        end += 1;
    }
    end
}

/// Returns whether the group after the branch line at `index` is taken, in the file at index `row`. Returns true at
/// `#else` and `#endif`. Changes nothing in `state` but the meter.
fn takes_branch<'x, D: Disk>(
    context: &UnitContext<'_, '_, D>,
    state: &mut State<'x>,
    row: usize,
    source: &'x Source,
    index: usize,
) -> Result<bool, Error>
    requires rows { 0 < length context.now.shelf.names }
    requires index { index < length source.now }
    ensures rest { state.new ≡ with_meter state.old state.new.meter }
    ensures takes_branch { UnlessOutOfMemory result (λ taken. TakesBranch (search_in_unit context.now) row state.old (line_at source.now index) state.new.meter taken) }
{
    let Some(directive) = source.line(index).directive else {
        return Ok(true);
    };
    if !directive.begins_elif_group() {
        return Ok(true);
    }
    decide(
        context,
        state,
        row,
        directive,
        &DirectiveTokens::at(source, index),
    )
}

/// Returns the index of the line at which execution continues if the group after the line at `start` isn't taken: the
/// line after the first branch line whose group is taken, or the line after `#endif`.
fn find_branch<'x, D: Disk>(
    context: &UnitContext<'_, '_, D>,
    state: &mut State<'x>,
    row: usize,
    source: &'x Source,
    start: usize,
) -> Result<usize, Error>
    requires rows { 0 < length context.now.shelf.names }
    requires start { start < length source.now }
    ensures further { IfOk result (λ next. start < next) }
    ensures found { UnlessOutOfMemory result (λ next.
        (ps : GroupParts) (bs : Branches) (qs : GroupParts) (k : EnclosingSections)
        → BranchesAt source.now start ps bs qs k
        → FindsBranch (search_in_unit context.now) row source.now state.old state.new bs qs k next) }
{
    let mut index = start;
    while let Some(next) = source.line(index).next_branch {
        if takes_branch(context, state, row, source, next)? {
            return Ok(next + 1);
        }
        index = next;
    }
    Ok(index + 1)
}

/// Returns the index of the line after the `#endif` of the if-section that has the branch line or `#endif` at `branch`.
fn section_end(source: &Source, branch: usize) -> usize
    requires { branch < length source.now }
    ensures further { branch < result }
    ensures end { (last : Bool) (bs : Branches) (rest : List LogicalLine)
        → drop branch source.now ≡ branch_lines bs ++ rest
        → AreBranches last bs
        → drop result source.now ≡ rest }
{
    let mut index = branch;
    while let Some(next) = source.line(index).next_branch {
        index = next;
    }
    index + 1
}

/// Executes a line that opens an if-section of the file at index `row`. Returns the index of the line at which
/// execution continues.
fn execute_if_line<'x, D: Disk>(
    context: &UnitContext<'_, '_, D>,
    state: &mut State<'x>,
    row: usize,
    source: &'x Source,
    directive: Directive,
    index: usize,
) -> Result<usize, Error>
    requires rows { 0 < length context.now.shelf.names }
    requires index { index < length source.now }
    requires line { (line_at source.now index).directive ≡ Some directive }
    requires opens { opens_section directive ≡ true }
    ensures further { IfOk result (λ next. index < next) }
    ensures advances { (files : Files) (depth : ℕ)
        → UnlessOutOfMemory result (λ next. Advances (context_over context.now) files depth row source.now index state.old state.new next) }
{
    if decide(
        context,
        state,
        row,
        directive,
        &DirectiveTokens::at(source, index),
    )? {
        return Ok(index + 1);
    }
    find_branch(context, state, row, source, index)
}

/// Expands consecutive text lines and emits their tokens. Returns the index of the line after them.
fn execute_text_lines<'x>(
    profile: Profile,
    state: &mut State<'x>,
    source: &'x Source,
    index: usize,
) -> Result<usize, Error>
    requires index { index < length source.now }
    requires text { IsTextLine (line_at source.now index) }
    ensures further { IfOk result (λ next. index < next) }
    ensures text_lines { (context : Files → Context) (files : Files) (depth row : ℕ)
        → ((more : Files) → profile ≡ (context more).profile)
        → UnlessOutOfMemory result (λ next. Advances context files depth row source.now index state.old state.new next) }
{
    let end = text_end(source, index);
    emit_text(profile, state, source.tokens_between(index, end))?;
    Ok(end)
}

/// Fails with fault 7 at an unmatched quote, or else with fault 17 if an invocation waits and the line may not stand among its arguments.
fn refuse_line(alloc: Global, state: &State, line: &DirectiveLine) -> Result<(), Error>
    ensures { UnlessOutOfMemory result (λ r. result_err r ≡ line_refusal state.now (directed line.now.directive line.now.tokens line.now.number)) }
{
    refuse_unmatched_quote(alloc, &line.tokens)?;
    refuse_among_arguments(alloc, state, line)
}

/// For `#include_next`, returns the number of the directory in which the current file was found: only the directories
/// after it are searched. For `#include`, and in the main file, returns `None`.
fn previous_directory(include_next: bool, state: &State) -> Option<usize>
    ensures { result ≡ (if include_next then state.now.directory else None) }
{
    if include_next {
        state.file_context.directory
    } else {
        None
    }
}

/// Returns how a file is opened that was found for an include line, given its index and the number of its directory.
fn opening_of<D: Disk>(
    context: &UnitContext<'_, '_, D>,
    state: &State,
    line: &DirectiveLine<'_>,
    include_name: &IncludeName,
    found: (usize, usize),
) -> Result<Opening, Memory>
    ensures row { IfOk result (λ o. o.row ≡ found.0) }
    ensures opening { (files : Files) → IfOk result (λ o. opening_in context.now.shelf.names o
        ≡ opening_of (context_over context.now files) line.now.row state.now (directed line.now.directive line.now.tokens line.now.number) include_name.now found) }
{
    let (row, number) = found;
    Ok(Opening {
        row,
        directory: Some(number),
        shown: shown_name(context, state, include_name, number)?,
        system: is_system(context, state, number),
        resumption: Some(Resumption {
            row: line.row,
            last: line.number,
        }),
    })
}

/// Where execution continues: in the file `entered`, if there is one, and after it at the line at `index` of the current
/// file.
#[derive(Drop)]
struct NextLine<'x> {
    index: usize,
    entered: Option<Entered<'x>>,
}

impl<'x> Model for NextLine<'x> {
    ghost use Rattle.std.specs.Prelude.{ℕ, Option};
    ghost use Rattle.ppunit.specs.code.Opening.{Entered};

    ghost Value = { ℕ × Option Entered };

    ghost view = { λ n. (n.index, n.entered) };
}

/// Returns the line at `index` of the current file as the next line, with no file entered.
fn in_same_file<'x>(index: usize) -> NextLine<'x>
    ensures { result ≡ (index, None) }
{
    NextLine {
        index,
        entered: None,
    }
}

impl<'x, 'a: 'x, D: Disk> Preprocessor<'_, 'x, 'a, D> {
    /// Executes an include line: opens the file that it names, one level deeper. If there is a directory number, only the
    /// directories after that one are searched.
    fn include(
        &mut self,
        depth: u32,
        directory: Option<usize>,
        line: &DirectiveLine<'x>,
    ) -> Result<Option<Entered<'x>>, Error>
        requires depth { depth ≤ 200 }
        ensures keeps_context { KeepsContext self.old self.new }
        ensures includes { UnlessOutOfMemory result (λ outcome.
            Leads (context_over self.old.context.now) self.new.pass.now.files (suc depth)
            (λ (more : Files) (m : Progress).
            ExecutesInclude (context_over self.old.context.now more) depth line.now.row directory self.old.state (directed line.now.directive line.now.tokens line.now.number) m)
            self.new.state outcome) }
    {
        let context = self.context;
        let tokens = &line.tokens;
        let include_name = read_include_name(context.alloc, &mut self.state, tokens)?;
        let from = LocatedFile {
            row: line.row,
            directory,
        };
        let Some(found) = find_file(context, self.pass, from, &include_name)? else {
            let name = include_name.name.as_bytes();
            return Err(line_fault(context.alloc, 31, tokens, name));
        };
        let opening = opening_of(context, &self.state, line, &include_name, found)?;
        self.open(depth + 1, tokens.hash_place(), opening)
    }

    /// Executes a control line. Returns the file that it enters, if it enters one.
    fn execute_control_line(
        &mut self,
        depth: u32,
        line: DirectiveLine<'x>,
    ) -> Result<Option<Entered<'x>>, Error>
        requires depth { depth ≤ 200 }
        requires opens { opens_section line.directive ≡ false }
        requires ends { ends_group line.directive ≡ false }
        ensures keeps_context { KeepsContext self.old self.new }
        ensures control { UnlessOutOfMemory result (λ outcome.
            Leads (context_over self.old.context.now) self.new.pass.now.files (suc depth)
            (λ (more : Files) (m : Progress). ExecutesControlLine (context_over self.old.context.now more) depth line.entry.row self.old.state (directed line.entry.directive line.entry.tokens line.entry.number) m)
            self.new.state outcome) }
    {
        let context = self.context;
        match line.directive.class() {
            Class::Error => Err(error(context.alloc, &line.tokens)),
            Class::Ignored => Ok(None),
            Class::Includes(include_next) => {
                refuse_line(context.alloc, &self.state, &line)?;
                let directory = previous_directory(include_next, &self.state);
                self.include(depth, directory, &line)
            }
            _ => {
                refuse_line(context.alloc, &self.state, &line)?;
                control(context.alloc, &mut self.state, context.profile(), line)?;
                Ok(None)
            }
        }
    }

    /// Executes a control line. `define` is what it says if it is a `#define` line that was read before. Returns the file that it
    /// enters, if it enters one.
    fn execute_line(
        &mut self,
        depth: u32,
        line: DirectiveLine<'x>,
        define: Option<DefineLine<'x>>,
    ) -> Result<Option<Entered<'x>>, Error>
        requires depth { depth ≤ 200 }
        requires opens { opens_section line.directive ≡ false }
        requires ends { ends_group line.directive ≡ false }
        requires define { IfSome define (IsDefineLine (directed line.directive line.tokens line.number)) }
        ensures keeps_context { KeepsContext self.old self.new }
        ensures control { UnlessOutOfMemory result (λ outcome.
            Leads (context_over self.old.context.now) self.new.pass.now.files (suc depth)
            (λ (more : Files) (m : Progress). ExecutesControlLine (context_over self.old.context.now more) depth line.entry.row self.old.state (directed line.entry.directive line.entry.tokens line.entry.number) m)
            self.new.state outcome) }
    {
        // Fast path: most control lines define a macro.
        let Some(define) = define else {
            return self.execute_control_line(depth, line);
        };
        if self.state.is_waiting() {
            return self.execute_control_line(depth, line);
        }
        let context = self.context;
        define_as_read(
            context.alloc,
            &mut self.state,
            context.profile(),
            &line,
            define,
        )?;
        Ok(None)
    }

    /// Executes consecutive text lines or one directive line. Returns where execution continues.
    fn step(&mut self, depth: u32, file: &OpenFile<'x>) -> Result<NextLine<'x>, Error>
        requires depth { depth ≤ 200 }
        requires index { file.now.index < length file.now.lines }
        ensures keeps_context { KeepsContext self.old self.new }
        ensures further { IfOk result (λ next. file.now.index < next.0) }
        ensures step { UnlessOutOfMemory result (λ found.
            Steps (context_over self.old.context.now) self.new.pass.now.files depth file.now.row file.now.lines file.now.index self.old.state self.new.state found) }
    {
        let OpenFile {
            row,
            source,
            index,
            prepared,
        } = *file;
        let context = self.context;
        let Some(directive) = source.line(index).directive else {
            let end = execute_text_lines(context.profile(), &mut self.state, source, index)?;
            return Ok(in_same_file(end));
        };
        if directive.opens_section() {
            let next = execute_if_line(context, &mut self.state, row, source, directive, index)?;
            return Ok(in_same_file(next));
        }
        if directive.ends_group() {
            return Ok(in_same_file(section_end(source, index)));
        }
        let tokens = DirectiveTokens::at(source, index);
        let number = source.line(index).number;
        let directive_line = DirectiveLine {
            row,
            directive,
            tokens,
            number,
        };
        let define = prepared.define_line(index);
        let entered = self.execute_line(depth, directive_line, define)?;
        Ok(NextLine {
            index: index + 1,
            entered,
        })
    }

    /// Executes phase 4 on the lines of a file at this depth and of all files that they include, up to the first fault.
    pub(crate) fn walk(&mut self, depth: u32, first: OpenFile<'x>) -> Result<(), Error>
        requires depth { depth ≤ 200 }
        requires begins { first.index ≡ 0 }
        ensures keeps_context { KeepsContext self.old self.new }
        ensures walk { UnlessOutOfMemory result (λ r.
            Walks (context_over self.old.context.now) self.new.pass.now.files depth first.entry.row first.entry.lines self.old.state
            (record { state = self.new.state; fault = result_err r })) }
    {
        let context = self.context;
        let mut suspended = Stack::new(context.alloc);
        let mut file = first;
        loop {
            if file.index < file.source.line_count() {
                match self.step(suspended.depth() + depth, &file) {
                    Ok(next) => {
                        let NextLine { index, entered } = next;
                        file.index = index;
                        // Most lines enter no file.
                        if let Some(entered) = entered {
                            file = suspended.enter(file, entered)?;
                        }
                    }
                    Err(error) => {
                        suspended.unwind(&mut self.state);
                        return Err(error);
                    }
                }
            } else {
                if let Err(error) = refuse_at_end(context.alloc, &self.state) {
                    suspended.unwind(&mut self.state);
                    return Err(error);
                }
                let Some(outer) = suspended.pop() else {
                    return Ok(());
                };
                self.state.restore_context(outer.file_context);
                self.state.resume(outer.resumption)?;
                file = outer.file;
            }
        }
    }
}

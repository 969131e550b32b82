//! The state of phase 4 in a unit.
ghost use Rattle.std.specs.Prelude.{◌≡◌, ◌<◌, ◌+◌, pos, ◌+ℤ◌, nat_abs, IfOk, OnOk, true, false, [], ◌∷◌, ◌++◌, None, length};
ghost use Rattle.ppexpand.specs.Budget.{is_exhausted};
ghost use Rattle.ppunit.specs.States.{file_context, in_file_context, emitted, marked, resumed, running, with_system_row, with_dependency, with_once, with_macro_pushed, with_macro_popped, with_one_spent, with_waiting, named};
ghost use Rattle.ppmacro.specs.Predefined.{initial_macros};
ghost use Rattle.ppunit.specs.Unit.{initial_state, state_before};
ghost use Rattle.ppunit.specs.declared.units.Item.TheVariants as item;

use crate::collections::{Items, Rows};
use crate::shown_names::ShownName;
use crate::units::{Mark, MarkSort, Setting};
use ppexpand::{Env, FileName, Meter, Scratch, TokenList, WaitingTokens};
use ppmacro::{PushedMacros, Table};
use pptext::{Hashing, Memory, Place, Profile, Spelling, Token};
use std::alloc::Global;
use std::marker::Model;
use std::mem::replace;

/// The context of a file: the values of the predefined names in it, the number of the directory in which it was found (the
/// main file has no such number), its shown name, and whether it is a system header.
#[derive(Drop)]
pub(crate) struct FileContext<'x> {
    pub env: Env<'x>,
    pub directory: Option<usize>,
    pub shown: ShownName<'x>,
    pub system: bool,
}

/// Where a file goes on after another: its index in the file table, and the number of the physical line before the next one.
#[derive(Clone, Copy)]
pub(crate) struct Resumption {
    pub row: usize,
    pub last: u32,
}

/// The state of phase 4: the macros, the items that were emitted, the indices of the opened files in the order of their
/// first opening, those of them that are marked by `#pragma once`, the macros that `#pragma push_macro` keeps, the meter of
/// the unit, the context of the file that is being processed, the indices of the files that were system headers, and the
/// tokens of the invocation that waits for its `)`. Its model leaves out what expansions reuse, which affects no result.
#[derive(Drop)]
pub(crate) struct State<'x> {
    pub macros: Table<'x>,
    /// Whether items are kept.
    pub keeps: bool,
    pub items: Items<'x>,
    pub deps: Rows,
    pub once: Rows,
    pub pushed: PushedMacros<'x>,
    pub meter: Meter,
    pub file_context: FileContext<'x>,
    pub system_rows: Rows,
    /// The tokens of a macro invocation without its `)`, between whose arguments there are directives.
    pub waiting: WaitingTokens<'x>,
    pub scratch: Scratch<'x>,
}

impl<'x> Model for State<'x> {
    ghost use Rattle.ppunit.specs.States.{State};

    ghost Value = { State };

    ghost use Rattle.std.specs.Prelude.{[]};
    ghost use Rattle.std.specs.Coded.{codes, coded_list, coded_ℕ};
    ghost use Rattle.std.specs.Ordering.{nat_cmp};
    ghost use Rattle.std.specs.Cmp.Lexicographic.{slice_cmp};
    ghost use Rattle.std.specs.FinMap as table;
    ghost use Rattle.ppmacro.specs.contracts.macros.Macro as macro_contract;
    ghost use mir.Syntax.{named};

    ghost coded = { Prim.hlevel (codes, table.code {R = slice_cmp nat_cmp} (coded_list coded_ℕ) ((macro_contract.the_row (record { mir = named 1; lft = [] })).coded)) };

    ghost view = { λ s. record {
      macros = s.macros.macros;
      keeps = s.keeps;
      items = s.items;
      deps = s.deps;
      once = s.once;
      pushed = s.pushed;
      meter = s.meter;
      env = s.file_context.env;
      directory = s.file_context.directory;
      shown = s.file_context.shown;
      system = s.file_context.system;
      system_rows = s.system_rows;
      waiting = s.waiting;
    } };
}

impl<'x> State<'x> {
    /// Creates a state that has the predefined names and no items, and keeps items if `keeps`. Macro names are hashed by `hashing`.
    pub(crate) fn new(
        alloc: Global,
        setting: &Setting,
        hashing: Hashing,
        keeps: bool,
    ) -> Result<State<'x>, Memory>
        ensures { IfOk result (λ s. s ≡ state_before keeps setting.now) }
    {
        let macros = initial_macros(alloc, setting.profile, hashing)?;
        let env = initial_env(alloc, setting)?;
        let scratch = Scratch::new(alloc, hashing)?;
        Ok(State::initial(macros, Meter::new(setting.budget), env, scratch, keeps))
    }

    /// Creates a state with no items and no opened files.
    fn initial(
        macros: Table<'x>,
        meter: Meter,
        env: Env<'x>,
        scratch: Scratch<'x>,
        keeps: bool,
    ) -> State<'x>
        ensures { result ≡ record { macros = macros.entry.macros; keeps = keeps; items = []; deps = []; once = []; pushed = []; meter = meter; env = env.entry; directory = None; shown = []; system = false; system_rows = []; waiting = [] } }
    {
        let mut scratch = scratch;
        let alloc = scratch.alloc();
        let waiting = WaitingTokens::of(scratch.list());
        State {
            macros,
            keeps,
            items: Items::new(alloc),
            deps: Rows::new(alloc),
            once: Rows::new(alloc),
            pushed: PushedMacros::new(alloc),
            meter,
            file_context: FileContext {
                env,
                directory: None,
                shown: ShownName::of(b"", None),
                system: false,
            },
            system_rows: Rows::new(alloc),
            waiting,
            scratch,
        }
    }

    /// Enters a file with the context `inner`. Returns the context of the including file.
    pub(crate) fn enter(&mut self, inner: FileContext<'x>) -> FileContext<'x>
        ensures outer { result ≡ file_context self.old }
        ensures inner { self.new ≡ in_file_context inner.entry self.old }
    {
        replace(&mut self.file_context, inner)
    }

    /// Returns to a file with the context `outer`.
    pub(crate) fn restore_context(&mut self, outer: FileContext<'x>)
        ensures { self.new ≡ in_file_context outer.entry self.old }
    {
        self.file_context = outer;
    }

    /// Gives the current file, from its first line on, this presumed name.
    pub(crate) fn set_name(&mut self, name: &'x [u8])
        ensures { self.new ≡ named self.old name.now }
    {
        self.file_context.env.name = FileName::of_file(name);
        self.file_context.env.shift = 0;
    }

    /// Notes that the file at index `row` is a system header from here on, if it is one.
    pub(crate) fn note_system(&mut self, is_system: bool, row: usize) -> Result<(), Memory>
        ensures { OnOk result (self.new ≡ with_system_row is_system self.old row) }
    {
        if !is_system {
            return Ok(());
        }
        self.system_rows.join(row)
    }

    /// Emits a mark of the line after the physical line `last` of the file at index `row`.
    pub(crate) fn emit_mark(&mut self, sort: MarkSort, row: usize, last: u32) -> Result<(), Memory>
        ensures { OnOk result (self.new ≡ marked self.old sort row last) }
    {
        if !self.keeps {
            return Ok(());
        }
        let literal = self.file_context.env.name.literal(self.scratch.alloc())?;
        let mark = Mark {
            sort,
            row,
            physical: last as usize + 1,
            line: presumed_number(&self.file_context.env, last),
            name: Spelling::new(literal)?,
            system: self.system_rows.contains(row),
        };
        self.items.push_mark(mark)
    }

    /// Emits the mark at which an including file goes on, if there is one.
    pub(crate) fn resume(&mut self, resumption: Option<Resumption>) -> Result<(), Memory>
        ensures { OnOk result (running self.new ≡ resumed resumption (running self.old)) }
    {
        let Some(resumption) = resumption else {
            return Ok(());
        };
        self.emit_mark(MarkSort::Leave, resumption.row, resumption.last)
    }

    /// Returns whether an invocation waits for its `)`.
    pub(crate) fn is_waiting(&self) -> bool
        ensures yes { result ≡ true → 0 < length self.now.waiting }
        ensures no { result ≡ false → self.now.waiting ≡ [] }
    {
        !self.waiting.is_empty()
    }

    /// Lets the tokens of an open invocation wait, in place of those that waited before.
    pub(crate) fn keep_waiting(&mut self, tokens: TokenList<'x>)
        ensures { self.new ≡ with_waiting self.old tokens.entry }
    {
        let _before = replace(&mut self.waiting, WaitingTokens::of(tokens));
    }

    /// Emits a pragma.
    pub(crate) fn emit_pragma(&mut self, at: Place, tokens: &'x [Token]) -> Result<(), Memory>
        ensures { OnOk result (self.new ≡ emitted self.old (item.Pragma at tokens.now ∷ [])) }
    {
        if !self.keeps {
            return Ok(());
        }
        self.items.push_pragma(at, tokens)
    }

    /// Emits a pragma whose tokens were expanded.
    pub(crate) fn emit_expanded_pragma(
        &mut self,
        at: Place,
        tokens: Vec<Token>,
    ) -> Result<(), Memory>
        ensures { OnOk result (self.new ≡ emitted self.old (item.Pragma at tokens.items ∷ [])) }
    {
        if !self.keeps {
            return Ok(());
        }
        self.items.push_expanded(at, tokens)
    }

    /// Returns whether there is a budget and it is exhausted.
    pub(crate) fn is_exhausted(&self) -> bool
        ensures { result ≡ is_exhausted self.now.meter }
    {
        self.meter.is_exhausted()
    }

    /// Spends one of the budget for an opened file.
    pub(crate) fn spend(&mut self)
        ensures { self.new ≡ with_one_spent self.old }
    {
        self.meter = self.meter.spend_one();
    }

    /// Adds the file at index `row` to the dependencies, unless it is one.
    pub(crate) fn add_dependency(&mut self, row: usize) -> Result<(), Memory>
        ensures { OnOk result (self.new ≡ with_dependency self.old row) }
    {
        self.deps.join(row)
    }

    /// Marks the file at index `row` as one that isn't read again.
    pub(crate) fn mark_once(&mut self, row: usize) -> Result<(), Memory>
        ensures { OnOk result (self.new ≡ with_once self.old row) }
    {
        self.once.join(row)
    }

    /// Keeps what a name is, a macro or none.
    pub(crate) fn push_macro(&mut self, name: &'x [u8]) -> Result<(), Memory>
        ensures { OnOk result (self.new ≡ with_macro_pushed self.old name.now) }
    {
        self.pushed.push(&self.macros, name)
    }

    /// Gives a name back what it was when it was kept last, if it was.
    pub(crate) fn pop_macro(&mut self, name: &'x [u8]) -> Result<(), Memory>
        ensures { OnOk result (self.new ≡ with_macro_popped self.old name.now) }
    {
        self.pushed.pop(&mut self.macros, name)
    }
}

/// Returns the macros at the start of a unit.
fn initial_macros<'x>(
    alloc: Global,
    profile: Profile,
    hashing: Hashing,
) -> Result<Table<'x>, Memory>
    ensures { IfOk result (λ t. t.macros ≡ initial_macros profile) }
{
    let mut macros = Table::with_hasher(alloc, hashing)?;
    if let Profile::Gnu = profile {
        macros.predefine_counter()?;
    }
    Ok(macros)
}

/// Returns the predefined names before any file is entered.
fn initial_env<'x>(alloc: Global, setting: &Setting) -> Result<Env<'x>, Memory>
    ensures { IfOk result (λ e. e ≡ (initial_state setting.now).env) }
{
    let date = to_spelling(alloc, setting.date.as_str())?;
    let time = to_spelling(alloc, setting.time.as_str())?;
    Ok(Env {
        name: FileName::spelled(Spelling::empty()),
        shift: 0,
        date,
        time,
        profile: setting.profile,
    })
}

/// Returns the presumed number of the line after the physical line `last`.
fn presumed_number(env: &Env, last: u32) -> usize
    ensures { result ≡ nat_abs (pos (last + 1) +ℤ env.now.shift) }
{
    let line = i128::from(last) + 1 + i128::from(env.shift);
    line.unsigned_abs() as usize
}

/// Copies a text into a spelling.
fn to_spelling(alloc: Global, text: &str) -> Result<Spelling, Memory>
    ensures { IfOk result (λ s. s ≡ text.now) }
{
    Spelling::from_slice(alloc, text.as_bytes())
}

//! The macros that `#pragma push_macro` keeps for `#pragma pop_macro` (gcc's manual, "Push/Pop Macro Pragmas").
ghost use Rattle.std.specs.Prelude.{◌≡◌, ◌<◌, [], None, Some, OnOk, MatchOption, get_or, length};
ghost use Rattle.std.specs.List.{remove};
ghost use Rattle.std.specs.Str.{bytes_eq};
ghost use Rattle.ppmacro.specs.declared.pushed_macros.PushedMacro as spec;
ghost use Rattle.ppmacro.specs.PushedMacros.{last_of, with_pushed, macros_after_pop, pushed_after_pop};

use crate::name_key::NameKey;
use crate::prepared_macro::PreparedMacro;
use crate::tables::Table;
use pptext::Memory;
use std::alloc::Global;
use std::marker::Model;

/// A name, and the macro that it was when it was pushed, if it was one.
#[derive(Drop)]
pub struct PushedMacro<'a> {
    pub(crate) name: NameKey<'a>,
    pub(crate) definition: Option<PreparedMacro<'a>>,
}

impl PushedMacro<'_> {
    /// Returns whether it was pushed under this name.
    fn is_named(&self, name: &[u8]) -> bool
        ensures { result ≡ bytes_eq self.now.name name.now }
    {
        self.name.bytes == name
    }
}

/// The macros of a unit that were pushed. Contracts see their list, the last one at its end.
#[derive(Drop)]
pub struct PushedMacros<'a> {
    macros: Vec<PushedMacro<'a>>,
}

impl<'a> Model for PushedMacros<'a> {
    ghost use Rattle.std.specs.Prelude.{List};
    ghost use Rattle.ppmacro.specs.declared.pushed_macros.PushedMacro.{PushedMacro};

    ghost Value = { List PushedMacro };

    ghost view = { λ p. p.macros.items };
}

impl<'a> PushedMacros<'a> {
    /// Creates an empty list.
    pub fn new(alloc: Global) -> PushedMacros<'a>
        ensures { result ≡ [] }
    {
        PushedMacros {
            macros: Vec::new(alloc),
        }
    }

    /// Keeps what a name is in the table. Fails only if an allocation fails.
    pub fn push(&mut self, table: &Table<'a>, name: &'a [u8]) -> Result<(), Memory>
        ensures { OnOk result (self.new ≡ with_pushed table.now.macros name.now self.old) }
    {
        let definition = table.copy_of(name)?;
        let name = NameKey { bytes: name };
        self.macros.push(PushedMacro { name, definition })?;
        Ok(())
    }

    /// Returns the index of the last that was pushed of a name.
    fn last_index(&self, name: &[u8]) -> Option<usize>
        ensures { MatchOption result (last_of name.now self.now ≡ None)
            (λ i. (i < length self.now) × ((d : spec.PushedMacro) → last_of name.now self.now ≡ Some (get_or self.now i d, remove self.now i))) }
    {
        let mut rest = self.macros.len();
        while rest > 0 {
            rest -= 1;
            if self.macros[rest].is_named(name) {
                return Some(rest);
            }
        }
        None
    }

    /// Takes out the last that was pushed of a name, and gives the name in the table what it was then. Without one nothing changes.
    /// Fails only if an allocation fails.
    pub fn pop(&mut self, table: &mut Table<'a>, name: &'a [u8]) -> Result<(), Memory>
        ensures macros { OnOk result (table.new.macros ≡ macros_after_pop table.old.macros name.now self.old) }
        ensures pushed { self.new ≡ pushed_after_pop name.now self.old }
        ensures hashing { table.new.hashing ≡ table.old.hashing }
    {
        let Some(index) = self.last_index(name) else {
            return Ok(());
        };
        let PushedMacro { definition, .. } = self.macros.remove(index);
        table.put(name, definition)
    }
}

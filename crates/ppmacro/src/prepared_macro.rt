//! The macros of a table.
//!
//! A macro borrows the tokens of its replacement list, and mostly its definition too: a `#define` line of a file is read once for
//! all units that share the file. Only a definition that comes from elsewhere is the macro's own.
ghost use Rattle.std.specs.Prelude.{◌≡◌, ◌<◌, ℕ, IfOk, IfSome, get_or, length, map};
ghost use Rattle.std.specs.Option.{option_copied};
ghost use Rattle.ppmacro.specs.Chains.{chains_of, parameter_names};
ghost use Rattle.ppmacro.specs.PasteFree.{lone_chain, lone_tokens};
ghost use Rattle.ppmacro.specs.Patterns.{pattern_chains};
ghost use Rattle.ppmacro.specs.VaOptChains.{list_chains};
ghost use Rattle.ppmacro.specs.PreExpansion.{expansion_order};
ghost use Rattle.ppmacro.specs.Predefined.{predefined_as, counter};
ghost use Rattle.ppmacro.specs.code.PreparedDefinitions.{IsPrepared};

use crate::chains::parameter_names;
use crate::definition::{Definition, ListForm};
use crate::macros::{MacroKind, PredefinedMacro};
use crate::patterns::{PastedList, Pattern, PlainList};
use crate::va_opt_chains::VaOptList;
use pptext::{Hashing, Memory, Profile, Token};
use std::alloc::Global;
use std::marker::Model;

/// A definition that a macro borrows or has.
#[derive(Drop)]
enum DefinitionStorage<'a> {
    Shared(&'a Definition),
    Own(Box<Definition>),
}

/// The definition of a macro. Contracts see the definition.
#[derive(Drop)]
struct MacroDefinition<'a> {
    storage: DefinitionStorage<'a>,
}

impl<'a> Model for MacroDefinition<'a> {
    ghost use Rattle.ppmacro.specs.declared.definition.Definition.{Definition};
    ghost use Rattle.ppmacro.specs.declared.prepared_macro.DefinitionStorage.TheVariants.{Shared, Own};

    ghost Value = { Definition };

    ghost view = { λ d. elim d.storage [ Shared definition ↦ definition.now | Own definition ↦ definition.value ] };
}

impl<'a> MacroDefinition<'a> {
    /// Returns the definition.
    fn get(&self) -> &Definition
        ensures { result.now ≡ self.now }
    {
        match &self.storage {
            DefinitionStorage::Shared(definition) => definition,
            DefinitionStorage::Own(definition) => definition,
        }
    }

    /// Returns the definition if it is borrowed.
    fn shared(&self) -> Option<&'a Definition>
        ensures { IfSome result (λ d. d.now ≡ self.now) }
    {
        match &self.storage {
            DefinitionStorage::Shared(definition) => Some(definition),
            DefinitionStorage::Own(_) => None,
        }
    }
}

/// A macro of a table. Contracts see its kind and its replacement list.
#[derive(Drop)]
pub struct PreparedMacro<'a> {
    definition: MacroDefinition<'a>,
    body: &'a [Token],
}

impl<'a> Model for PreparedMacro<'a> {
    ghost use Rattle.ppmacro.specs.declared.macros.Macro.{Macro};
    ghost use Rattle.ppmacro.specs.code.PreparedDefinitions.{IsPrepared};

    ghost Value = { Macro };

    ghost view = { λ m. record { kind = m.definition.kind; body = m.body.now } };

    ghost invariant = { λ m. IsPrepared m.definition m.body.now };
}

impl<'a> PreparedMacro<'a> {
    /// Returns the macro that has this definition and this replacement list.
    pub(crate) fn shared(definition: &'a Definition, body: &'a [Token]) -> PreparedMacro<'a>
        requires { IsPrepared definition.now body.now }
        ensures { result ≡ record { kind = definition.now.kind; body = body.now } }
    {
        let storage = DefinitionStorage::Shared(definition);
        PreparedMacro {
            definition: MacroDefinition { storage },
            body,
        }
    }

    /// Returns the macro that has this definition, as its own, and this replacement list.
    fn own(
        alloc: Global,
        definition: Definition,
        body: &'a [Token],
    ) -> Result<PreparedMacro<'a>, Memory>
        requires { IsPrepared definition body.now }
        ensures { IfOk result (λ m. m ≡ record { kind = definition.kind; body = body.now }) }
    {
        let storage = DefinitionStorage::Own(Box::new(alloc, definition)?);
        Ok(PreparedMacro {
            definition: MacroDefinition { storage },
            body,
        })
    }

    /// Returns the macro of this kind with this replacement list. Many parameters are indexed with hash function `hashing`.
    pub(crate) fn new(
        alloc: Global,
        kind: MacroKind,
        body: &'a [Token],
        hashing: Hashing,
    ) -> Result<PreparedMacro<'a>, Memory>
        ensures { IfOk result (λ m. m ≡ record { kind = kind; body = body.now }) }
    {
        let definition = Definition::new(alloc, kind, body, hashing)?;
        PreparedMacro::own(alloc, definition, body)
    }

    /// Returns a predefined macro.
    pub(crate) fn predefined(
        alloc: Global,
        predefined: PredefinedMacro,
    ) -> Result<PreparedMacro<'a>, Memory>
        ensures { IfOk result (λ m. m ≡ predefined_as predefined) }
    {
        let kind = MacroKind::Predefined(predefined);
        PreparedMacro::new(alloc, kind, &[], Hashing::fixed())
    }

    /// Returns the macro `__COUNTER__`.
    pub(crate) fn counter(alloc: Global) -> Result<PreparedMacro<'a>, Memory>
        ensures { IfOk result (λ m. m ≡ counter) }
    {
        PreparedMacro::new(alloc, MacroKind::Counter, &[], Hashing::fixed())
    }

    /// Returns a copy. It borrows the same definition. A definition that is the macro's own is made anew, and many parameters are
    /// indexed with hash function `hashing`.
    pub(crate) fn duplicate(
        &self,
        alloc: Global,
        hashing: Hashing,
    ) -> Result<PreparedMacro<'a>, Memory>
        ensures { IfOk result (λ m. m ≡ self.now) }
    {
        let Some(definition) = self.definition.shared() else {
            let kind = self.kind().duplicate()?;
            return PreparedMacro::new(alloc, kind, self.body, hashing);
        };
        Ok(PreparedMacro::shared(definition, self.body))
    }

    /// Returns the kind.
    pub fn kind(&self) -> &MacroKind
        ensures { result.now ≡ self.now.kind }
    {
        &self.definition.get().kind
    }

    /// Returns the replacement list.
    pub fn body(&self) -> &'a [Token]
        ensures { result.now ≡ self.now.body }
    {
        self.body
    }

    /// Returns the number of parameters.
    pub fn parameter_count(&self) -> usize
        ensures { result ≡ length (parameter_names self.now.kind) }
    {
        parameter_names(self.kind()).len()
    }

    /// Returns the parameters that the replacement list uses without `#` and `##`, in the order in which their arguments are expanded.
    pub fn expansion_order(&self, profile: Profile) -> &[usize]
        ensures is { result.now ≡ expansion_order profile self.now }
        ensures within { (i : ℕ) → i < length result.now → get_or result.now i 0 < length (parameter_names self.now.kind) }
    {
        self.used_parameters(profile)
    }

    /// Returns what `expansion_order` returns, which has only parameters of the macro.
    fn used_parameters(&self, profile: Profile) -> &[usize]
        ensures { result.now ≡ expansion_order profile self.now }
    {
        let used = &self.definition.get().used;
        if profile.is_gnu() {
            used.in_order_of_use()
        } else {
            used.by_parameter.as_slice()
        }
    }

    /// Returns the replacement list of an object-like macro without `##`. Each token is a chain of its own.
    pub fn lone_tokens(&self) -> Option<&'a [Token]>
        ensures is { option_copied result ≡ lone_tokens self.now }
        ensures chains { IfSome result (λ body. chains_of self.now ≡ map lone_chain body.now) }
    {
        if self.definition.get().lone {
            Some(self.body)
        } else {
            None
        }
    }

    /// Returns the replacement list for `substitute_pattern`.
    pub fn pattern(&self) -> Pattern<'_, 'a>
        ensures { pattern_chains result ≡ list_chains self.now }
    {
        match &self.definition.get().form {
            ListForm::Plain(uses) => Pattern::Plain(PlainList::new(uses.as_slice(), self.body)),
            ListForm::Pasted(chains) => {
                Pattern::Pasted(PastedList::new(chains.as_slice(), self.body))
            }
            ListForm::VaOpt(form) => Pattern::VaOpt(VaOptList::new(form, self.body)),
        }
    }
}

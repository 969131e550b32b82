//! Makes the expansion step of a list's next token (6.10.3, 6.10.3.4).
//!
//! A step takes the next token off the list, with what belongs to it. It emits the token, replaces it in the list, returns an invocation, or
//! has a fault. The arguments of an invocation are expanded by `expansion.rt`, which then calls `finish_invocation`. So no function here
//! is recursive, and a step takes no stack while arguments are expanded.
//!
//! Each function has the name of the rule in `specs/ExpansionStep.antt` that it computes, and its contract says so. The code has the
//! number of a hide set where the rules have the set, so each contract also says that the numbers are known in `sets`, before and after.
ghost use Rattle.std.specs.Prelude.{◌≡◌, IfOk, OnOk, List, ◌∷◌, Some, None};
ghost use Rattle.std.specs.Option.{option_copied};
ghost use Rattle.std.specs.FinSet as set;
ghost use Rattle.ppmacro.specs.HideSetPool.{HideSetPool};
ghost use Rattle.ppmacro.specs.declared.hidden_token.Hidden.{Hidden};
ghost use Rattle.ppmacro.specs.HideSets.{set_at, IsKnown, HasSets, hide_of, hiding, hidings, AllKnown, KeepsSets};
ghost use Rattle.ppmacro.specs.Substituting.{ArgumentsKnown, arguments_in, tokens_of};
ghost use Rattle.ppmacro.specs.Patterns.{pattern_chains};
ghost use Rattle.ppmacro.specs.Substitution.{macro_replacement, replacement_by};
ghost use Rattle.ppexpand.specs.Arguments.{gather, separators};
ghost use Rattle.ppexpand.specs.declared.env.Env.{Env};
ghost use Rattle.ppexpand.specs.ExpansionStep.{Replaced, macro_of, replaced_by, no_arguments, predefined_value, counter_value, closed_invocation_step, invocation_step, function_step, macro_step};
ghost use Rattle.ppexpand.specs.ExpansionStep.{finish_by_parameter};
ghost use Rattle.ppexpand.specs.Budget.{refused};
ghost use Rattle.ppexpand.specs.Expansion.{step_in_budget};
ghost use Rattle.ppexpand.specs.code.Lists.{next_macro};
ghost use Rattle.ppexpand.specs.code.ProgramValues.{expanded_in, fitting_in, FittingKnown, ExpansionsKnown, invocation_in, InvocationKnown};
ghost use Rattle.ppexpand.specs.code.ProgramValues.{step_in, named_in, refused_in, ActionKnown, HasActed, charged_in, replaced_in};
ghost use Rattle.pptext.specs.Errors.{UnlessOutOfMemory};

use crate::arguments::{Gathered, fit_arguments, gather, separators};
use crate::context::Context;
use crate::env::Env;
use crate::meter::Meter;
use crate::predefined::{counter_value, predefined_value};
use crate::token_roles::{budget_fault, fault_at_expansion, is_open, is_quote, quote_fault};
use crate::token_stack::TokenStack;
use crate::vec_pool::VecPool;
use ppmacro::{
    ArgumentExpansion, Arguments, Hidden, HideSets, MacroKind, MacroName, Pattern, PredefinedMacro,
    PreparedMacro, Set, Table, Variadic, substitute_pattern,
};
use pptext::{Error, Memory, Spelling, Token};
use std::alloc::Global;

/// An invocation of a function-like macro, removed from its list.
#[derive(Drop)]
pub(crate) struct Invocation<'t, 'x, 'a> {
    /// The macro name token.
    pub(crate) name_token: Hidden<'x>,
    /// The macro.
    pub(crate) definition: &'t PreparedMacro<'a>,
    /// An argument for each parameter. An absent variable argument has no entry.
    pub(crate) arguments: Vec<Vec<Hidden<'x>>>,
    /// The intersection of the hide sets of the name and the `)`. These names and the macro's name are added to the hide set of each token of
    /// the replacement.
    pub(crate) base: Set,
}

/// The action for the next token of a list, which is removed from the list with what belongs to it.
#[derive(Drop)]
pub(crate) enum Action<'t, 'x, 'a> {
    /// There is no token.
    Done,
    /// The token is emitted unchanged.
    Emits(Hidden<'x>),
    /// The token was replaced in the list.
    Replaced,
    /// The token is `__COUNTER__`, which is to be replaced.
    Counts(Hidden<'x>),
    /// The token is to be replaced after the arguments are expanded.
    Invoked(Invocation<'t, 'x, 'a>),
}

/// The state of replacement: a pool of vectors, and the hide sets.
#[derive(Drop)]
pub(crate) struct Replacer<'x> {
    pub(crate) pool: VecPool<'x>,
    /// The hide sets of the tokens in the lists.
    pub(crate) sets: HideSets,
}

/// Returns the macro that a token names.
#[inline(always)]
pub(crate) fn macro_at<'t, 'a>(table: &'t Table<'a>, token: &Token) -> Option<&'t PreparedMacro<'a>>
    ensures { option_copied result ≡ macro_of table.now.macros token.now }
{
    if token.is_identifier() {
        table.get(token.text.as_bytes())
    } else {
        None
    }
}

/// Returns the action for an invocation whose `)` is found, or fault 18.
fn closed_invocation_step<'t, 'x, 'a: 'x>(
    alloc: Global,
    sets: &mut HideSets,
    name_token: Hidden<'x>,
    definition: &'t PreparedMacro<'a>,
    arguments: Option<Vec<Vec<Hidden<'x>>>>,
    close: &Hidden,
) -> Result<Action<'t, 'x, 'a>, Error>
    requires name_token { HasSets sets.old name_token }
    requires arguments { FittingKnown sets.old arguments }
    requires close { HasSets sets.old close.now }
    ensures is { UnlessOutOfMemory result (λ r. (rest : List Hidden) → AllKnown sets.old rest → named_in sets.new rest r
        ≡ closed_invocation_step (hiding sets.old name_token.entry) definition.now (fitting_in sets.old arguments.entry) (hiding sets.old close.now)
        (hidings sets.old rest)) }
    ensures known { IfOk result (λ n. (rest : List Hidden) → AllKnown sets.old rest → ActionKnown sets.new rest n) }
    ensures keeps { KeepsSets sets.old sets.new }
{
    let Some(arguments) = arguments else {
        return Err(fault_at_expansion(alloc, 18, &name_token));
    };
    let base = sets.common_hide_set(&name_token, close)?;
    Ok(Action::Invoked(Invocation {
        name_token,
        definition,
        arguments,
        base,
    }))
}

/// Returns the action for a macro's name if nothing remains of the budget: a name that is to be replaced is fault 35.
fn exhausted_step<'t, 'x, 'a: 'x>(
    alloc: Global,
    name_token: Hidden<'x>,
    definition: &PreparedMacro<'a>,
    list: &mut TokenStack<'x>,
) -> Result<Action<'t, 'x, 'a>, Error>
    ensures is { UnlessOutOfMemory result (λ r.
        (sets : HideSetPool) (env : Env) → refused_in sets list.new r
        ≡ refused (hiding sets name_token.entry ∷ hidings sets list.old)
        (macro_step env (hiding sets name_token.entry) (hidings sets list.old) definition.now definition.now.kind)) }
    ensures known { IfOk result (λ n. (sets : HideSetPool) → HasSets sets name_token.entry → AllKnown sets list.old → ActionKnown sets list.new n) }
{
    if matches!(definition.kind(), MacroKind::FunctionLike { .. }) {
        let Some(following) = list.next() else {
            return Ok(Action::Emits(name_token));
        };
        if !is_open(&following) {
            list.push(following)?;
            return Ok(Action::Emits(name_token));
        }
    }
    Err(budget_fault(alloc, &name_token))
}

/// Takes one from the budget for the replacement of a macro's name, even if it has a fault. A name that is emitted costs nothing.
#[inline(always)]
fn charge(meter: &mut Meter, outcome: &Result<Action, Error>)
    ensures { UnlessOutOfMemory outcome.now (λ r. meter.new ≡ charged_in r meter.old) }
{
    match outcome {
        Ok(Action::Done | Action::Emits(_) | Action::Counts(_)) => {}
        _ => *meter = meter.spend_one(),
    }
}

impl<'x> Replacer<'x> {
    /// Pushes the replacement of an invocation of the macro with this replacement list, or returns fault 19 or 20.
    ///
    /// The names of `base` and the macro's name are added to the hide set of each token.
    fn replace<'a: 'x>(
        &mut self,
        pattern: &Pattern<'_, 'a>,
        arguments: Arguments<'_, 'x>,
        base: Set,
        name_token: &Hidden,
        list: &mut TokenStack<'x>,
    ) -> Result<(), Error>
        requires arguments { ArgumentsKnown self.old.sets arguments.given.now arguments.expanded.now }
        requires base { IsKnown self.old.sets base }
        requires list { AllKnown self.old.sets list.old }
        ensures is { UnlessOutOfMemory result (λ r. replaced_in self.new.sets list.new r
            ≡ replaced_by (replacement_by (pattern_chains pattern.now) (arguments_in self.old.sets arguments.entry.given.now arguments.entry.expanded.now)
            (set.insert (set_at self.old.sets base) name_token.now.token.text) name_token.now.token.used name_token.now.token.space)
            (hidings self.old.sets list.old)) }
        ensures known { OnOk result (AllKnown self.new.sets list.new) }
        ensures keeps { KeepsSets self.old.sets self.new.sets }
    {
        let room = self.pool.list(0)?;
        let name = MacroName {
            base,
            name: name_token.text(),
            used: name_token.used(),
            space: name_token.space(),
        };
        let (mut tokens, pending) = substitute_pattern(
            room,
            pattern,
            arguments,
            &name,
            &mut self.sets,
        )?;
        list.space_next(pending);
        list.push_all(&mut tokens)?;
        self.pool.keep_list(tokens);
        Ok(())
    }

    /// Pushes the replacement of a predefined macro's name. Returns the action.
    fn predefined_step<'t, 'a: 'x>(
        &mut self,
        env: &Env,
        name_token: &Hidden<'x>,
        predefined: PredefinedMacro,
        list: &mut TokenStack<'x>,
    ) -> Result<Action<'t, 'x, 'a>, Memory>
        requires name_token { HasSets self.old.sets name_token.now }
        requires list { AllKnown self.old.sets list.old }
        ensures is { IfOk result (λ n. step_in self.new.sets list.new n
            ≡ Replaced (predefined_value predefined env.now (hiding self.old.sets name_token.now)
            (set.insert (hide_of self.old.sets name_token.now) name_token.now.token.text) ∷ hidings self.old.sets list.old)) }
        ensures known { IfOk result (λ n. ActionKnown self.new.sets list.new n) }
        ensures keeps { KeepsSets self.old.sets self.new.sets }
    {
        let names_to_hide = self.sets.with_own_name(name_token)?;
        let alloc = self.pool.alloc();
        list.push(predefined_value(alloc, predefined, env, name_token, names_to_hide)?)?;
        Ok(Action::Replaced)
    }

    /// Pushes this number, the replacement of `__COUNTER__`.
    pub(crate) fn push_number(
        &mut self,
        number: u32,
        name_token: &Hidden<'x>,
        list: &mut TokenStack<'x>,
    ) -> Result<(), Memory>
        requires name_token { HasSets self.old.sets name_token.now }
        requires list { AllKnown self.old.sets list.old }
        ensures is { OnOk result (hidings self.new.sets list.new ≡ counter_value number (hiding self.old.sets name_token.now) ∷ hidings self.old.sets list.old) }
        ensures known { OnOk result (AllKnown self.new.sets list.new) }
        ensures keeps { KeepsSets self.old.sets self.new.sets }
    {
        let names_to_hide = self.sets.with_own_name(name_token)?;
        let alloc = self.pool.alloc();
        list.push(counter_value(alloc, number, name_token, names_to_hide)?)?;
        Ok(())
    }

    /// Pushes the replacement of an object-like macro's name, or returns fault 19.
    ///
    /// The names of `base` and the macro's name are added to the hide set of each token.
    fn replace_object<'a: 'x>(
        &mut self,
        base: Set,
        name_token: &Hidden<'x>,
        definition: &PreparedMacro<'a>,
        list: &mut TokenStack<'x>,
    ) -> Result<(), Error>
        requires base { IsKnown self.old.sets base }
        requires list { AllKnown self.old.sets list.old }
        ensures is { UnlessOutOfMemory result (λ r. replaced_in self.new.sets list.new r
            ≡ replaced_by (macro_replacement definition.now no_arguments
            (set.insert (set_at self.old.sets base) name_token.now.token.text) name_token.now.token.used name_token.now.token.space)
            (hidings self.old.sets list.old)) }
        ensures known { OnOk result (AllKnown self.new.sets list.new) }
        ensures keeps { KeepsSets self.old.sets self.new.sets }
    {
        let none = Arguments {
            given: &[],
            expanded: &[],
        };
        self.replace(&definition.pattern(), none, base, name_token, list)
    }

    /// Pushes the replacement of an object-like macro's name. Returns the action, or fault 19.
    fn object_step<'t, 'a: 'x>(
        &mut self,
        name_token: &Hidden<'x>,
        definition: &PreparedMacro<'a>,
        list: &mut TokenStack<'x>,
    ) -> Result<Action<'t, 'x, 'a>, Error>
        requires name_token { HasSets self.old.sets name_token.now }
        requires list { AllKnown self.old.sets list.old }
        ensures is { UnlessOutOfMemory result (λ r. named_in self.new.sets list.new r
            ≡ replaced_by (macro_replacement definition.now no_arguments
            (set.insert (hide_of self.old.sets name_token.now) name_token.now.token.text) name_token.now.token.used name_token.now.token.space)
            (hidings self.old.sets list.old)) }
        ensures known { IfOk result (λ n. ActionKnown self.new.sets list.new n) }
        ensures keeps { KeepsSets self.old.sets self.new.sets }
    {
        let base = self.sets.hide_set_of(name_token)?;
        self.replace_object(base, name_token, definition, list)?;
        Ok(Action::Replaced)
    }

    /// Removes the rest of an invocation, after its `(`. Returns the action, which has the invocation, or fault 7, 17 or 18.
    fn invocation_step<'t, 'a: 'x>(
        &mut self,
        name_token: Hidden<'x>,
        definition: &'t PreparedMacro<'a>,
        names: &[Spelling],
        variadic: Variadic,
        list: &mut TokenStack<'x>,
    ) -> Result<Action<'t, 'x, 'a>, Error>
        requires name_token { HasSets self.old.sets name_token }
        requires list { AllKnown self.old.sets list.old }
        ensures is { UnlessOutOfMemory result (λ r. named_in self.new.sets list.new r
            ≡ invocation_step (hiding self.old.sets name_token.entry) definition.now names.now variadic
            (gather 0 (separators names.now variadic) (hidings self.old.sets list.old))) }
        ensures known { IfOk result (λ n. ActionKnown self.new.sets list.new n) }
        ensures keeps { KeepsSets self.old.sets self.new.sets }
    {
        match gather(&mut self.pool, list, separators(names, variadic))? {
            Gathered::Closed(arguments, close) => {
                let fitting = fit_arguments(self.pool.alloc(), arguments, names, variadic);
                closed_invocation_step(
                    self.pool.alloc(),
                    &mut self.sets,
                    name_token,
                    definition,
                    fitting,
                    &close,
                )
            }
            Gathered::UnmatchedQuote(quote) => Err(quote_fault(self.pool.alloc(), &quote)),
            Gathered::Unclosed => Err(fault_at_expansion(self.pool.alloc(), 17, &name_token)),
        }
    }

    /// Removes the invocation of a function-like macro's name, if `(` is next. Returns the action, which emits the name otherwise.
    fn function_step<'t, 'a: 'x>(
        &mut self,
        name_token: Hidden<'x>,
        definition: &'t PreparedMacro<'a>,
        names: &[Spelling],
        variadic: Variadic,
        list: &mut TokenStack<'x>,
    ) -> Result<Action<'t, 'x, 'a>, Error>
        requires name_token { HasSets self.old.sets name_token }
        requires list { AllKnown self.old.sets list.old }
        ensures is { UnlessOutOfMemory result (λ r. named_in self.new.sets list.new r
            ≡ function_step (hiding self.old.sets name_token.entry) definition.now names.now variadic (hidings self.old.sets list.old)) }
        ensures known { IfOk result (λ n. ActionKnown self.new.sets list.new n) }
        ensures keeps { KeepsSets self.old.sets self.new.sets }
    {
        let Some(next) = list.next() else {
            return Ok(Action::Emits(name_token));
        };
        if !is_open(&next) {
            list.push(next)?;
            return Ok(Action::Emits(name_token));
        }
        // The `(` is dropped before the step.
        drop(next);
        self.invocation_step(name_token, definition, names, variadic, list)
    }

    /// Replaces a macro's name, or removes its invocation. Returns the action, or the fault of the replacement.
    fn macro_step<'t, 'a: 'x>(
        &mut self,
        env: &Env,
        name_token: Hidden<'x>,
        definition: &'t PreparedMacro<'a>,
        list: &mut TokenStack<'x>,
    ) -> Result<Action<'t, 'x, 'a>, Error>
        requires name_token { HasSets self.old.sets name_token }
        requires list { AllKnown self.old.sets list.old }
        ensures is { UnlessOutOfMemory result (λ r. named_in self.new.sets list.new r
            ≡ macro_step env.now (hiding self.old.sets name_token.entry) (hidings self.old.sets list.old) definition.now definition.now.kind) }
        ensures known { IfOk result (λ n. ActionKnown self.new.sets list.new n) }
        ensures keeps { KeepsSets self.old.sets self.new.sets }
    {
        match definition.kind() {
            MacroKind::Predefined(predefined) => {
                Ok(self.predefined_step(env, &name_token, *predefined, list)?)
            }
            MacroKind::Counter => Ok(Action::Counts(name_token)),
            MacroKind::ObjectLike => self.object_step(&name_token, definition, list),
            MacroKind::FunctionLike {
                parameters,
                variadic,
            } => {
                let names = parameters.as_slice();
                self.function_step(name_token, definition, names, *variadic, list)
            }
        }
    }

    /// Makes the expansion step of a list: removes the next token, with what belongs to it, and returns the action for it, or a fault. The
    /// replacement of an object-like or predefined macro's name is pushed. An invocation is returned with its arguments, which are still to
    /// be expanded.
    ///
    /// `named` is the macro that the next token names, if any. A replacement takes one from the budget of `meter`, even if it has a fault.
    /// If nothing remains of the budget, a name that would be replaced is refused.
    pub(crate) fn next_step<'t, 'a: 'x>(
        &mut self,
        context: &Context<'_, 'a>,
        meter: &mut Meter,
        named: Option<&'t PreparedMacro<'a>>,
        list: &mut TokenStack<'x>,
    ) -> Result<Action<'t, 'x, 'a>, Error>
        requires named { option_copied named ≡ next_macro context.now.table.now.macros (tokens_of list.old) }
        requires known { AllKnown self.old.sets list.old }
        ensures is { UnlessOutOfMemory result (λ r. HasActed self.new.sets list.new
            (step_in_budget context.now.table.now.macros context.now.env.now meter.old (hidings self.old.sets list.old)) meter.old r meter.new) }
        ensures known { IfOk result (λ n. ActionKnown self.new.sets list.new n) }
        ensures keeps { KeepsSets self.old.sets self.new.sets }
    {
        let Some(token) = list.next() else {
            return Ok(Action::Done);
        };
        if is_quote(&token) {
            return Err(quote_fault(self.pool.alloc(), &token));
        }
        let Some(definition) = named else {
            return Ok(Action::Emits(token));
        };
        if self.sets.hides(&token) {
            return Ok(Action::Emits(token));
        }
        if meter.is_exhausted() {
            return exhausted_step(self.pool.alloc(), token, definition, list);
        }
        let outcome = self.macro_step(context.env, token, definition, list);
        charge(meter, &outcome);
        outcome
    }

    /// Pushes the replacement of an invocation whose arguments are expanded, or returns fault 19 or 20.
    #[inline(never)]
    pub(crate) fn finish_invocation<'a: 'x>(
        &mut self,
        invocation: &Invocation<'_, 'x, 'a>,
        expanded: &[ArgumentExpansion<'x>],
        list: &mut TokenStack<'x>,
    ) -> Result<(), Error>
        requires invocation { InvocationKnown self.old.sets invocation.now.name_token invocation.now.arguments.items invocation.now.base }
        requires expanded { ExpansionsKnown self.old.sets expanded.now }
        requires list { AllKnown self.old.sets list.old }
        ensures is { UnlessOutOfMemory result (λ r. replaced_in self.new.sets list.new r
            ≡ finish_by_parameter (invocation_in self.old.sets invocation.now.name_token invocation.now.definition.now invocation.now.arguments.items invocation.now.base list.old)
            (expanded_in self.old.sets invocation.now.arguments.items expanded.now)) }
        ensures known { OnOk result (AllKnown self.new.sets list.new) }
        ensures keeps { KeepsSets self.old.sets self.new.sets }
    {
        let arguments = Arguments {
            given: invocation.arguments.as_slice(),
            expanded,
        };
        self.replace(
            &invocation.definition.pattern(),
            arguments,
            invocation.base,
            &invocation.name_token,
            list,
        )
    }
}

//! Expands lists of tokens (6.10.3.4).
//!
//! A loop makes one expansion step after another, until the list ends or a step has a fault (`expand_list`). The arguments of an
//! invocation are expanded first, each as a list of its own, one level deeper. So five functions call one another, at most 256 levels deep,
//! and each level takes stack. Therefore their results are small, larger values are written through `&mut` parameters, and work that is not
//! on the path to the next level has functions of its own, which are not inlined.
//!
//! Most tokens name no macro, and most arguments expand to themselves. Fast paths take these without a step (`emit_unexpanded`,
//! `none_expands`, the prefix in `expand`). What an expansion reads (`Context`) and what it changes (`Expander`) are two structs, because a
//! method that could change the table would have to promise that it does not.
ghost use Rattle.std.specs.Prelude.{◌≡◌, ℕ, ◌<◌, ◌≤◌, ◌++◌, ◌∷◌, [], List, map, length, replicate, slice_set, true, Some, Ok, IfOk, OnOk, MatchOption, IfSome};
ghost use Rattle.std.specs.Result.{result_err, result_and};
ghost use Rattle.pptext.specs.Errors.{UnlessOutOfMemory};
ghost use Rattle.std.specs.Option.{option_copied};
ghost use Rattle.ppmacro.specs.Substituting.{tokens_of};
ghost use Rattle.ppmacro.specs.HideSets.{hiding, hidings, HasSets, AllKnown, KeepsSets};
ghost use Rattle.ppexpand.specs.ExpansionStep.{counter_value};
ghost use Rattle.ppexpand.specs.Budget.{count_on};
ghost use Rattle.ppmacro.specs.HideSetPool.{HideSetPool};
ghost use Rattle.ppmacro.specs.Substitution.{unhidden};
ghost use Rattle.ppmacro.specs.declared.hidden_token.Hidden.{Hidden};
ghost use Rattle.ppmacro.specs.declared.hidden_token.ArgumentExpansion.TheVariants.{Unused};
ghost use Rattle.ppexpand.specs.Expansion.{ExpandsTo, IsExpansion};
ghost use Rattle.ppexpand.specs.code.Lists.{NeverExpand, never_expands, next_macro};
ghost use Rattle.ppexpand.specs.code.Skipping.{HasSkipped};
ghost use Rattle.ppexpand.specs.code.ProgramValues.{expanded_in, ExpansionsKnown, invocation_in, InvocationKnown, replaced_in, owned_tokens, HasExpanded};
ghost use Rattle.ppexpand.specs.code.ProgramValues.{ExpandsInvocationArguments, ClosedStepsTo, HasStepped, HasInvoked};

use crate::context::Context;
use crate::emitted::{Emitted, MOST_KEPT};
use crate::env::Env;
use crate::expand_step::{Action, Invocation, Replacer};
use crate::lone_steps::pass_lone;
use crate::meter::Meter;
use crate::scratch::Scratch;
use crate::token_list::TokenList;
use crate::token_roles::fault_at_expansion;
use crate::token_span::{never_expands, split_unexpanded};
use crate::token_stack::{Lookahead, TokenStack};
use crate::vec_pool::VecPool;
use ppmacro::{ArgumentExpansion, Hidden, HideSets, PreparedMacro, Table, argument_of};
use pptext::{BoxedFault, Error, Hashing, Memory, Token, push};
use std::mem;

/// The largest level of a token list. A list given to `expand` is at level 0, an argument one level deeper than its invocation.
///
/// Each level takes stack. So the mutually recursive functions return small values and write results through `&mut` parameters. The
/// functions that they call are not inlined into them.
const DEEPEST: u32 = 256;

/// The number of hide sets above which they are made anew for the next expansion of a file's tokens.
const MOST_SETS: usize = 2048;

/// Emits the tokens that replacements pushed, up to the first that names a macro or is an unmatched quote. Returns the macro that this
/// token names. Returns `None` at a quote, or if no pushed token remains.
fn emit_pushed<'t, 'x, 'a>(
    table: &'t Table<'a>,
    list: &mut TokenStack<'x>,
    emitted: &mut Emitted<'x>,
) -> Result<Option<&'t PreparedMacro<'a>>, Memory>
    ensures skipped { OnOk result (HasSkipped table.now.macros list.old emitted.old list.new emitted.new) }
    ensures named { IfOk result (λ r. IfSome r (λ m. Some m.now ≡ next_macro table.now.macros (tokens_of list.new))) }
{
    loop {
        match list.next_unexpanded(table) {
            Lookahead::Emits(hidden) => emitted.push_single(hidden)?,
            Lookahead::Names(named) => return Ok(Some(named)),
            Lookahead::Unknown => return Ok(None),
        }
    }
}

/// Emits tokens from the start of the list that are neither macro names nor unmatched quotes, but not always all of them. Returns the macro that the token after them names, if
/// it names one.
#[inline(always)]
pub(crate) fn emit_unexpanded<'t, 'x, 'a>(
    table: &'t Table<'a>,
    list: &mut TokenStack<'x>,
    emitted: &mut Emitted<'x>,
) -> Result<Option<&'t PreparedMacro<'a>>, Memory>
    ensures skipped { OnOk result (HasSkipped table.now.macros list.old emitted.old list.new emitted.new) }
    ensures named { IfOk result (λ r. option_copied r ≡ next_macro table.now.macros (tokens_of list.new)) }
{
    if let Some(named) = emit_pushed(table, list, emitted)? {
        return Ok(Some(named));
    }
    let (span, named) = list.take_unexpanded(table);
    emitted.extend(span)?;
    Ok(named)
}

/// Returns true only if each token is emitted unchanged, whatever its hide set is.
#[inline(never)]
fn none_expands(table: &Table, tokens: &[Hidden]) -> bool
    ensures { result ≡ true → NeverExpand table.now.macros tokens.now }
{
    for hidden in tokens {
        if !never_expands(table, hidden.token()) {
            return false;
        }
    }
    true
}

/// Returns the vectors of an invocation's arguments to the pool.
#[inline(never)]
fn recycle_arguments<'x>(pool: &mut VecPool<'x>, invocation: &mut Option<Invocation<'_, 'x, '_>>) {
    if let Some(invocation) = invocation.take() {
        pool.keep_arguments(invocation.arguments);
    }
}

/// The state of an expansion, shared by all levels.
#[derive(Drop)]
pub(crate) struct Expander<'x> {
    /// The state of replacement.
    pub(crate) replacer: Replacer<'x>,
    pub(crate) meter: Meter,
}

/// Appends an unused expansion for each of this number of parameters.
fn push_unused(expanded: &mut Vec<ArgumentExpansion>, parameters: usize) -> Result<(), Memory>
    requires { expanded.old.items ≡ [] }
    ensures { OnOk result (expanded.new.items ≡ replicate parameters Unused) }
{
    for _parameter in 0..parameters {
        push(expanded, ArgumentExpansion::Unused)?;
    }
    Ok(())
}

/// Stores the expansion of a parameter.
fn put_expansion<'x>(
    expanded: &mut Vec<ArgumentExpansion<'x>>,
    parameter: usize,
    expansion: ArgumentExpansion<'x>,
)
    requires { parameter < length expanded.old.items }
    ensures { expanded.new.items ≡ slice_set expanded.old.items parameter expansion.entry }
{
    expanded[parameter] = expansion;
}

impl<'x> Expander<'x> {
    /// Makes the hide sets anew if there are many, or if they are hashed in another way.
    pub(crate) fn renew_sets(&mut self, hashing: Hashing) -> Result<(), Memory>
        ensures hashing { OnOk result (self.new.replacer.sets.hashing ≡ hashing) }
        ensures meter { self.new.meter ≡ self.old.meter }
    {
        let sets = &self.replacer.sets;
        if sets.len() > MOST_SETS || sets.hashing() != hashing {
            self.replacer.sets = HideSets::with_hasher(self.replacer.pool.alloc(), hashing)?;
        }
        Ok(())
    }

    /// Replaces `__COUNTER__`, which was removed from the list.
    fn replace_counter(
        &mut self,
        name_token: &Hidden<'x>,
        list: &mut TokenStack<'x>,
    ) -> Result<(), Memory>
        requires name_token { HasSets self.old.replacer.sets name_token.now }
        requires list { AllKnown self.old.replacer.sets list.old }
        ensures is { OnOk result (hidings self.new.replacer.sets list.new
            ≡ counter_value self.old.meter.counter (hiding self.old.replacer.sets name_token.now) ∷ hidings self.old.replacer.sets list.old) }
        ensures meter { OnOk result (self.new.meter ≡ count_on self.old.meter) }
        ensures known { OnOk result (AllKnown self.new.replacer.sets list.new) }
        ensures keeps { KeepsSets self.old.replacer.sets self.new.replacer.sets }
    {
        self.replacer
            .push_number(self.meter.counter, name_token, list)?;
        self.meter = self.meter.count_on();
        Ok(())
    }

    /// Begins an expansion step of a list. `named` is the macro that the next token names, if any. Returns whether the expansion of the
    /// list continues, or the fault that stops it.
    ///
    /// Appends emitted tokens to `emitted` and removes the processed tokens from `list`. An invocation of a function-like macro is only put in
    /// `invocation`: its arguments are still to be expanded. Otherwise `invocation` becomes `None`.
    #[inline(never)]
    fn begin_step<'t, 'a: 'x>(
        &mut self,
        context: &Context<'t, 'a>,
        named: Option<&'t PreparedMacro<'a>>,
        list: &mut TokenStack<'x>,
        emitted: &mut Emitted<'x>,
        invocation: &mut Option<Invocation<'t, 'x, 'a>>,
    ) -> Result<bool, Error>
        requires named { option_copied named ≡ next_macro context.now.table.now.macros (tokens_of list.old) }
        requires list_known { AllKnown self.old.replacer.sets list.old }
        requires emitted_known { AllKnown self.old.replacer.sets emitted.old }
        ensures progress { UnlessOutOfMemory result (λ r. MatchOption invocation.new
            ((level : ℕ) → HasStepped context.now.table.now.macros context.now.env.now level self.old.meter (hidings self.old.replacer.sets list.old)
            (hidings self.old.replacer.sets emitted.old) r self.new.meter (hidings self.new.replacer.sets list.new) (hidings self.new.replacer.sets emitted.new))
            (λ c. HasInvoked context.now.table.now.macros context.now.env.now self.old.meter (hidings self.old.replacer.sets list.old)
            (hidings self.old.replacer.sets emitted.old) (invocation_in self.new.replacer.sets c.name_token c.definition.now c.arguments.items c.base list.new)
            r self.new.meter (hidings self.new.replacer.sets emitted.new))) }
        ensures invocation_known { OnOk result (IfSome invocation.new (λ c. InvocationKnown self.new.replacer.sets c.name_token c.arguments.items c.base × AllKnown self.new.replacer.sets list.new)) }
        ensures list_known { IfOk result (λ continues. continues ≡ true → AllKnown self.new.replacer.sets list.new) }
        ensures emitted_known { OnOk result (AllKnown self.new.replacer.sets emitted.new) }
        ensures keeps { KeepsSets self.old.replacer.sets self.new.replacer.sets }
    {
        *invocation = None;
        let action = self
            .replacer
            .next_step(context, &mut self.meter, named, list)?;
        match action {
            Action::Done => Ok(false),
            Action::Emits(token) => {
                emitted.push_single(token)?;
                Ok(true)
            }
            Action::Replaced => Ok(true),
            Action::Counts(token) => {
                self.replace_counter(&token, list)?;
                Ok(true)
            }
            Action::Invoked(found) => {
                *invocation = Some(found);
                Ok(true)
            }
        }
    }

    /// Expands an argument. Raises fault 21 if it is nested too deep, and otherwise the first fault of its expansion.
    #[cycle(expansion)]
    fn expand_argument<'a: 'x>(
        &mut self,
        context: &Context<'_, 'a>,
        name_token: &Hidden<'x>,
        argument: &[Hidden<'x>],
    ) -> Result<ArgumentExpansion<'x>, Error>
        requires level { context.now.level ≤ 256 }
        requires hashing { self.old.replacer.sets.hashing ≡ context.now.table.now.hashing }
        requires known { AllKnown self.old.replacer.sets argument.now }
        ensures is { UnlessOutOfMemory result (HasExpanded context.now.table.now.macros context.now.env.now context.now.level name_token.now.token
            self.old.meter self.new.meter self.old.replacer.sets self.new.replacer.sets argument.now) }
        ensures known { IfOk result (λ e. AllKnown self.new.replacer.sets (owned_tokens e)) }
        ensures keeps { KeepsSets self.old.replacer.sets self.new.replacer.sets }
    {
        if context.level >= DEEPEST {
            return Err(fault_at_expansion(self.replacer.pool.alloc(), 21, name_token));
        }
        // Fast path: most arguments name no macro, and expand to themselves.
        if none_expands(context.table, argument) {
            return Ok(ArgumentExpansion::AsGiven);
        }
        let pushed = self.replacer.pool.list(argument.len())?;
        let mut list = TokenStack::of_clones(pushed, argument, self.replacer.sets.empty())?;
        // Most arguments expand to about as many tokens as they have.
        let mut emitted = Emitted::over(self.replacer.pool.list(argument.len())?);
        let deeper = Context {
            table: context.table,
            env: context.env,
            level: context.level + 1,
        };
        self.expand_list(&deeper, &mut list, &mut emitted)?;
        self.replacer.pool.keep_list(list.into_pushed());
        let tokens = emitted.into_vec(self.replacer.pool.alloc())?;
        Ok(ArgumentExpansion::Owned(tokens))
    }

    /// Pre-expands the arguments that the replacement list uses without `#` and `##`, in the order of the profile, and stores the expansions in
    /// `expanded` by parameter. Stops at the first fault.
    #[cycle(expansion)]
    fn expand_arguments<'a: 'x>(
        &mut self,
        context: &Context<'_, 'a>,
        invocation: &Invocation<'_, 'x, 'a>,
        expanded: &mut Vec<ArgumentExpansion<'x>>,
    ) -> Result<(), Error>
        requires level { context.now.level ≤ 256 }
        requires hashing { self.old.replacer.sets.hashing ≡ context.now.table.now.hashing }
        requires known { InvocationKnown self.old.replacer.sets invocation.now.name_token invocation.now.arguments.items invocation.now.base }
        requires none { expanded.old.items ≡ [] }
        ensures is { UnlessOutOfMemory result (λ r. (following : List Hidden) → ExpandsInvocationArguments context.now.table.now.macros context.now.env.now context.now.level
            (invocation_in self.old.replacer.sets invocation.now.name_token invocation.now.definition.now invocation.now.arguments.items invocation.now.base following) self.old.meter self.new.meter
            (result_and r (Ok (expanded_in self.new.replacer.sets invocation.now.arguments.items expanded.new.items)))) }
        ensures known { OnOk result (ExpansionsKnown self.new.replacer.sets expanded.new.items) }
        ensures keeps { KeepsSets self.old.replacer.sets self.new.replacer.sets }
    {
        push_unused(expanded, invocation.definition.parameter_count())?;
        let order = invocation.definition.expansion_order(context.env.profile);
        for &parameter in order {
            let name_token = &invocation.name_token;
            let tokens = argument_of(invocation.arguments.as_slice(), parameter);
            let expansion = self.expand_argument(context, name_token, tokens)?;
            put_expansion(expanded, parameter, expansion);
        }
        Ok(())
    }

    /// Replaces an invocation, after its arguments are expanded, and pushes the result onto the rest of its list. Stops at the first fault.
    #[cycle(expansion)]
    fn replace_invocation<'a: 'x>(
        &mut self,
        context: &Context<'_, 'a>,
        invocation: &Invocation<'_, 'x, 'a>,
        list: &mut TokenStack<'x>,
    ) -> Result<(), Error>
        requires level { context.now.level ≤ 256 }
        requires hashing { self.old.replacer.sets.hashing ≡ context.now.table.now.hashing }
        requires invocation_known { InvocationKnown self.old.replacer.sets invocation.now.name_token invocation.now.arguments.items invocation.now.base }
        requires list_known { AllKnown self.old.replacer.sets list.old }
        ensures is { UnlessOutOfMemory result (λ r. ClosedStepsTo context.now.table.now.macros context.now.env.now context.now.level
            (invocation_in self.old.replacer.sets invocation.now.name_token invocation.now.definition.now invocation.now.arguments.items invocation.now.base list.old) self.old.meter self.new.meter
            (replaced_in self.new.replacer.sets list.new r)) }
        ensures known { OnOk result (AllKnown self.new.replacer.sets list.new) }
        ensures keeps { KeepsSets self.old.replacer.sets self.new.replacer.sets }
    {
        let mut expanded = self.replacer.pool.expansions();
        self.expand_arguments(context, invocation, &mut expanded)?;
        let replaced = self
            .replacer
            .finish_invocation(invocation, expanded.as_slice(), list);
        self.replacer.pool.keep_expansions(expanded);
        replaced
    }

    /// Makes one expansion step of a list, including the arguments of an invocation. `named` is the macro that the next token names, if
    /// any. Returns whether the expansion of the list continues, or the fault that stops it.
    ///
    /// Appends emitted tokens to `emitted` and removes the processed tokens from `list`. `invocation` is an out-parameter, so that its value
    /// is in the caller's frame.
    #[cycle(expansion)]
    pub(crate) fn advance<'t, 'a: 'x>(
        &mut self,
        context: &Context<'t, 'a>,
        named: Option<&'t PreparedMacro<'a>>,
        list: &mut TokenStack<'x>,
        emitted: &mut Emitted<'x>,
        invocation: &mut Option<Invocation<'t, 'x, 'a>>,
    ) -> Result<bool, Error>
        requires level { context.now.level ≤ 256 }
        requires hashing { self.old.replacer.sets.hashing ≡ context.now.table.now.hashing }
        requires named { option_copied named ≡ next_macro context.now.table.now.macros (tokens_of list.old) }
        requires list_known { AllKnown self.old.replacer.sets list.old }
        requires emitted_known { AllKnown self.old.replacer.sets emitted.old }
        ensures progress { UnlessOutOfMemory result (λ r.
            HasStepped context.now.table.now.macros context.now.env.now context.now.level self.old.meter (hidings self.old.replacer.sets list.old)
            (hidings self.old.replacer.sets emitted.old) r self.new.meter (hidings self.new.replacer.sets list.new) (hidings self.new.replacer.sets emitted.new)) }
        ensures list_known { IfOk result (λ continues. continues ≡ true → AllKnown self.new.replacer.sets list.new) }
        ensures emitted_known { OnOk result (AllKnown self.new.replacer.sets emitted.new) }
        ensures keeps { KeepsSets self.old.replacer.sets self.new.replacer.sets }
    {
        let continues = self.begin_step(context, named, list, emitted, invocation)?;
        let Some(found) = &*invocation else {
            return Ok(continues);
        };
        self.replace_invocation(context, found, list)?;
        recycle_arguments(&mut self.replacer.pool, invocation);
        Ok(true)
    }

    /// Expands a list, and appends the emitted tokens to `emitted`, even those before a fault.
    #[cycle(expansion)]
    fn expand_list<'a: 'x>(
        &mut self,
        context: &Context<'_, 'a>,
        list: &mut TokenStack<'x>,
        emitted: &mut Emitted<'x>,
    ) -> Result<(), Error>
        requires level { context.now.level ≤ 256 }
        requires hashing { self.old.replacer.sets.hashing ≡ context.now.table.now.hashing }
        requires known { AllKnown self.old.replacer.sets list.old }
        requires none { emitted.old ≡ [] }
        ensures outcome { UnlessOutOfMemory result (λ r. ExpandsTo context.now.table.now.macros context.now.env.now context.now.level self.old.meter (hidings self.old.replacer.sets list.old)
            (record { tokens = hidings self.new.replacer.sets emitted.new; fault = result_err r; meter = self.new.meter })) }
        ensures known { OnOk result (AllKnown self.new.replacer.sets emitted.new) }
        ensures keeps { KeepsSets self.old.replacer.sets self.new.replacer.sets }
    {
        loop {
            // Fast path: most steps need no arguments.
            let named = pass_lone(
                context,
                &mut self.replacer.sets,
                &mut self.meter,
                list,
                emitted,
            )?;
            if list.is_empty() {
                return Ok(());
            }
            // The invocation is dropped at the end of the step.
            let continues = {
                let mut invocation = None;
                self.advance(context, named, list, emitted, &mut invocation)
            };
            if !continues? {
                return Ok(());
            }
        }
    }
}

/// The result of an expansion. The emitted tokens are the prefix and then the tokens of the scratch.
#[derive(Drop)]
pub struct Expanded<'x> {
    /// The tokens of the list before the first that names a macro or is an unmatched quote.
    pub prefix: &'x [Token],
    /// The fault that stopped the expansion, if any.
    pub fault: Option<BoxedFault>,
}

/// Keeps a vector for the stack of the next expansion, unless it is large.
pub(crate) fn keep_stack<'x>(stack: &mut Vec<Hidden<'x>>, pushed: Vec<Hidden<'x>>) {
    if pushed.capacity() <= MOST_KEPT {
        *stack = pushed;
    }
}

/// Expands the tokens of `stack` and then tokens of a file, with empty hide sets at first, and appends the emitted tokens to `emitted`. The
/// vector of `stack` is kept for the next expansion.
///
/// Returns the fault that stopped the expansion, if any.
fn expand_tokens<'x, 'a: 'x>(
    expander: &mut Expander<'x>,
    stack: &mut Vec<Hidden<'x>>,
    context: &Context<'_, 'a>,
    meter: &mut Meter,
    tokens: &'x [Token],
    emitted: &mut Emitted<'x>,
) -> Result<Option<BoxedFault>, Memory>
    requires level { context.now.level ≡ 0 }
    requires none { emitted.old ≡ [] }
    ensures { IfOk result (λ r. (sets : HideSetPool) × ExpandsTo context.now.table.now.macros context.now.env.now 0 meter.old (map unhidden (tokens_of stack.old.items ++ tokens.now))
        (record { tokens = hidings sets emitted.new; fault = r; meter = meter.new })) }
{
    expander.meter = *meter;
    expander.renew_sets(context.table.hashing())?;
    let pushed = mem::replace(stack, Vec::new(*stack.allocator()));
    let mut list = TokenStack::over(pushed, tokens, expander.replacer.sets.empty());
    let mut unclosed = Vec::new(expander.replacer.pool.alloc());
    let outcome = expander.expand_leaving_open(context, false, &mut list, emitted, &mut unclosed);
    *meter = expander.meter;
    keep_stack(stack, list.into_pushed());
    match outcome {
        Ok(()) => Ok(None),
        Err(Error::Fault(fault)) => Ok(Some(fault)),
        Err(Error::Memory) => Err(Memory),
    }
}

/// Expands tokens of a file. The emitted tokens are those of the scratch. Returns the fault that stopped the expansion, if any.
#[inline(never)]
fn expand_rest<'x, 'a: 'x>(
    context: &Context<'_, 'a>,
    meter: &mut Meter,
    tokens: &'x [Token],
    scratch: &mut Scratch<'x>,
) -> Result<Option<BoxedFault>, Memory>
    requires { context.now.level ≡ 0 }
    ensures { IfOk result (λ r. IsExpansion context.now.table.now.macros context.now.env.now meter.old tokens.now
        (record { tokens = scratch.new; fault = r; meter = meter.new })) }
{
    scratch.emitted.clear();
    scratch.stack.clear();
    let fault = expand_tokens(
        &mut scratch.expander,
        &mut scratch.stack,
        context,
        meter,
        tokens,
        &mut scratch.emitted,
    )?;
    Ok(fault)
}

/// Expands a list of which some tokens are of no file, as `expand` does. The emitted tokens are those of the scratch. Returns the fault that
/// stopped the expansion, if any.
///
/// # Errors
///
/// Returns `Memory` if an allocation fails.
pub fn expand_list<'x, 'a: 'x>(
    table: &Table<'a>,
    env: &Env,
    meter: &mut Meter,
    list: TokenList<'x>,
    scratch: &mut Scratch<'x>,
) -> Result<Option<BoxedFault>, Memory>
    ensures { IfOk result (λ r. IsExpansion table.now.macros env.now meter.old list.entry (record { tokens = scratch.new; fault = r; meter = meter.new })) }
{
    let context = Context {
        table,
        env,
        level: 0,
    };
    scratch.emitted.clear();
    let mut stack = list.into_tokens();
    let fault = expand_tokens(
        &mut scratch.expander,
        &mut stack,
        &context,
        meter,
        Default::default(),
        &mut scratch.emitted,
    )?;
    scratch.stack = stack;
    Ok(fault)
}

/// Expands a list of tokens: replaces each macro name, and rescans the replacement together with the tokens after it (6.10.3.4). A token
/// whose name is in its own hide set is not replaced.
///
/// The budget of `meter` is the number of replacements that may be made; `None` means no limit. Each name of an object-like or predefined
/// macro that is replaced takes one from it. So does each invocation of a function-like macro, before its arguments are expanded and even if
/// it has a fault. One more replacement is fault 35 at the expansion location of the name.
///
/// The tokens emitted before a fault are kept. Fault 7, an unmatched quote, is at the spelling location of the quote. The other faults are
/// at the expansion location of the macro name:
///
/// - 17: an invocation without its `)`;
/// - 18: a wrong number of arguments (in GNU C the variable argument may be absent);
/// - 19: `##` of two tokens that do not form a token;
/// - 20: `#` of an argument that does not form a string literal;
/// - 21: an argument to be expanded that is nested more than 256 levels deep.
///
/// # Errors
///
/// Returns `Memory` if an allocation fails.
pub fn expand<'x, 'a: 'x>(
    table: &Table<'a>,
    env: &Env,
    meter: &mut Meter,
    tokens: &'x [Token],
    scratch: &mut Scratch<'x>,
) -> Result<Expanded<'x>, Memory>
    ensures { IfOk result (λ e. IsExpansion table.now.macros env.now meter.old tokens.now (record { tokens = e.prefix.now ++ scratch.new; fault = e.fault; meter = meter.new })) }
{
    let (prefix, rest) = split_unexpanded(table, tokens);
    if rest.is_empty() {
        scratch.clear();
        return Ok(Expanded {
            prefix,
            fault: None,
        });
    }
    let context = Context {
        table,
        env,
        level: 0,
    };
    let fault = expand_rest(&context, meter, rest, scratch)?;
    Ok(Expanded { prefix, fault })
}

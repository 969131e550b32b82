//! Expands a list, and finds the invocation that is open where fault 17 stops the expansion (6.10.3p11).
//!
//! The steps are those of `expand`. Before each step of a function-like macro's name, the tokens up to the `)` of its invocation are looked
//! at, and put back. If there is no `)`, they are copied first. So this takes longer than `expand`, but still linear time.
ghost use Rattle.std.specs.Prelude.{◌≡◌, ◌+◌, ◌++◌, ◌<◌, ◌≤◌, ◌^◌, [], map, true, IfOk, IfSome, OnOk, if◌then◌else◌};
ghost use Rattle.std.specs.Result.{result_err};
ghost use Rattle.std.specs.Option.{option_copied};
ghost use Rattle.pptext.specs.Errors.{UnlessOutOfMemory};
ghost use Rattle.ppmacro.specs.Names.{Macros};
ghost use Rattle.ppmacro.specs.HideSetPool.{HideSetPool};
ghost use Rattle.ppmacro.specs.HideSets.{hiding, hidings, HasSets, AllKnown, KeepsSets};
ghost use Rattle.ppmacro.specs.Substituting.{tokens_of};
ghost use Rattle.ppmacro.specs.Substitution.{unhidden};
ghost use Rattle.ppexpand.specs.Budget.{is_exhausted};
ghost use Rattle.ppexpand.specs.Expansion.{IsExpansion};
ghost use Rattle.ppexpand.specs.OpenInvocations.{hides_nothing, open_tokens, open_expansion};
ghost use Rattle.ppexpand.specs.code.Lists.{next_macro};
ghost use Rattle.ppexpand.specs.code.OpenSearch.{role_value, depth_after, open_inside, opens_after_name, ExpandsLeavingOpen};

use crate::context::Context;
use crate::emitted::Emitted;
use crate::env::Env;
use crate::expansion::{Expander, keep_stack};
use crate::lists::put_clones;
use crate::lone_steps::pass_lone;
use crate::meter::Meter;
use crate::scratch::Scratch;
use crate::token_list::TokenList;
use crate::token_roles::{ArgumentRole, argument_role, is_open};
use crate::token_stack::TokenStack;
use ppmacro::{Hidden, HideSets, MacroKind, PreparedMacro, Table};
use pptext::{BoxedFault, Error, Memory, push};
use std::alloc::Global;
use std::mem;

/// Returns whether the hide set of a token is empty.
fn hides_nothing(sets: &HideSets, hidden: &Hidden) -> bool
    requires { HasSets sets.now hidden.now }
    ensures { result ≡ hides_nothing (hiding sets.now hidden.now) }
{
    let empty = sets.empty();
    sets.sets_are_unique();
    if hidden.hide() != empty {
        return false;
    }
    match hidden.extra() {
        Some(extra) => extra == empty,
        None => true,
    }
}

/// Returns the number of parentheses around the tokens after one with this role, inside the `(` of an invocation. Returns `None` for the `)`
/// of the invocation and for an unmatched quote.
pub(crate) fn depth_after(role: ArgumentRole, depth: usize) -> Option<usize>
    requires { depth + 1 < 2 ^ 64 }
    ensures is { result ≡ depth_after (role_value role) depth }
    ensures within { IfSome result (λ after. after ≤ depth + 1) }
{
    match role {
        ArgumentRole::Quote => None,
        ArgumentRole::Open => Some(depth + 1),
        ArgumentRole::Close => depth.checked_sub(1),
        ArgumentRole::Comma => Some(depth),
        ArgumentRole::Inner => Some(depth),
    }
}

/// Moves the tokens after the `(` of an invocation to `taken`, up to the first that is the matching `)`, an unmatched quote, or made by a
/// replacement. Returns whether there is no such token.
fn take_inside<'x>(
    sets: &HideSets,
    list: &mut TokenStack<'x>,
    taken: &mut Vec<Hidden<'x>>,
) -> Result<bool, Memory>
    requires { AllKnown sets.now list.old }
    ensures laid_out { OnOk result (taken.new.items ++ list.new ≡ taken.old.items ++ list.old) }
    ensures is { IfOk result (λ stays. stays ≡ open_inside 0 (hidings sets.now list.old)) }
    ensures all { IfOk result (λ stays. stays ≡ true → list.new ≡ []) }
{
    let mut depth: usize = 0;
    while let Some(hidden) = list.next() {
        let own = hides_nothing(sets, &hidden);
        let next = depth_after(argument_role(&hidden), depth);
        push(taken, hidden)?;
        if !own {
            return Ok(false);
        }
        let Some(next) = next else {
            return Ok(false);
        };
        depth = next;
    }
    Ok(true)
}

/// Moves a name and the tokens of its invocation to `taken`, up to the first that ends it. Returns whether the invocation is open.
fn take_invocation<'x>(
    sets: &HideSets,
    list: &mut TokenStack<'x>,
    taken: &mut Vec<Hidden<'x>>,
) -> Result<bool, Memory>
    requires known { AllKnown sets.now list.old }
    requires none { taken.old.items ≡ [] }
    ensures laid_out { OnOk result (taken.new.items ++ list.new ≡ list.old) }
    ensures is { IfOk result (λ stays. stays ≡ opens_after_name (hidings sets.now list.old)) }
    ensures all { IfOk result (λ stays. stays ≡ true → list.new ≡ []) }
{
    let Some(name_token) = list.next() else {
        return Ok(false);
    };
    push(taken, name_token)?;
    let Some(paren) = list.next() else {
        return Ok(false);
    };
    let opens = is_open(&paren);
    let own = hides_nothing(sets, &paren);
    push(taken, paren)?;
    if !opens {
        return Ok(false);
    }
    if !own {
        return Ok(false);
    }
    take_inside(sets, list, taken)
}

/// Returns copies of the tokens of a list that stays open after its first token, and otherwise no tokens.
fn copy_if_open<'x>(
    alloc: Global,
    sets: &HideSets,
    list: &mut TokenStack<'x>,
) -> Result<Vec<Hidden<'x>>, Memory>
    requires { AllKnown sets.now list.old }
    ensures same { OnOk result (list.new ≡ list.old) }
    ensures is { IfOk result (λ copy. copy.items ≡ (if opens_after_name (hidings sets.now list.old) then list.old else [])) }
{
    let mut taken = Vec::new(alloc);
    let mut copy = Vec::new(alloc);
    if take_invocation(sets, list, &mut taken)? {
        put_clones(&mut copy, taken.as_slice())?;
    }
    list.push_all(&mut taken)?;
    Ok(copy)
}

/// Returns copies of the tokens of a list that begins with an open invocation, if something remains of the budget, and otherwise no tokens.
/// `named` is the macro that the next token names, if any. If `looks` is false, returns no tokens.
fn copy_open_invocation<'x>(
    looks: bool,
    alloc: Global,
    sets: &HideSets,
    meter: Meter,
    named: Option<&PreparedMacro>,
    list: &mut TokenStack<'x>,
) -> Result<Vec<Hidden<'x>>, Memory>
    requires { AllKnown sets.now list.old }
    ensures same { OnOk result (list.new ≡ list.old) }
    ensures is { IfOk result (λ copy. looks ≡ true → (macros : Macros) → option_copied named.entry ≡ next_macro macros (tokens_of list.old)
        → tokens_of copy.items ≡ (if is_exhausted meter then [] else open_tokens macros (hidings sets.now list.old))) }
{
    if !looks {
        return Ok(Vec::new(alloc));
    }
    let Some(definition) = named else {
        return Ok(Vec::new(alloc));
    };
    if meter.is_exhausted() {
        return Ok(Vec::new(alloc));
    }
    if !matches!(definition.kind(), MacroKind::FunctionLike { .. }) {
        return Ok(Vec::new(alloc));
    }
    copy_if_open(alloc, sets, list)
}

impl<'x> Expander<'x> {
    /// Expands a list as `expand_list` does, and appends the emitted tokens to `emitted`. If `looks` is true, `unclosed` becomes the tokens of the
    /// invocation that is open when a fault stops the expansion. This is for lists that are no arguments: `expand_list` has no other caller
    /// than the expansion of an argument, and so takes no stack of its own.
    pub(crate) fn expand_leaving_open<'a: 'x>(
        &mut self,
        context: &Context<'_, 'a>,
        looks: bool,
        list: &mut TokenStack<'x>,
        emitted: &mut Emitted<'x>,
        unclosed: &mut Vec<Hidden<'x>>,
    ) -> Result<(), Error>
        requires level { context.now.level ≤ 256 }
        requires hashing { self.old.replacer.sets.hashing ≡ context.now.table.now.hashing }
        requires known { AllKnown self.old.replacer.sets list.old }
        requires none { emitted.old ≡ [] }
        ensures { UnlessOutOfMemory result (λ r. ExpandsLeavingOpen looks context.now.table.now.macros context.now.env.now context.now.level self.old.meter (hidings self.old.replacer.sets list.old)
            (record { tokens = hidings self.new.replacer.sets emitted.new; fault = result_err r; meter = self.new.meter }) (tokens_of unclosed.new.items)) }
    {
        loop {
            let named = pass_lone(
                context,
                &mut self.replacer.sets,
                &mut self.meter,
                list,
                emitted,
            )?;
            if list.is_empty() {
                unclosed.clear();
                return Ok(());
            }
            *unclosed = copy_open_invocation(
                looks,
                self.replacer.pool.alloc(),
                &self.replacer.sets,
                self.meter,
                named,
                list,
            )?;
            // The invocation is dropped at the end of the step.
            let continues = {
                let mut invocation = None;
                self.advance(context, named, list, emitted, &mut invocation)
            };
            if !continues? {
                unclosed.clear();
                return Ok(());
            }
        }
    }
}

/// The result of an expansion that may leave an invocation open. The emitted tokens are those of the scratch.
#[derive(Drop)]
pub struct OpenExpansion<'x> {
    /// The fault that stopped the expansion, if any.
    pub fault: Option<BoxedFault>,
    /// The tokens of the invocation that is open, if the fault is 17 and no replacement made its `(`.
    pub unclosed: TokenList<'x>,
}

/// Expands the tokens of `stack`, with empty hide sets at first, and appends the emitted tokens to `emitted`. `unclosed` becomes the tokens of the
/// invocation that is left open. The vector of `stack` is kept for the next expansion.
///
/// Returns the fault that stopped the expansion, if any.
fn expand_stack<'x, 'a: 'x>(
    expander: &mut Expander<'x>,
    stack: &mut Vec<Hidden<'x>>,
    context: &Context<'_, 'a>,
    meter: &mut Meter,
    emitted: &mut Emitted<'x>,
    unclosed: &mut Vec<Hidden<'x>>,
) -> Result<Option<BoxedFault>, Memory>
    requires level { context.now.level ≡ 0 }
    requires none { emitted.old ≡ [] }
    ensures { IfOk result (λ r. (sets : HideSetPool) × ExpandsLeavingOpen true context.now.table.now.macros context.now.env.now 0 meter.old
        (map unhidden (tokens_of stack.old.items))
        (record { tokens = hidings sets emitted.new; fault = r; meter = meter.new }) (tokens_of unclosed.new.items)) }
{
    expander.meter = *meter;
    expander.renew_sets(context.table.hashing())?;
    let pushed = mem::replace(stack, Vec::new(*stack.allocator()));
    let mut list = TokenStack::over(pushed, Default::default(), expander.replacer.sets.empty());
    let outcome = expander.expand_leaving_open(context, true, &mut list, emitted, unclosed);
    *meter = expander.meter;
    keep_stack(stack, list.into_pushed());
    match outcome {
        Ok(()) => Ok(None),
        Err(Error::Fault(fault)) => Ok(Some(fault)),
        Err(Error::Memory) => Err(Memory),
    }
}

/// Expands a list of tokens as `expand_list` does. The emitted tokens are those of the scratch. Also returns the tokens of the invocation that
/// fault 17 leaves open, if no replacement made its `(`: they can be expanded again together with the tokens after the list.
///
/// # Errors
///
/// Returns `Memory` if an allocation fails.
pub fn expand_open<'x, 'a: 'x>(
    table: &Table<'a>,
    env: &Env,
    meter: &mut Meter,
    list: TokenList<'x>,
    scratch: &mut Scratch<'x>,
) -> Result<OpenExpansion<'x>, Memory>
    ensures { IfOk result (λ e. (x : IsExpansion table.now.macros env.now meter.old list.entry (record { tokens = scratch.new; fault = e.fault; meter = meter.new }))
        × (e.unclosed ≡ open_expansion x)) }
{
    let context = Context {
        table,
        env,
        level: 0,
    };
    scratch.emitted.clear();
    let mut stack = list.into_tokens();
    let mut unclosed = Vec::new(scratch.alloc());
    let fault = expand_stack(
        &mut scratch.expander,
        &mut stack,
        &context,
        meter,
        &mut scratch.emitted,
        &mut unclosed,
    )?;
    scratch.stack = stack;
    let unclosed = TokenList::of(unclosed, scratch.expander.replacer.sets.empty());
    Ok(OpenExpansion { fault, unclosed })
}

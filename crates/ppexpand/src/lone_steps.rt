//! Steps without arguments and without `##`, many at a time.
//!
//! Most names that are replaced are those of object-like macros without `##`. Their tokens need no list of their own: those before the first
//! that names a macro are emitted at once, and only the others are pushed onto the stack, to be looked at again.
ghost use Rattle.std.specs.Prelude.{◌≡◌, ◌++◌, false, map, Some, IfOk, IfSome, OnOk};
ghost use Rattle.std.specs.Option.{option_copied};
ghost use Rattle.ppmacro.specs.HideSets.{hidings, AllKnown, KeepsSets};
ghost use Rattle.ppmacro.specs.Chains.{chains_of};
ghost use Rattle.ppmacro.specs.PasteFree.{lone_chain, lone_tokens};
ghost use Rattle.ppmacro.specs.Substituting.{tokens_of};
ghost use Rattle.ppmacro.specs.declared.macros.Macro.{Macro};
ghost use Rattle.ppexpand.specs.Budget.{is_exhausted};
ghost use Rattle.ppexpand.specs.code.Lists.{placed, lone_replaced, next_macro, NamesLone};
ghost use Rattle.ppexpand.specs.code.Skipping.{HasSkipped};
ghost use Rattle.ppexpand.specs.code.ProgramValues.{HasPassed};

use crate::context::Context;
use crate::emitted::Emitted;
use crate::expansion::emit_unexpanded;
use crate::meter::Meter;
use crate::token_span::never_expands;
use crate::token_stack::TokenStack;
use ppmacro::{Hidden, HideSets, PreparedMacro, Set, Table};
use pptext::{Memory, Place, Token};

/// Returns a token of a replacement list with this leading-space flag, this hide set, and this expansion location.
fn replacement_token<'a>(
    token: &'a Token,
    space: bool,
    names_to_hide: Set,
    used: Place,
) -> Hidden<'a>
    ensures { result ≡ placed names_to_hide used (record token.now { space = space }) }
{
    let mut hidden = Hidden::new(token, names_to_hide);
    hidden.set_space(space);
    hidden.set_use(used, names_to_hide);
    hidden
}

/// Pushes tokens of a replacement list, each with its own leading-space flag.
fn push_replacement<'x, 'a: 'x>(
    body: &'a [Token],
    names_to_hide: Set,
    used: Place,
    list: &mut TokenStack<'x>,
) -> Result<(), Memory>
    ensures { OnOk result (list.new ≡ map (placed names_to_hide used) body.now ++ list.old) }
{
    let mut rest = body;
    while let Some((last, others)) = rest.split_last() {
        list.push(replacement_token(last, last.space, names_to_hide, used))?;
        rest = others;
    }
    Ok(())
}

/// Emits tokens of a replacement list, each with its own leading-space flag, up to the first that names a macro or is an unmatched quote.
/// Pushes this one and those after it.
#[inline(always)]
fn emit_or_push<'x, 'a: 'x>(
    table: &Table<'a>,
    body: &'a [Token],
    names_to_hide: Set,
    used: Place,
    list: &mut TokenStack<'x>,
    emitted: &mut Emitted<'x>,
) -> Result<(), Memory>
    ensures { OnOk result (HasSkipped table.now.macros (map (placed names_to_hide used) body.now ++ list.old) emitted.old list.new emitted.new) }
{
    let mut rest = body;
    while let Some((first, others)) = rest.split_first() {
        if !never_expands(table, first) {
            return push_replacement(rest, names_to_hide, used, list);
        }
        emitted.push_single(replacement_token(first, first.space, names_to_hide, used))?;
        rest = others;
    }
    Ok(())
}

/// Replaces a name, which was removed from the list, by the tokens of a replacement list: emits those before the first that names a macro or is
/// an unmatched quote, and pushes the others.
#[inline(always)]
fn emit_replacement<'x, 'a: 'x>(
    table: &Table<'a>,
    body: &'a [Token],
    names_to_hide: Set,
    name_token: &Hidden,
    list: &mut TokenStack<'x>,
    emitted: &mut Emitted<'x>,
) -> Result<(), Memory>
    ensures { OnOk result (HasSkipped table.now.macros
        (lone_replaced names_to_hide name_token.now.token.used name_token.now.token.space body.now list.old) emitted.old list.new emitted.new) }
{
    let (used, space) = (name_token.used(), name_token.space());
    let Some((first, others)) = body.split_first() else {
        list.space_next(space);
        return Ok(());
    };
    let token = replacement_token(first, space, names_to_hide, used);
    if !never_expands(table, first) {
        push_replacement(others, names_to_hide, used, list)?;
        return list.push(token);
    }
    emitted.push_single(token)?;
    emit_or_push(table, others, names_to_hide, used, list, emitted)
}

/// Returns the replacement list of a macro if it is object-like without `##` and something remains of the budget.
#[inline(always)]
fn lone_body<'a>(named: Option<&PreparedMacro<'a>>, meter: Meter) -> Option<&'a [Token]>
    ensures lone { IfSome result (λ body. (m : Macro) × (option_copied named.entry ≡ Some m) × (lone_tokens m ≡ Some body.now) × (chains_of m ≡ map lone_chain body.now)) }
    ensures remains { IfSome result (λ body. is_exhausted meter ≡ false) }
{
    if meter.is_exhausted() {
        return None;
    }
    named?.lone_tokens()
}

/// Makes the step of a list whose next token names an object-like macro without `##`, and emits tokens of the replacement. `body` is the
/// macro's replacement list. A name that is in its own hide set is emitted.
#[inline(always)]
fn replace_lone<'x, 'a: 'x>(
    context: &Context<'_, 'a>,
    sets: &mut HideSets,
    meter: &mut Meter,
    body: &'a [Token],
    list: &mut TokenStack<'x>,
    emitted: &mut Emitted<'x>,
) -> Result<(), Memory>
    requires named { NamesLone context.now.table.now.macros (tokens_of list.old) body.now }
    requires remains { is_exhausted meter.old ≡ false }
    requires list_known { AllKnown sets.old list.old }
    requires emitted_known { AllKnown sets.old emitted.old }
    ensures passed { OnOk result (HasPassed 1 context.now.table.now.macros context.now.env.now context.now.level meter.old (hidings sets.old list.old) (hidings sets.old emitted.old)
        meter.new (hidings sets.new list.new) (hidings sets.new emitted.new)) }
    ensures list_known { OnOk result (AllKnown sets.new list.new) }
    ensures emitted_known { OnOk result (AllKnown sets.new emitted.new) }
    ensures keeps { KeepsSets sets.old sets.new }
{
    let Some(name_token) = list.next() else {
        return Ok(());
    };
    let base = sets.hide_set_of(&name_token)?;
    // No name is added to a set that has it.
    let names_to_hide = sets.with(base, name_token.text())?;
    if names_to_hide == base {
        return emitted.push_single(name_token);
    }
    emit_replacement(
        context.table,
        body,
        names_to_hide,
        &name_token,
        list,
        emitted,
    )?;
    *meter = meter.spend_one();
    Ok(())
}

/// Makes steps of a list, as long as its next token needs neither arguments nor `##` nor more than remains of the budget. Returns the macro
/// that the token after them names, if it names one.
#[inline(never)]
pub(crate) fn pass_lone<'t, 'x, 'a: 'x>(
    context: &Context<'t, 'a>,
    sets: &mut HideSets,
    meter: &mut Meter,
    list: &mut TokenStack<'x>,
    emitted: &mut Emitted<'x>,
) -> Result<Option<&'t PreparedMacro<'a>>, Memory>
    requires list_known { AllKnown sets.old list.old }
    requires emitted_known { AllKnown sets.old emitted.old }
    ensures passed { OnOk result (HasPassed 0 context.now.table.now.macros context.now.env.now context.now.level meter.old (hidings sets.old list.old) (hidings sets.old emitted.old)
        meter.new (hidings sets.new list.new) (hidings sets.new emitted.new)) }
    ensures named { IfOk result (λ r. option_copied r ≡ next_macro context.now.table.now.macros (tokens_of list.new)) }
    ensures list_known { OnOk result (AllKnown sets.new list.new) }
    ensures emitted_known { OnOk result (AllKnown sets.new emitted.new) }
    ensures keeps { KeepsSets sets.old sets.new }
{
    loop {
        let named = emit_unexpanded(context.table, list, emitted)?;
        let Some(body) = lone_body(named, *meter) else {
            return Ok(named);
        };
        replace_lone(context, sets, meter, body, list, emitted)?;
    }
}

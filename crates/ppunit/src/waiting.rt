//! Text lines, and the invocation that they leave open. In GNU C its tokens wait for more text lines, behind directives (6.10.3,
//! paragraph 11).
ghost use Rattle.std.specs.Prelude.{◌≡◌, ◌&&◌, ◌==◌, ◌++◌, [], None, Some, IfOk, OnOk, codes};
ghost use Rattle.std.specs.Result.{result_err};
ghost use Rattle.pptext.specs.Profiles.{is_gnu};
ghost use Rattle.pptext.specs.Errors.{Raises, UnlessOutOfMemory};
ghost use Rattle.ppexpand.specs.Slices.{ref_token};
ghost use Rattle.ppunit.specs.DirectiveLines.{operands};
ghost use Rattle.ppunit.specs.Directives as spec;
ghost use Rattle.ppunit.specs.States.{with_meter, with_waiting};
ghost use Rattle.ppunit.specs.code.TextLines.{ExpandsText, waits_or_stops};

use crate::directive_line::DirectiveLine;
use crate::directives::name_after;
use crate::states::State;
use ppexpand::{Expanded, OpenExpansion, TokenList, TokenRef, WaitingTokens, expand, expand_open};
use pptext::{Directive, Error, Memory, Profile, Token};
use std::alloc::Global;
use std::mem::replace;

/// Gives back to the budget what the invocation that waits has spent, if there is one: its next expansion counts it again.
fn uncount_waiting(state: &mut State) -> Result<(), Memory>
    ensures { OnOk result (state.new ≡ with_meter state.old (spec.meter_at_text state.old.waiting state.old.meter)) }
{
    if state.waiting.is_empty() {
        return Ok(());
    }
    state.meter = state.meter.give_back_one()?;
    Ok(())
}

/// Takes the tokens that wait, and appends these.
fn take_waiting<'x>(state: &mut State<'x>, tokens: &'x [Token]) -> Result<TokenList<'x>, Memory>
    ensures list { IfOk result (λ list. list ≡ state.old.waiting ++ tokens.now) }
    ensures none { OnOk result (state.new ≡ with_waiting state.old []) }
{
    let none = WaitingTokens::of(state.scratch.list());
    let mut list = replace(&mut state.waiting, none).into_list();
    list.push_all_borrowed(tokens)?;
    Ok(list)
}

/// Emits the expansion of the tokens that wait and of text lines behind them. Returns the tokens that it leaves open.
fn expand_text<'x>(state: &mut State<'x>, tokens: &'x [Token]) -> Result<OpenExpansion<'x>, Memory>
    ensures { IfOk result (λ e. ExpandsText state.old tokens.now state.new e.fault e.unclosed) }
{
    uncount_waiting(state)?;
    let list = take_waiting(state, tokens)?;
    let expanded = expand_open(
        &state.macros,
        &state.file_context.env,
        &mut state.meter,
        list,
        &mut state.scratch,
    )?;
    state.items.extend_if(state.keeps, &[], &mut state.scratch)?;
    Ok(expanded)
}

/// Stops with the fault of an expansion, if it has one. In GNU C the tokens that it leaves open wait instead.
fn wait_or_stop<'x>(
    profile: Profile,
    state: &mut State<'x>,
    expanded: OpenExpansion<'x>,
) -> Result<(), Error>
    requires none { state.old.waiting ≡ [] }
    requires stopped { expanded.fault ≡ None → expanded.unclosed ≡ [] }
    ensures { UnlessOutOfMemory result (λ r.
        record { state = state.new; fault = result_err r } ≡ waits_or_stops state.old expanded.entry.fault (spec.waits_in profile expanded.entry.unclosed)) }
{
    let OpenExpansion { fault, unclosed } = expanded;
    let Some(fault) = fault else {
        return Ok(());
    };
    if !profile.is_gnu() {
        return Err(Error::Fault(fault));
    }
    if unclosed.is_empty() {
        return Err(Error::Fault(fault));
    }
    state.keep_waiting(unclosed);
    Ok(())
}

/// Emits text lines as `emit_text` does, also if an invocation is open before or after them.
fn emit_open<'x>(profile: Profile, state: &mut State<'x>, tokens: &'x [Token]) -> Result<(), Error>
    ensures { UnlessOutOfMemory result (λ r. spec.EmitsText profile state.old tokens.now (record { state = state.new; fault = result_err r })) }
{
    let expanded = expand_text(state, tokens)?;
    wait_or_stop(profile, state, expanded)
}

/// Emits text lines as `emit_text` does, where an invocation may wait. If it still waits after them, nothing is expanded.
fn emit_behind<'x>(
    profile: Profile,
    state: &mut State<'x>,
    tokens: &'x [Token],
) -> Result<(), Error>
    ensures { UnlessOutOfMemory result (λ r. spec.EmitsText profile state.old tokens.now (record { state = state.new; fault = result_err r })) }
{
    if !profile.is_gnu() {
        return emit_open(profile, state, tokens);
    }
    // The meter stays: the invocation is counted already.
    if state.waiting.append_if_open(&state.macros, tokens)? {
        return Ok(());
    }
    emit_open(profile, state, tokens)
}

/// Returns whether an expansion that stops with the fault of this number may leave tokens open that wait.
fn may_wait(profile: Profile, number: u8) -> bool
    ensures { result ≡ (is_gnu profile && number == 17) }
{
    profile.is_gnu() && number == 17
}

/// Emits text lines as `emit_text` does, where no invocation waits.
fn emit_alone<'x>(profile: Profile, state: &mut State<'x>, tokens: &'x [Token]) -> Result<(), Error>
    requires { state.old.waiting ≡ [] }
    ensures { UnlessOutOfMemory result (λ r. spec.EmitsText profile state.old tokens.now (record { state = state.new; fault = result_err r })) }
{
    let meter = state.meter;
    let Expanded { prefix, fault } = expand(
        &state.macros,
        &state.file_context.env,
        &mut state.meter,
        tokens,
        &mut state.scratch,
    )?;
    let Some(fault) = fault else {
        state
            .items
            .extend_if(state.keeps, prefix, &mut state.scratch)?;
        return Ok(());
    };
    let fault = fault.into_fault();
    if may_wait(profile, fault.number) {
        // The tokens are expanded again, to find an open invocation.
        state.meter = meter;
        return emit_open(profile, state, tokens);
    }
    state
        .items
        .extend_if(state.keeps, prefix, &mut state.scratch)?;
    Err(Error::of(state.scratch.alloc(), fault))
}

/// Emits the expansion of the tokens that wait and of consecutive text lines behind them, up to its first fault (6.10.3). In GNU C an
/// invocation that is open then waits for its `)`.
pub(crate) fn emit_text<'x>(
    profile: Profile,
    state: &mut State<'x>,
    tokens: &'x [Token],
) -> Result<(), Error>
    ensures { UnlessOutOfMemory result (λ r. spec.EmitsText profile state.old tokens.now (record { state = state.new; fault = result_err r })) }
{
    if state.is_waiting() {
        return emit_behind(profile, state, tokens);
    }
    // Blank lines between directives are text lines too.
    if tokens.is_empty() {
        return Ok(());
    }
    emit_alone(profile, state, tokens)
}

/// Returns fault 17 at the name of an invocation that waits.
fn waiting_fault(alloc: Global, name: TokenRef) -> Error
    ensures { Raises result (spec.waiting_fault (ref_token name.entry)) }
{
    Error::new(alloc, 17, name.used(), name.text())
}

/// Fails with fault 17 if an invocation waits at the end of a file.
pub(crate) fn refuse_at_end(alloc: Global, state: &State) -> Result<(), Error>
    ensures { UnlessOutOfMemory result (λ r. result_err r ≡ spec.fault_at_end state.now.waiting) }
{
    let Some(name) = state.waiting.first() else {
        return Ok(());
    };
    Err(waiting_fault(alloc, name))
}

/// Returns whether the operands of `#define` or `#undef` begin with this name.
fn names_token(name: TokenRef, operands: &[Token]) -> bool
    ensures { result ≡ spec.names_token (ref_token name.entry) operands.now }
{
    match operands {
        [first, ..] => first.text.as_bytes() == name.text(),
        [] => false,
    }
}

/// Returns whether the operands of `#pragma` bring this name back by `pop_macro`.
fn pops_name(name: TokenRef, operands: &[Token]) -> bool
    ensures { result ≡ spec.is_name (ref_token name.entry).text (spec.name_after (codes "pop_macro") operands.now) }
{
    match name_after(b"pop_macro", operands) {
        Some(popped) => popped == name.text(),
        None => false,
    }
}

/// Returns whether a line may not stand among the arguments of a macro of this name: it opens a file or sets the line, defines or
/// undefines the name, or brings it back.
fn is_refused(name: TokenRef, line: &DirectiveLine) -> bool
    ensures { result ≡ spec.is_refused (ref_token name.entry) (Some line.now.directive) (operands line.now.tokens) }
{
    match line.directive {
        Directive::Include => true,
        Directive::IncludeNext => true,
        Directive::Line => true,
        Directive::Define => names_token(name, line.tokens.operands()),
        Directive::Undef => names_token(name, line.tokens.operands()),
        Directive::Pragma => pops_name(name, line.tokens.operands()),
        _ => false,
    }
}

/// Fails with fault 17 if an invocation waits and the line may not stand among its arguments.
pub(crate) fn refuse_among_arguments(
    alloc: Global,
    state: &State,
    line: &DirectiveLine,
) -> Result<(), Error>
    ensures { UnlessOutOfMemory result (λ r. result_err r ≡ spec.refusal state.now.waiting (Some line.now.directive) (operands line.now.tokens)) }
{
    let Some(name) = state.waiting.first() else {
        return Ok(());
    };
    if !is_refused(name, line) {
        return Ok(());
    }
    Err(waiting_fault(alloc, name))
}

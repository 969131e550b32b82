//! Tests of the parts of a substitution: synthesized tokens, tokens of a replacement list, and spellings in a literal.
use super::substitution::{USED, assert_made, hidden};
use super::{HASH, macro_of, push_spelled, set_of, table_of};
use crate::defining::source_of;
use crate::showing::{assert_shown, push_token};
use ppmacro::{
    Chain, Hidden, HideSets, Operand, Pattern, ReplacementList, argument_of, push_escaped,
};
use pptext::{Kind, Memory, Source, Spelling, Token};
use std::alloc::{AllocError, Global};
use std::process::Abort;
use std::test::Fail;

/// Returns the name `x` at the location of the `#` of a line.
fn name_at_hash(alloc: Global) -> Result<Token, AllocError> {
    Ok(Token {
        kind: Kind::Ident,
        text: Spelling::from_slice(alloc, b"x")?,
        space: false,
        at: HASH,
        used: HASH,
    })
}

/// Returns a synthesized token with a flag and another expansion location, hidden by `a`.
fn made_and_turned<'a>(
    rt: &impl Abort,
    alloc: Global,
    sets: &mut HideSets,
) -> Result<Hidden<'a>, Memory> {
    let hide = set_of(rt, sets, b"a")?;
    let mut hidden = Hidden::synthesized(alloc, name_at_hash(alloc)?, sets.empty())?;
    hidden.set_space(true);
    hidden.set_use(USED, hide);
    Ok(hidden)
}

#[test]
fn marks_and_turns_what_was_made(rt: HostRuntime) -> Result<(), Fail> {
    let mut sets = HideSets::new(rt.alloc())?;
    let made = made_and_turned(&rt, rt.alloc(), &mut sets)?;
    assert!(&rt; made.spelling()?.as_bytes() == b"x".as_slice());
    let wanted = ("i+ x 1:1:1 3:40:5, ", b"a".as_slice());
    Ok(assert_made(&rt, rt.alloc(), &sets, &made, wanted)?)
}

/// Appends source tokens to a text, each as a token with a hide set.
fn push_words(
    alloc: Global,
    text: &mut Vec<u8>,
    sets: &HideSets,
    body: &ReplacementList,
) -> Result<(), AllocError> {
    for token in body.as_slice() {
        push_token(alloc, text, Hidden::new(token, sets.empty()).token())?;
    }
    Ok(())
}

#[test]
fn hidden_tokens_are_those_of_the_file(rt: HostRuntime) -> Result<(), Fail> {
    let source = source_of(&rt, rt.alloc(), b"a +1")?;
    let sets = HideSets::new(rt.alloc())?;
    let mut text = Vec::new(rt.alloc());
    push_words(
        rt.alloc(),
        &mut text,
        &sets,
        &ReplacementList::new(source.tokens()),
    )?;
    let wanted = "i+ a 1:1:1 1:1:1, p+ + 1:1:3 1:1:3, n- 1 1:1:4 1:1:4, ";
    assert_shown(&rt, text.as_slice(), wanted);
    Ok(())
}

/// Appends the operands of a chain that are tokens of the replacement list to a text.
fn push_leaves(text: &mut Vec<u8>, chain: &Chain) -> Result<(), AllocError> {
    for index in 0..chain.operands.len() {
        if let Operand::Tok(leaf) = chain.operands.at(index) {
            push_spelled(text, leaf.token())?;
        }
    }
    Ok(())
}

/// Returns such operands of all chains of the macro that a line defines.
fn leaves_in(rt: &impl Abort, alloc: Global, line: &Source) -> Result<Vec<u8>, Fail> {
    let table = table_of(rt, alloc, line)?;
    let named = macro_of(&table, line.tokens()).ok_or("no macro")?;
    let mut text = Vec::new(alloc);
    let Pattern::Pasted(chains) = named.pattern() else {
        return Err("no chains".into());
    };
    for index in 0..chains.len() {
        push_leaves(&mut text, &chains.at(index))?;
    }
    Ok(text)
}

#[test]
fn keeps_the_tokens_of_a_replacement_list(rt: HostRuntime) -> Result<(), Fail> {
    let line = source_of(&rt, rt.alloc(), b"#define f(a) x a##y #a ## z")?;
    assert_shown(&rt, leaves_in(&rt, rt.alloc(), &line)?.as_slice(), " xy z");
    Ok(())
}

#[test]
fn escapes_quotes_and_backslashes(rt: HostRuntime) -> Result<(), AllocError> {
    let mut text = Vec::new(rt.alloc());
    push_escaped(&mut text, b"'\"' \"a\\n\"")?;
    assert_shown(&rt, text.as_slice(), "'\\\"' \\\"a\\\\n\\\"");
    Ok(())
}

/// Returns the number of tokens in the argument with this index, of one argument with three tokens.
fn argument_len(alloc: Global, source: &Source, index: usize) -> Result<usize, Memory> {
    let sets = HideSets::new(alloc)?;
    let mut given = Vec::new(alloc);
    given.push(hidden(alloc, &sets, sets.empty(), source.tokens())?)?;
    Ok(argument_of(given.as_slice(), index).len())
}

#[test]
fn an_absent_argument_has_no_tokens(rt: HostRuntime) -> Result<(), Fail> {
    let source = source_of(&rt, rt.alloc(), b"a + b")?;
    assert!(rt; argument_len(rt.alloc(), &source, 0)? == 3);
    assert!(rt; argument_len(rt.alloc(), &source, 1)? == 0);
    Ok(())
}

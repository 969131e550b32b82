//! Tests of `expand`: the slices of an expanded list, its tokens one by one, and the rest of a budget. More expansions, faults and locations
//! are in tests/row_tests.py and tests/token_tests.py, which compare the program's output.
use crate::defining::{directed, env, source_of};
use crate::showing::assert_shown;
use ppexpand::{
    Expanded, FileName, Meter, OpenExpansion, Piece, Scratch, TokenList, TokenRef, TokenSlice,
    WaitingTokens, expand, expand_list, expand_open, literal,
};
use ppmacro::{Hidden, Table};
use pptext::{BoxedFault, Hashing, Memory, Source, Token};
use std::alloc::{AllocError, Global};
use std::process::Abort;
use std::test::Fail;

/// Appends the spellings of a file's tokens to a text, each after a `.`.
fn push_in_file(text: &mut Vec<u8>, tokens: &[Token]) -> Result<(), AllocError> {
    for token in tokens {
        text.push(b'.')?;
        text.extend_from_slice(token.text.as_bytes())?;
    }
    Ok(())
}

/// Appends the spellings of tokens with hide sets to a text, each after a `!`.
fn push_hidden(text: &mut Vec<u8>, tokens: &[Hidden]) -> Result<(), AllocError> {
    for hidden in tokens {
        text.push(b'!')?;
        text.extend_from_slice(hidden.text())?;
    }
    Ok(())
}

/// Appends the spellings of a slice's tokens to a text: after `.` if they are tokens of a file, after `!` if they have hide
/// sets.
fn push_slice(text: &mut Vec<u8>, slice: TokenSlice) -> Result<(), AllocError> {
    match slice {
        TokenSlice::InFile(tokens) => push_in_file(text, tokens),
        TokenSlice::Hidden(tokens) => push_hidden(text, tokens),
    }
}

/// Appends the spellings of a slice's tokens to a text. The slice is split in two.
fn push_halves(text: &mut Vec<u8>, slice: TokenSlice) -> Result<(), AllocError> {
    let (first, others) = slice.split_at(slice.len() / 2);
    push_slice(text, first)?;
    push_slice(text, others)
}

/// Returns whether a token of a list is equal to this one.
fn is_same(found: &TokenRef, token: &Token) -> Result<bool, AllocError> {
    let marks = found.kind() == token.kind && found.space() == token.space;
    let places = found.at() == token.at && found.used() == token.used;
    let is_spelled = found.text() == token.text.as_bytes();
    Ok(marks && places && is_spelled && found.to_token()? == *token)
}

/// Returns whether the tokens of a piece, one by one, are the first of a list, and removes those from the list.
fn begins_with<'x>(tokens: &mut &'x [Token], piece: &Piece) -> Result<bool, AllocError> {
    let mut found = piece.tokens().iter();
    while let Some(one) = found.next() {
        let list: &'x [Token] = *tokens;
        match list.split_first() {
            Some((token, rest)) if is_same(&one, token)? => *tokens = rest,
            _ => return Ok(false),
        }
    }
    Ok(true)
}

/// Returns an expansion as text: the prefix and the pieces after it, and ` same` if there are none. The pieces have the tokens that the scratch
/// copied.
fn as_text(
    rt: &impl Abort,
    prefix: &[Token],
    scratch: &mut Scratch,
) -> Result<Vec<u8>, AllocError> {
    let mut text = Vec::new(scratch.alloc());
    let copies = scratch.to_vec(prefix)?;
    let mut unread = &copies.as_slice()[prefix.len()..];
    let was_empty = scratch.is_empty();
    push_in_file(&mut text, prefix)?;
    for piece in scratch.take_pieces()? {
        assert!(rt; begins_with(&mut unread, &piece)?);
        push_halves(&mut text, piece.tokens())?;
    }
    assert!(rt; unread.is_empty() && scratch.is_empty());
    if was_empty {
        text.extend_from_slice(b" same")?;
    }
    Ok(text)
}

/// A text, a budget, the expansion of the lines after the last directive as text, the number of the fault or 0, and the rest of
/// the budget.
type Case = (&'static str, Option<u64>, &'static str, u8, Option<u64>);

/// Returns the number of a fault, or 0.
fn number_of(fault: Option<BoxedFault>) -> u8 {
    match fault {
        Some(fault) => fault.into_fault().number,
        None => 0,
    }
}

/// Asserts the expansion of tokens with these macros.
fn assert_expanded_by(
    rt: &impl Abort,
    alloc: Global,
    table: &Table,
    tokens: &[Token],
    (_text, budget, wanted, number, remaining): Case,
) -> Result<(), Memory> {
    let mut meter = Meter::new(budget);
    let mut scratch = Scratch::new(alloc, Hashing::fixed())?;
    let Expanded { prefix, fault } = expand(table, &env(0), &mut meter, tokens, &mut scratch)?;
    assert_shown(rt, as_text(rt, prefix, &mut scratch)?.as_slice(), wanted);
    assert!(rt;
        number_of(fault) == number && meter.remaining == remaining,
        "at {wanted}"
    );
    Ok(())
}

/// Asserts the expansion of the lines after a file's last directive.
fn assert_expanded(
    rt: &impl Abort,
    alloc: Global,
    source: &Source,
    case: Case,
) -> Result<(), Memory> {
    let mut table = Table::new(alloc)?;
    let tokens = directed(rt, alloc, &mut table, source)?;
    assert_expanded_by(rt, alloc, &table, tokens, case)
}

/// The expansions of lines.
const CASES: &[Case] = &[
    // several parts, and a single one
    (
        "#define X 1 + 2\na b X c d e f g h i j k l m n o X",
        None,
        ".a.b!1!+!2.c.d.e.f.g.h.i.j.k.l.m.n.o!1!+!2",
        0,
        None,
    ),
    ("#define X 1 + 2\nX c X", None, "!1!+!2!c!1!+!2", 0, None),
    (
        "#define X 1 + 2\n#define J(a,b) a##b\na b X c X J(d,e)",
        None,
        ".a.b!1!+!2!c!1!+!2!de",
        0,
        None,
    ),
    (
        "#define X 1\nX a b c d e f g h i",
        None,
        "!1!a!b!c!d!e!f!g!h!i",
        0,
        None,
    ),
    ("#define X\nX", None, " same", 0, None),
    // tokens that name no macro
    ("#define X 1\na b c", None, ".a.b.c same", 0, None),
    ("#define X 1\n", None, " same", 0, None),
    ("#define X 1\na b X", None, ".a.b!1", 0, None),
    // the rest of a budget, at the end and after a fault
    (
        "#define f(a) a*g\n#define g(a) f(a)\nf(2)(9)",
        Some(5),
        "!2!*!9!*!g",
        0,
        Some(2),
    ),
    (
        "#define f(a) a*g\n#define g(a) f(a)\nf(2)(9)",
        Some(2),
        "!2!*",
        35,
        Some(0),
    ),
    ("#define f(a) a\nf(1", Some(3), " same", 17, Some(2)),
];

#[test]
fn tells_parts_and_what_is_left(rt: HostRuntime) -> Result<(), Fail> {
    for case in CASES {
        let source = source_of(&rt, rt.alloc(), case.0.as_bytes())?;
        assert_expanded(&rt, rt.alloc(), &source, *case)?;
    }
    Ok(())
}

/// Returns the spellings of an expansion.
fn spelled(prefix: &[Token], scratch: &Scratch) -> Result<Vec<u8>, AllocError> {
    let mut text = Vec::new(scratch.alloc());
    push_in_file(&mut text, scratch.to_vec(prefix)?.as_slice())?;
    Ok(text)
}

/// Asserts that the expansion of tokens by a scratch has these spellings.
fn assert_spelled<'x>(
    rt: &impl Abort,
    table: &Table<'x>,
    tokens: &'x [Token],
    scratch: &mut Scratch<'x>,
    meter: &mut Meter,
    wanted: &str,
) -> Result<(), Memory> {
    let Expanded { prefix, fault: _ } = expand(table, &env(0), meter, tokens, scratch)?;
    assert_shown(rt, spelled(prefix, scratch)?.as_slice(), wanted);
    Ok(())
}

/// Asserts that the expansion of a list with the first token of a file, a copy of it, and the file's tokens has these spellings.
fn assert_list_spelled<'x>(
    rt: &impl Abort,
    table: &Table<'x>,
    tokens: &'x [Token],
    scratch: &mut Scratch<'x>,
    wanted: &str,
) -> Result<(), Memory> {
    let mut meter = Meter::new(None);
    let mut list = scratch.list();
    for first in tokens.iter().take(1) {
        list.push_borrowed(first)?;
        list.push_owned(first.clone()?)?;
    }
    for token in tokens {
        list.push_borrowed(token)?;
    }
    let fault = expand_list(table, &env(0), &mut meter, list, scratch)?;
    assert!(rt; fault.is_none());
    assert_shown(rt, spelled(&[], scratch)?.as_slice(), wanted);
    Ok(())
}

/// Asserts that expansions by one scratch are equal: nothing remains of the one before.
fn assert_repeated<'x>(
    rt: &impl Abort,
    alloc: Global,
    table: &Table<'x>,
    tokens: &'x [Token],
) -> Result<(), Memory> {
    let mut scratch = Scratch::new(alloc, table.hashing())?;
    for _ in 0..3 {
        let mut meter = Meter::new(None);
        assert_spelled(rt, table, tokens, &mut scratch, &mut meter, ".a.1.b.2.2.1")?;
        assert_list_spelled(rt, table, tokens, &mut scratch, ".a.a.a.1.b.2.2.1")?;
    }
    Ok(())
}

#[test]
fn expands_again(rt: HostRuntime) -> Result<(), Fail> {
    let text = b"#define X 1\n#define Y b 2\n#define SAME(x) x\na X SAME(Y) 2 SAME(X)";
    let source = source_of(&rt, rt.alloc(), text.as_slice())?;
    let mut table = Table::new(rt.alloc())?;
    let tokens = directed(&rt, rt.alloc(), &mut table, &source)?;
    assert_repeated(&rt, rt.alloc(), &table, tokens)?;
    Ok(())
}

/// Asserts that `__COUNTER__` counts on from one expansion to the next, and takes from the budget.
fn assert_counted<'x>(
    rt: &impl Abort,
    alloc: Global,
    table: &Table<'x>,
    tokens: &'x [Token],
) -> Result<(), Memory> {
    let mut scratch = Scratch::new(alloc, table.hashing())?;
    let mut meter = Meter {
        remaining: Some(5),
        counter: u32::MAX,
    };
    for wanted in [".a.4294967295.b.0", ".a.1.b.2"] {
        assert_spelled(rt, table, tokens, &mut scratch, &mut meter, wanted)?;
    }
    assert!(rt; meter.remaining == Some(1) && meter.counter == 3);
    assert!(rt; meter.give_back_one()?.remaining == Some(2));
    Ok(())
}

#[test]
fn counts_replacements_of_counter(rt: HostRuntime) -> Result<(), Fail> {
    let source = source_of(&rt, rt.alloc(), b"a __COUNTER__ b __COUNTER__".as_slice())?;
    let mut table = Table::new(rt.alloc())?;
    table.predefine_counter()?;
    let tokens = directed(&rt, rt.alloc(), &mut table, &source)?;
    assert_counted(&rt, rt.alloc(), &table, tokens)?;
    Ok(())
}

/// Asserts that the expansion of a list has these spellings and this fault, or 0. Returns the tokens of the invocation that is open.
fn expanded_open<'x>(
    rt: &impl Abort,
    table: &Table<'x>,
    list: TokenList<'x>,
    scratch: &mut Scratch<'x>,
    (wanted, number): (&str, u8),
) -> Result<TokenList<'x>, Memory> {
    let mut meter = Meter::new(Some(9));
    let OpenExpansion { fault, unclosed } = expand_open(table, &env(0), &mut meter, list, scratch)?;
    assert_shown(rt, spelled(&[], scratch)?.as_slice(), wanted);
    assert!(rt; number_of(fault) == number, "at {wanted}");
    Ok(unclosed)
}

/// Asserts that the last token closes an invocation that is open before it.
fn assert_closed_later<'x>(
    rt: &impl Abort,
    alloc: Global,
    table: &Table<'x>,
    tokens: &'x [Token],
) -> Result<(), Memory> {
    let mut scratch = Scratch::new(alloc, table.hashing())?;
    let mut list = scratch.list();
    for token in tokens.iter().take(tokens.len().saturating_sub(1)) {
        list.push_borrowed(token)?;
    }
    let mut list = expanded_open(rt, table, list, &mut scratch, (".a", 17))?;
    assert!(rt;
        list.first()
            .is_some_and(|first| first.text() == b"f".as_slice())
    );
    for token in tokens.iter().rev().take(1) {
        list.push_borrowed(token)?;
    }
    let rest = expanded_open(rt, table, list, &mut scratch, (".[.1.b.]", 0))?;
    assert!(rt; rest.is_empty() && rest.first().is_none());
    Ok(())
}

#[test]
fn closes_an_open_invocation_later(rt: HostRuntime) -> Result<(), Fail> {
    let text = b"#define f(x) [x]\n#define O f\na O(1 b)";
    let source = source_of(&rt, rt.alloc(), text.as_slice())?;
    let mut table = Table::new(rt.alloc())?;
    let tokens = directed(&rt, rt.alloc(), &mut table, &source)?;
    assert_closed_later(&rt, rt.alloc(), &table, tokens)?;
    Ok(())
}

/// Returns the tokens of a list that has an open invocation and appends it again, so that it is open in itself.
fn waiting_twice<'x>(
    rt: &impl Abort,
    table: &Table<'x>,
    invocation: &'x [Token],
    scratch: &mut Scratch<'x>,
) -> Result<WaitingTokens<'x>, Memory> {
    let mut none = WaitingTokens::of(scratch.list());
    assert!(rt; none.is_empty() && none.first().is_none());
    assert!(rt; !none.append_if_open(table, invocation)?);
    let mut list = none.into_list();
    list.push_all_borrowed(invocation)?;
    let mut waiting = WaitingTokens::of(list);
    assert!(rt; waiting.append_if_open(table, invocation)?);
    assert!(rt;
        waiting
            .first()
            .is_some_and(|first| first.text() == b"f".as_slice())
    );
    Ok(waiting)
}

/// Asserts that an invocation in itself stays open after the first of two last tokens `)`, and not after the other.
fn assert_stays_open<'x>(
    rt: &impl Abort,
    alloc: Global,
    table: &Table<'x>,
    tokens: &'x [Token],
) -> Result<(), Memory> {
    let mut scratch = Scratch::new(alloc, table.hashing())?;
    let (invocation, close) = tokens.split_at(tokens.len().saturating_sub(1));
    let mut waiting = waiting_twice(rt, table, invocation, &mut scratch)?;
    for stays in [true, false] {
        assert!(rt; waiting.append_if_open(table, close)? == stays);
    }
    let mut list = waiting.into_list();
    list.push_all_borrowed(close)?;
    let rest = expanded_open(rt, table, list, &mut scratch, (".[.1.b.[.1.b.].]", 0))?;
    assert!(rt; rest.is_empty());
    Ok(())
}

#[test]
fn keeps_an_invocation_waiting(rt: HostRuntime) -> Result<(), Fail> {
    let text = b"#define f(x) [x]\nf(1 b)";
    let source = source_of(&rt, rt.alloc(), text.as_slice())?;
    let mut table = Table::new(rt.alloc())?;
    let tokens = directed(&rt, rt.alloc(), &mut table, &source)?;
    assert_stays_open(&rt, rt.alloc(), &table, tokens)?;
    Ok(())
}

/// Asserts that the expansion of all tokens of a file ends in fault 17, and leaves nothing open.
fn assert_nothing_open<'x>(
    rt: &impl Abort,
    alloc: Global,
    table: &Table<'x>,
    tokens: &'x [Token],
) -> Result<(), Memory> {
    let mut scratch = Scratch::new(alloc, table.hashing())?;
    let mut list = scratch.list();
    list.push_all_borrowed(tokens)?;
    let rest = expanded_open(rt, table, list, &mut scratch, (".a", 17))?;
    assert!(rt; rest.is_empty());
    Ok(())
}

#[test]
fn leaves_no_invocation_of_a_replacement_open(rt: HostRuntime) -> Result<(), Fail> {
    let text = b"#define f(x) [x]\n#define O f(\na O 1 b";
    let source = source_of(&rt, rt.alloc(), text.as_slice())?;
    let mut table = Table::new(rt.alloc())?;
    let tokens = directed(&rt, rt.alloc(), &mut table, &source)?;
    assert_nothing_open(&rt, rt.alloc(), &table, tokens)?;
    Ok(())
}

#[test]
fn names_of_files_are_spelled_as_literals(rt: HostRuntime) -> Result<(), Fail> {
    let alloc = rt.alloc();
    let own = FileName::of_file(b"a\\\"b");
    let spelled = own.literal(alloc)?;
    assert!(&rt;
        spelled.as_slice() == b"\"a\\\\\\\"b\"".as_slice(),
        "a name with quotes"
    );
    let plain = literal(alloc, b"a.c")?;
    assert!(&rt;
        plain.as_slice() == b"\"a.c\"".as_slice(),
        "a name without quotes"
    );
    Ok(())
}

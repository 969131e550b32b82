//! Tests of substitution (6.10.3.1 to 6.10.3.3).
ghost use Rattle.std.specs.Prelude.{◌≡◌, IfOk, map, Some};
ghost use Rattle.ppmacro.specs.HideSets.{IsKnown, AllKnown};
ghost use Rattle.ppmacro.specs.Substituting.{ListsKnown, ArgumentsKnown};
ghost use Rattle.ppmacro.specs.declared.hidden_token.ArgumentExpansion.TheVariants.{Owned};

use super::{HASH, has, is_hidden_by, macro_of, push_spelled, set_of, sources_of};
use crate::defining::{define_valid, source_of};
use crate::showing::{assert_shown, push_fault, push_fields};
use ppmacro::{
    ArgumentExpansion, Arguments, Hidden, HideSets, MacroName, Pattern, PreparedMacro, Set, Table,
    decides_each_kind, paste, stringize, substitute_pattern,
};
use pptext::{Error, Memory, Place, Profile, Source, Token};
use std::alloc::Global;
use std::process::Abort;
use std::test::Fail;

/// The replacement of an invocation and the pending leading-space flag, or the error.
type Replaced<'x> = Result<(Vec<Hidden<'x>>, bool), Error>;

/// The location of the macro name in an invocation.
pub(super) const USED: Place = Place {
    file: 3,
    line: 40,
    col: 5,
};

/// Returns tokens, each with this hide set.
pub(super) fn hidden<'a>(
    alloc: Global,
    sets: &HideSets,
    hide: Set,
    tokens: &'a [Token],
) -> Result<Vec<Hidden<'a>>, Memory>
    requires { IsKnown sets.now hide }
    ensures { IfOk result (λ v. AllKnown sets.now v.items) }
{
    let mut list = Vec::new(alloc);
    for token in tokens {
        list.push(Hidden::new(token, hide))?;
    }
    Ok(list)
}

/// Returns arguments with these tokens, each with this hide set.
fn lists_of<'a>(
    alloc: Global,
    sets: &HideSets,
    hide: Set,
    texts: &'a [Source],
) -> Result<Vec<Vec<Hidden<'a>>>, Memory>
    requires { IsKnown sets.now hide }
    ensures { IfOk result (λ v. ListsKnown sets.now v.items) }
{
    let mut lists = Vec::new(alloc);
    for text in texts {
        lists.push(hidden(alloc, sets, hide, text.tokens())?)?;
    }
    Ok(lists)
}

/// Returns the expansions of arguments that name no macro.
fn as_they_are<'a>(
    alloc: Global,
    lists: Vec<Vec<Hidden<'a>>>,
) -> Result<Vec<ArgumentExpansion<'a>>, Memory>
    ensures { IfOk result (λ v. v.items ≡ map (λ l. Owned l) lists.entry.items) }
{
    lists
        .into_iter()
        .map(|list| ArgumentExpansion::Owned(list))
        .collect(alloc)
}

/// Returns the result of `substitute_pattern` for the name `f`. If an allocation fails, asserts that the set `base` contains `b`, and
/// calls again.
fn substituted<'x, 'a: 'x>(
    rt: &impl Abort,
    alloc: Global,
    pattern: &Pattern<'_, 'a>,
    arguments: Arguments<'_, 'x>,
    name: &MacroName,
    sets: &mut HideSets,
) -> Replaced<'x>
    requires arguments { ArgumentsKnown sets.old arguments.given.now arguments.expanded.now }
    requires base { IsKnown sets.old name.now.base }
{
    let base = name.base;
    let answer = substitute_pattern(Vec::new(alloc), pattern, arguments, name, sets);
    if !matches!(&answer, Err(Error::Memory)) {
        return answer;
    }
    assert!(rt; has(rt, sets, base, b"b") && !has(rt, sets, base, b"f"));
    substitute_pattern(Vec::new(alloc), pattern, arguments, name, sets)
}

/// Returns the macro name token `f` of an invocation.
fn named_f(base: Set, space: bool) -> MacroName<'static>
    ensures { result.base ≡ base }
{
    MacroName {
        base,
        name: b"f",
        used: USED,
        space,
    }
}

/// Returns the replacement by a macro, and the pending flag. No argument names a macro; each token of an argument has the hide set
/// `hide`.
fn replaced<'x, 'a: 'x>(
    rt: &impl Abort,
    alloc: Global,
    sets: &mut HideSets,
    named: &PreparedMacro<'a>,
    texts: &'x [Source],
    (hide, base, space): (Set, Set, bool),
) -> Replaced<'x> {
    assert!(rt; sets.knows(hide) && sets.knows(base));
    let given = lists_of(alloc, sets, hide, texts)?;
    let expanded = as_they_are(alloc, lists_of(alloc, sets, hide, texts)?)?;
    let (given, expanded) = (given.as_slice(), expanded.as_slice());
    let arguments = Arguments { given, expanded };
    let pattern = named.pattern();
    substituted(rt, alloc, &pattern, arguments, &named_f(base, space), sets)
}

/// How an invocation is substituted: whether the arguments' tokens are hidden by `g`, and whether the macro name has a leading-space
/// flag.
type With = (bool, bool);

/// Returns whether a token's expansion location is that of the macro name, and its hide set contains the added names `b` and `f`.
fn is_gained(rt: &impl Abort, sets: &HideSets, hidden: &Hidden) -> bool {
    is_hidden_by(rt, sets, hidden, b"f")
        && is_hidden_by(rt, sets, hidden, b"b")
        && hidden.used() == USED
}

/// Appends the spellings of tokens to a text.
fn push_all_spelled(
    rt: &impl Abort,
    text: &mut Vec<u8>,
    sets: &HideSets,
    tokens: &[Hidden],
) -> Result<(), Memory> {
    for hidden in tokens {
        assert!(rt; is_gained(rt, sets, hidden));
        push_spelled(text, &hidden.to_token()?)?;
    }
    Ok(())
}

/// Appends to a text whether each token is hidden by `g`, and the column of its spelling location.
fn push_all_placed(
    rt: &impl Abort,
    alloc: Global,
    text: &mut Vec<u8>,
    sets: &HideSets,
    tokens: &[Hidden],
) -> Result<(), Memory> {
    for hidden in tokens {
        let mark = if is_hidden_by(rt, sets, hidden, b"g") {
            'g'
        } else {
            '-'
        };
        let placed = format!(in alloc; " {mark}{}", hidden.at().col)?;
        text.extend_from_slice(placed.as_bytes())?;
    }
    Ok(())
}

/// Returns a replacement as text, with `+` if a flag is pending. If arguments are hidden by `g`, the locations follow. Or returns
/// the fault as text.
fn as_text(
    rt: &impl Abort,
    alloc: Global,
    sets: &HideSets,
    answer: Replaced,
    hides: bool,
) -> Result<Vec<u8>, Memory> {
    let mut text = Vec::new(alloc);
    match answer {
        Ok((tokens, pending)) => {
            push_all_spelled(rt, &mut text, sets, tokens.as_slice())?;
            text.extend_from_slice(if pending { b" |+" } else { b" |-" })?;
            if hides {
                push_all_placed(rt, alloc, &mut text, sets, tokens.as_slice())?;
            }
        }
        Err(Error::Fault(fault)) => push_fault(alloc, &mut text, &fault.into_fault())?,
        Err(Error::Memory) => return Err(Memory),
    }
    Ok(text)
}

/// Returns the replacement of an invocation as text, with these hide sets. The macro name is hidden by `b`.
fn told_over(
    rt: &impl Abort,
    alloc: Global,
    sets: &mut HideSets,
    named: &PreparedMacro,
    texts: &[Source],
    (hides, space): With,
) -> Result<Vec<u8>, Memory> {
    let names: &[u8] = if hides { b"g" } else { b"" };
    let hide = set_of(rt, sets, names)?;
    let base = set_of(rt, sets, b"b")?;
    let answer = replaced(rt, alloc, sets, named, texts, (hide, base, space));
    Ok(as_text(rt, alloc, sets, answer, hides)?)
}

/// Returns the replacement of an invocation as text, with new hide sets.
fn text_of(
    rt: &impl Abort,
    alloc: Global,
    named: &PreparedMacro,
    texts: &[Source],
    with: With,
) -> Result<Vec<u8>, Memory> {
    let mut sets = HideSets::new(alloc)?;
    told_over(rt, alloc, &mut sets, named, texts, with)
}

/// Returns the table after a `#define` line with the rules of this profile.
fn table_by<'a>(
    rt: &impl Abort,
    alloc: Global,
    profile: Profile,
    line: &'a Source,
) -> Result<Table<'a>, Memory> {
    let mut table = Table::new(alloc)?;
    define_valid(rt, alloc, &mut table, profile, line.tokens())?;
    Ok(table)
}

/// Returns the replacement by the macro that a line defines with the rules of this profile, as text.
fn told_in(
    rt: &impl Abort,
    alloc: Global,
    profile: Profile,
    line: &Source,
    texts: &[Source],
    with: With,
) -> Result<Vec<u8>, Fail> {
    let table = table_by(rt, alloc, profile, line)?;
    let named = macro_of(&table, line.tokens()).ok_or("no macro")?;
    Ok(text_of(rt, alloc, named, texts, with)?)
}

/// Asserts the replacement of an invocation as text with the pending flag, or its fault. The macro is defined with the rules of
/// this profile.
fn assert_text(
    rt: &impl Abort,
    alloc: Global,
    profile: Profile,
    (line, texts): (&str, &[&str]),
    with: With,
    wanted: &str,
) -> Result<(), Fail> {
    let line = source_of(rt, alloc, line.as_bytes())?;
    let texts = sources_of(rt, alloc, texts)?;
    let found = told_in(rt, alloc, profile, &line, texts.as_slice(), with)?;
    assert_shown(rt, found.as_slice(), wanted);
    Ok(())
}

/// A macro, the arguments of an invocation, whether its name has a leading-space flag, and the replacement with the pending flag.
type Case = (&'static str, &'static [&'static str], bool, &'static str);

/// Arguments for more parameters than are searched one by one. With enough tokens they are indexed.
const SEVENTEEN: &[&str] = &[
    "1", "2", "3", "4", "5", "6", "7", "8", "9", "10", "11", "12", "13", "14", "15", "16", "17",
];

/// Examples of 6.10.3.3p4 and 6.10.3.5p5 to p9, and more.
const REPLACED: &[Case] = &[
    ("#define O (1-1)", &[], false, "(1-1) |-"),
    (
        "#define u(x,y,z) a x ## y ## z",
        &["", "", "c"],
        false,
        "a c |-",
    ),
    ("#define hash_hash # ## #", &[], false, "## |-"),
    ("#define mkstr(a) # a", &["x ## y"], false, "\"x ## y\" |-"),
    (
        "#define t(x,y,z) x ## y ## z",
        &["1", "2", "3"],
        false,
        "123 |-",
    ),
    (
        "#define t(x,y,z) x ## y ## z",
        &["", "4", "5"],
        false,
        "45 |-",
    ),
    (
        "#define t(x,y,z) x ## y ## z",
        &["6", "", "7"],
        false,
        "67 |-",
    ),
    (
        "#define t(x,y,z) x ## y ## z",
        &["10", "", ""],
        false,
        "10 |-",
    ),
    ("#define t(x,y,z) x ## y ## z", &["", "", ""], false, " |-"),
    ("#define p(a,b) a ## b", &["x y", "1 2"], false, "x y1 2 |-"),
    ("#define f(a) a %:%: a", &["y"], false, "yy |-"),
    (
        "#define str(s) # s",
        &["strncmp(\"abc\\0d\", \"abc\", '\\4') == 0"],
        false,
        "\"strncmp(\\\"abc\\\\0d\\\", \\\"abc\\\", '\\\\4') == 0\" |-",
    ),
    ("#define str(s) # s", &[" : @\\n "], false, "\": @\\n\" |-"),
    ("#define str(s) # s", &[""], false, "\"\" |-"),
    (
        "#define showlist(...) puts(#__VA_ARGS__)",
        &["The first, second, and third items."],
        false,
        "puts(\"The first, second, and third items.\") |-",
    ),
    (
        "#define g(defined,__LINE__) __LINE__ defined",
        &["1", "2"],
        false,
        "2 1 |-",
    ),
    ("#define f(a) a ## 1 #a", &["x"], false, "x1 \"x\" |-"),
    (
        "#define c(x,y,z) x ## y ## _1 ## z ## $",
        &["a", "b c", ""],
        false,
        "ab c_1$ |-",
    ),
    (
        "#define n(x) 1 ## 2 ## x ## . ## 3 ## L",
        &["e"],
        false,
        "12e.3L |-",
    ),
    (
        "#define u(x) x ## a ## \\u00c0 ## b",
        &["_"],
        false,
        "_a\\u00c0b |-",
    ),
    (
        "#define l(x) x ## 0123456789 ## 0123456789 ## x",
        &["a"],
        false,
        "a01234567890123456789a |-",
    ),
    (
        "#define pick(a,b,c,d,e,f,g,h,i,j,k,l,m,n,o,p,q) q a",
        SEVENTEEN,
        false,
        "17 1 |-",
    ),
    (
        "#define turned(a,b,c,d,e,f,g,h,i,j,k,l,m,n,o,p,q) q p o n m l k j i h g f e d c b a",
        SEVENTEEN,
        false,
        "17 16 15 14 13 12 11 10 9 8 7 6 5 4 3 2 1 |-",
    ),
];

/// The flag of the macro name is pending at first. The first token of a chain takes the pending flag, and clears it. A chain
/// without tokens leaves the flag to the next. A chain's own flag is that of its first token in the definition, and doesn't count
/// for the first chain.
const MARKED: &[Case] = &[
    ("#define E", &[], false, " |-"),
    ("#define E", &[], true, " |+"),
    ("#define O (1-1)", &[], true, " (1-1) |-"),
    ("#define f(a) <a>", &[" b "], false, "<b> |-"),
    ("#define f(a) a", &[" y"], false, "y |-"),
    ("#define f(a) a", &["y"], true, " y |-"),
    ("#define f(a)   x", &[""], false, "x |-"),
    ("#define f(a) x a", &[""], false, "x |+"),
    ("#define f(a) x a+", &[""], false, "x + |-"),
    ("#define f(a) a a a+", &[""], false, " + |-"),
    ("#define f(a) a", &[""], false, " |-"),
    ("#define f(a) a a", &[""], false, " |+"),
    ("#define f(a) x+a", &[" y z"], false, "x+y z |-"),
    ("#define f(a,b) x a##b", &["", "y"], false, "x y |-"),
    ("#define f(a,b) x+a ## b", &["", " y"], false, "x+y |-"),
    ("#define f(a) x #a", &["1"], false, "x \"1\" |-"),
    ("#define f(a) x# a", &["1"], false, "x\"1\" |-"),
];

/// Faults by number, location and text. Chains are substituted from the left; in each, `#` comes first, and then `##` from the
/// left.
const REFUSED: &[Case] = &[
    ("#define C(a,b) a ## b", &["/", "/"], false, "19 3:40:5 //"),
    ("#define S(x) #x", &["\\ "], false, "20 3:40:5 \"\\\""),
    (
        "#define f(a,b) a ## - ## #b",
        &["/", "\\ "],
        false,
        "20 3:40:5 \"\\\"",
    ),
    (
        "#define f(a,b) a ## - #b",
        &["/", "\\ "],
        false,
        "19 3:40:5 /-",
    ),
    (
        "#define f(a,b) a ## b ## -",
        &["/", "/"],
        false,
        "19 3:40:5 //",
    ),
    ("#define f(a) a ## a", &["1 -"], false, "19 3:40:5 -1"),
    ("#define f(a) # a ## 1", &["x"], false, "19 3:40:5 \"x\"1"),
    (
        "#define f(a) x ## 1 ## a ## +",
        &["y"],
        false,
        "19 3:40:5 x1y+",
    ),
    (
        "#define f(a) 1 ## a ## 2 ## +",
        &["."],
        false,
        "19 3:40:5 1.2+",
    ),
];

/// Macros that use their parameters once, twice and not at all.
const PATTERNS: &[Case] = &[
    ("#define I(x) x", &["a b"], true, " a b |-"),
    (
        "#define D(x, y) y(x, y) x",
        &["1", "+ 2"],
        false,
        "+ 2(1, + 2) 1 |-",
    ),
    ("#define N(x) 0", &["a"], false, "0 |-"),
    ("#define E(x)", &["a"], true, " |+"),
    ("#define M(x) - x -", &[""], false, "- - |-"),
    ("#define L(x) x", &[""], true, " |+"),
    (
        "#define V(x, ...) x __VA_ARGS__",
        &["f", "a, b"],
        false,
        "f a, b |-",
    ),
    ("#define P(x) x ## 1", &["a"], false, "a1 |-"),
    ("#define S(x) %: x", &["a"], false, "\"a\" |-"),
];

/// The comma before a variable argument that is absent, empty or not empty, as in gcc. Each argument is a line of its own here,
/// so its first token has a leading-space flag, and keeps it.
const RESTS: &[Case] = &[
    (
        "#define e(f, ...) p(f, ## __VA_ARGS__)",
        &["1"],
        false,
        "p(1) |-",
    ),
    (
        "#define e(f, ...) p(f, ## __VA_ARGS__)",
        &["1", ""],
        false,
        "p(1,) |-",
    ),
    (
        "#define e(f, ...) p(f, ## __VA_ARGS__)",
        &["1", "2"],
        false,
        "p(1, 2) |-",
    ),
    (
        "#define e(f, a...) p(f, ## a)",
        &["1", "2, 3"],
        false,
        "p(1, 2, 3) |-",
    ),
    ("#define z(...) 0, ## __VA_ARGS__", &[], false, "0 |-"),
    ("#define z(...) 0, ## __VA_ARGS__", &["1"], false, "0, 1 |-"),
    ("#define m(f, a...) f ,##a", &["1"], false, "1 |+"),
    ("#define t(x, V...) -x ,##V ,##V-", &["1"], false, "-1 - |-"),
    (
        "#define t(x, V...) -x ,##V ,##V-",
        &["1", "2"],
        false,
        "-1 , 2 , 2- |-",
    ),
    (
        "#define l(x, V...) x ## , ## V",
        &["", "b"],
        false,
        ", b |-",
    ),
    ("#define l(x, V...) x ## , ## V", &["", ""], false, ", |-"),
    ("#define l(x, V...) x ## , ## V", &[""], false, " |-"),
    (
        "#define l(x, V...) x ## , ## V",
        &["1"],
        false,
        "19 3:40:5 1,",
    ),
    (
        "#define n(x, V...) V , ## x",
        &["1", "2"],
        false,
        "19 3:40:5 ,1",
    ),
    ("#define h(x, V...) #V x ## V V", &["x"], false, "\"\" x |+"),
    (
        "#define h(x, V...) #V x ## V V",
        &["x", "y"],
        false,
        "\"y\" xy y |-",
    ),
];

/// If no variable argument may be absent, the comma is pasted like any other token (6.10.3.3p3).
const PASTED: &[Case] = &[
    ("#define z(...) 0, ## __VA_ARGS__", &[""], false, "0, |-"),
    (
        "#define z(...) 0, ## __VA_ARGS__",
        &["1"],
        false,
        "19 3:40:5 ,1",
    ),
];

#[test]
fn replaces_by_the_replacement_list(rt: HostRuntime) -> Result<(), Fail> {
    for cases in [REPLACED, MARKED, REFUSED, PATTERNS, PASTED] {
        for &(line, texts, space, wanted) in cases {
            let with = (false, space);
            assert_text(&rt, rt.alloc(), Profile::C11, (line, texts), with, wanted)?;
        }
    }
    Ok(())
}

#[test]
fn lays_a_rest_or_takes_the_comma_away(rt: HostRuntime) -> Result<(), Fail> {
    for &(line, texts, space, wanted) in RESTS {
        let with = (false, space);
        assert_text(&rt, rt.alloc(), Profile::Gnu, (line, texts), with, wanted)?;
    }
    Ok(())
}

#[test]
fn hides_and_places_what_it_gives(rt: HostRuntime) -> Result<(), Fail> {
    let line = "#define f(a,b) a a##a a##1 #a x b##a";
    let wanted = "y yy y1 \"y\" x y |- g1 g1 -1 -28 -31 g1";
    assert_text(
        &rt,
        rt.alloc(),
        Profile::C11,
        (line, &["y", ""]),
        (true, false),
        wanted,
    )
}

/// The tokens of a variable argument after a comma keep their hide sets, and the comma before them has the empty one.
#[test]
fn puts_a_variable_argument_after_the_comma(rt: HostRuntime) -> Result<(), Fail> {
    let line = "#define e(f,a...) f,##a";
    let wanted = "1, 2+ |- g1 -20 g1 g2";
    assert_text(
        &rt,
        rt.alloc(),
        Profile::Gnu,
        (line, &["1", "2+"]),
        (true, false),
        wanted,
    )
}

/// Asserts a token as text, and which of the names `a`, `b` and `c` hide it.
pub(super) fn assert_made(
    rt: &impl Abort,
    alloc: Global,
    sets: &HideSets,
    made: &Hidden,
    (wanted, names): (&str, &[u8]),
) -> Result<(), Memory> {
    let mut text = Vec::new(alloc);
    let marks = (made.kind(), made.space());
    push_fields(
        alloc,
        &mut text,
        marks,
        made.text(),
        (made.at(), made.used()),
    )?;
    assert_shown(rt, text.as_slice(), wanted);
    for name in b"abc" {
        let is_wanted = names.contains(name);
        assert!(rt;
            is_hidden_by(rt, sets, made, &[*name]) == is_wanted,
            "{name}"
        );
    }
    Ok(())
}

/// Asserts the string literal of tokens that `a` hides.
fn assert_stringized(
    rt: &impl Abort,
    alloc: Global,
    sets: &mut HideSets,
    tokens: &[Token],
    wanted: &str,
) -> Result<(), Fail> {
    let hide = set_of(rt, sets, b"a")?;
    assert!(rt; sets.knows(hide));
    let argument = hidden(alloc, sets, hide, tokens)?;
    let Ok(literal) = stringize(alloc, argument.as_slice(), HASH, USED, sets) else {
        return Err(Fail::new("no literal"));
    };
    Ok(assert_made(rt, alloc, sets, &literal, (wanted, b""))?)
}

/// Returns the paste of two tokens: `a` and `b` hide the left one, and `a` hides the other.
fn pasted<'a>(
    rt: &impl Abort,
    alloc: Global,
    sets: &mut HideSets,
    left: &Token,
    right: &Token,
) -> Result<Hidden<'a>, Error> {
    let (a, ab) = (set_of(rt, sets, b"a")?, set_of(rt, sets, b"ab")?);
    assert!(rt; sets.knows(a) && sets.knows(ab));
    let (left, right) = (Hidden::new(left, ab), Hidden::new(right, a));
    paste(alloc, &left, &right, USED, sets)
}

/// Asserts the paste of the second and the third of three tokens, which `a` hides.
fn assert_pasted(
    rt: &impl Abort,
    alloc: Global,
    sets: &mut HideSets,
    tokens: &[Token],
    wanted: &str,
) -> Result<(), Fail> {
    let [_, left, right] = tokens else {
        return Err(Fail::new("other tokens"));
    };
    let Ok(token) = pasted(rt, alloc, sets, left, right) else {
        return Err(Fail::new("no token"));
    };
    Ok(assert_made(rt, alloc, sets, &token, (wanted, b"a"))?)
}

#[test]
fn makes_a_literal_of_tokens(rt: HostRuntime) -> Result<(), Fail> {
    decides_each_kind();
    let source = source_of(&rt, rt.alloc(), b" x  + '\"'")?;
    let mut sets = HideSets::new(rt.alloc())?;
    let wanted = "s- \"x + '\\\"'\" 1:1:1 3:40:5, ";
    assert_stringized(&rt, rt.alloc(), &mut sets, source.tokens(), wanted)
}

#[test]
fn pastes_two_tokens(rt: HostRuntime) -> Result<(), Fail> {
    let source = source_of(&rt, rt.alloc(), b"+ x 1")?;
    let mut sets = HideSets::new(rt.alloc())?;
    let wanted = "i+ x1 1:1:3 3:40:5, ";
    assert_pasted(&rt, rt.alloc(), &mut sets, source.tokens(), wanted)
}

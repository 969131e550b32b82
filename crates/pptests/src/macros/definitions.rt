//! Tests of `#define` and `#undef` (6.10.3, 6.10.3.5).
use super::{HASH, shown, table_of};
use crate::defining::{define_valid, direct, drawn, source_of};
use ppmacro::{PreparedSource, Table, define_line};
use pptext::{Error, Hashing, Memory, Profile, Source, Token};
use std::alloc::Global;
use std::process::Abort;
use std::test::Fail;

/// Applies a line to a table. If an allocation fails, asserts that the name's definition is unchanged, and applies the line
/// again.
fn direct_again<'a>(
    rt: &impl Abort,
    alloc: Global,
    table: &mut Table<'a>,
    (profile, line): (Profile, &'a [Token]),
    (name, before): (&str, &[u8]),
) -> Result<(), Error> {
    let answer = direct(alloc, table, profile, line);
    if !matches!(&answer, Err(Error::Memory)) {
        return answer;
    }
    assert!(rt; shown(alloc, table, name)?.as_slice() == before, "{name}");
    direct(alloc, table, profile, line)
}

/// Returns whether a line gives a name this definition, or returns the fault with this number and leaves the definition.
fn is_wanted(
    answer: Result<(), Error>,
    name: &str,
    (before, after): (&[u8], &[u8]),
    wanted: Result<&str, u8>,
) -> bool {
    match (answer, wanted) {
        (Ok(()), Ok(definition)) => after == definition.as_bytes(),
        (Err(Error::Fault(fault)), Err(number)) => {
            let fault = fault.into_fault();
            fault.number == number
                && fault.at == HASH
                && fault.text.as_bytes() == name.as_bytes()
                && after == before
        }
        _ => false,
    }
}

/// Asserts the effect of a line on a table.
fn assert_changes<'a>(
    rt: &impl Abort,
    alloc: Global,
    table: &mut Table<'a>,
    line: (Profile, &'a [Token]),
    name: &str,
    wanted: Result<&str, u8>,
) -> Result<(), Memory> {
    let before = shown(alloc, table, name)?;
    let answer = direct_again(rt, alloc, table, line, (name, before.as_slice()));
    if matches!(&answer, Err(Error::Memory)) {
        return Err(Memory);
    }
    let after = shown(alloc, table, name)?;
    assert!(rt;
        is_wanted(answer, name, (before.as_slice(), after.as_slice()), wanted),
        "{name}"
    );
    Ok(())
}

/// Asserts the effect of a line after other lines.
fn assert_next(
    rt: &impl Abort,
    alloc: Global,
    lines: &Source,
    line: (Profile, &[Token]),
    name: &str,
    wanted: Result<&str, u8>,
) -> Result<(), Memory> {
    let mut table = table_of(rt, alloc, lines)?;
    assert_changes(rt, alloc, &mut table, line, name, wanted)
}

/// Asserts the effect of a line with the rules of a profile. The lines before it have the rules of C11. The line gives the name
/// this definition, or returns the fault with this number and leaves the definition.
fn assert_directed(
    rt: &impl Abort,
    alloc: Global,
    profile: Profile,
    (lines, line): (&str, &str),
    name: &str,
    wanted: Result<&str, u8>,
) -> Result<(), Fail> {
    let lines = source_of(rt, alloc, lines.as_bytes())?;
    let line = source_of(rt, alloc, line.as_bytes())?;
    let line = (profile, line.tokens());
    Ok(assert_next(rt, alloc, &lines, line, name, wanted)?)
}

/// Lines, the next line, and a name: its definition afterwards, or the number of the fault that has the name as its text.
type Case = (
    &'static str,
    &'static str,
    &'static str,
    Result<&'static str, u8>,
);

/// Invalid lines after `X` is defined as 7, in the order of the rules.
const REFUSED: &[Case] = &[
    ("#define X 7", "#define", "define", Err(9)),
    ("#define X 7", "#define 1 X", "define", Err(9)),
    ("#define X 7", "#define \"X\"", "define", Err(9)),
    ("#define X 7", "#define __LINE__ 1", "__LINE__", Err(10)),
    (
        "#define X 7",
        "#define __STDC_HOSTED__",
        "__STDC_HOSTED__",
        Err(10),
    ),
    ("#define X 7", "#define defined+", "defined", Err(10)),
    (
        "#define X 7",
        "#define __VA_ARGS__ 1",
        "__VA_ARGS__",
        Err(10),
    ),
    ("#define X 7", "#define f(a,a) a", "f", Err(11)),
    (
        "#define X 7",
        "#define f(a,b,c,d,e,f,g,h,i,j,k,l,m,n,o,p,q,r,a) a",
        "f",
        Err(11),
    ),
    ("#define X 7", "#define f(a,) a", "f", Err(11)),
    ("#define X 7", "#define f(,a) a", "f", Err(11)),
    ("#define X 7", "#define f(a,...,b) a", "f", Err(11)),
    ("#define X 7", "#define f(a...) a", "f", Err(11)),
    ("#define X 7", "#define f(. . .) 1", "f", Err(11)),
    ("#define X 7", "#define f(a b) a", "f", Err(11)),
    ("#define X 7", "#define X(", "X", Err(11)),
    ("#define X 7", "#define X(a", "X", Err(11)),
    (
        "#define X 7",
        "#define f(__VA_ARGS__,__VA_ARGS__) 1",
        "f",
        Err(11),
    ),
    ("#define X 7", "#define f(__VA_ARGS__,...) 1", "f", Err(15)),
    ("#define X 7", "#define X+1", "X", Err(12)),
    ("#define X 7", "#define X\"\"", "X", Err(12)),
    ("#define X 7", "#define X __VA_ARGS__", "X", Err(15)),
    ("#define X 7", "#define X __VA_ARGS__ ##", "X", Err(15)),
    ("#define X 7", "#define f(a) __VA_ARGS__", "f", Err(15)),
    ("#define X 7", "#define X ## a", "X", Err(13)),
    ("#define X 7", "#define X a ##", "X", Err(13)),
    ("#define X 7", "#define X a ## %:%: b", "X", Err(13)),
    ("#define X 7", "#define f(a) # ## a ##", "f", Err(13)),
    ("#define X 7", "#define f(a) # b", "f", Err(14)),
    (
        "#define X 7",
        "#define f(a,b,c,d,e,f,g,h,i,j,k,l,m,n,o,p,q,r) a b c d e f g h i j k l m n #r # z",
        "f",
        Err(14),
    ),
    ("#define X 7", "#define f(a) a #", "f", Err(14)),
    ("#define X 7", "#define f(a) %: 1", "f", Err(14)),
    ("#define X 7", "#define X 8", "X", Err(16)),
    ("#define X 7", "#define X() 7", "X", Err(16)),
    ("#define X 7", "#undef", "undef", Err(9)),
    ("#define X 7", "#undef 1", "undef", Err(9)),
    ("#define X 7", "#undef X Y", "undef", Err(9)),
    ("#define X 7", "#undef __FILE__ X", "undef", Err(9)),
    ("#define X 7", "#undef __FILE__", "__FILE__", Err(10)),
    (
        "#define X 7",
        "#undef __STDC_VERSION__",
        "__STDC_VERSION__",
        Err(10),
    ),
    ("#define X 7", "#undef defined", "defined", Err(10)),
    ("#define X 7", "#undef __VA_ARGS__", "__VA_ARGS__", Err(10)),
];

/// Lines that define and undefine.
const DEFINED: &[Case] = &[
    ("", "#define O (1-1)", "O", Ok(" (1-1)")),
    (
        "#define O (1-1)",
        "#define O (1-1) /* same */",
        "O",
        Ok(" (1-1)"),
    ),
    ("#define O (1-1)", "#undef O", "O", Ok("none")),
    ("", "#undef O", "O", Ok("none")),
    ("#define O", "#define E", "O", Ok("")),
    ("", "#define E", "E", Ok("")),
    ("", "#define hash_hash # ## #", "hash_hash", Ok(" # ## #")),
    ("", "#define p() 1", "p", Ok("() 1")),
    (
        "",
        "#define g(defined,__LINE__) # __LINE__",
        "g",
        Ok("(defined,__LINE__,) # __LINE__"),
    ),
    ("", "#define h(a)#a##a", "h", Ok("(a,)#a##a")),
    (
        "",
        "#define v(...) #__VA_ARGS__",
        "v",
        Ok("(__VA_ARGS__,...) #__VA_ARGS__"),
    ),
    (
        "",
        "#define w(a,...)a##__VA_ARGS__",
        "w",
        Ok("(a,__VA_ARGS__,...)a##__VA_ARGS__"),
    ),
    (
        "#define w(a,...)a##__VA_ARGS__",
        "#undef w",
        "w",
        Ok("none"),
    ),
    ("#define O 1\n#undef O", "#define O 2", "O", Ok(" 2")),
];

/// Pairs of definitions of `X`.
const COMPARED: &[Case] = &[
    (
        "#define X (1-1)",
        "#define X (1-1) /* same */",
        "X",
        Ok(" (1-1)"),
    ),
    ("#define X (1-1)", "#define X ( 1-1 )", "X", Err(16)),
    ("#define X 1", "#define X", "X", Err(16)),
    ("#define X", "#define X", "X", Ok("")),
    ("#define X(a)x", "#define X(a) x", "X", Ok("(a,) x")),
    ("#define X(a) 1", "#define X(b) 1", "X", Err(16)),
    ("#define X(a) #a", "#define X(a) %:a", "X", Err(16)),
    ("#define X()", "#define X", "X", Err(16)),
    ("#define X(...)", "#define X()", "X", Err(16)),
    (
        "#define X __LINE__",
        "#define X  __LINE__ ",
        "X",
        Ok(" __LINE__"),
    ),
];

/// Lines that GNU C permits, and lines that it doesn't.
const GNU: &[Case] = &[
    ("", "#define f(a...) a", "f", Ok("(a,...?) a")),
    ("", "#define f(a, b ...)b", "f", Ok("(a,b,...?)b")),
    (
        "",
        "#define f(a,...)a##__VA_ARGS__",
        "f",
        Ok("(a,__VA_ARGS__,...?)a##__VA_ARGS__"),
    ),
    ("", "#define f(a...,b) a", "f", Err(11)),
    ("", "#define f(a... ...) a", "f", Err(11)),
    ("", "#define f(a,a...) a", "f", Err(11)),
    ("", "#define f(__VA_ARGS__...) 1", "f", Err(15)),
    ("", "#define f(a...) __VA_ARGS__", "f", Err(15)),
    ("", "#define f(a...) #b", "f", Err(14)),
    ("#define X 7", "#define X 8", "X", Ok(" 8")),
    ("#define X 7", "#define X() 7", "X", Ok("() 7")),
    (
        "",
        "#define __STDC_VERSION__ 1",
        "__STDC_VERSION__",
        Ok(" 1"),
    ),
    (
        "",
        "#undef __STDC_VERSION__",
        "__STDC_VERSION__",
        Ok("none"),
    ),
    ("", "#define __STDC__ 1", "__STDC__", Err(10)),
];

/// Lines that stay invalid with the extensions of ISO/IEC 9899:2024.
const LATER: &[Case] = &[
    ("", "#define f(a...) a", "f", Err(11)),
    ("#define X 7", "#define X 8", "X", Err(16)),
    ("", "#undef __STDC_VERSION__", "__STDC_VERSION__", Err(10)),
];

/// The cases of each profile.
const TABLES: &[(Profile, &[Case])] = &[
    (Profile::C11, REFUSED),
    (Profile::C11, DEFINED),
    (Profile::C11, COMPARED),
    (Profile::Later, LATER),
    (Profile::Gnu, GNU),
];

#[test]
fn defines_compares_and_refuses(rt: HostRuntime) -> Result<(), Fail> {
    for &(profile, cases) in TABLES {
        for &(lines, line, name, wanted) in cases {
            assert_directed(&rt, rt.alloc(), profile, (lines, line), name, wanted)?;
        }
    }
    Ok(())
}

/// Returns the line of the one token of `X`.
fn line_of_x(table: &Table) -> Option<u32> {
    match table.get(b"X")?.body() {
        [token] => Some(token.at.line),
        _ => None,
    }
}

#[test]
fn the_later_of_two_agreeing_definitions_stays(rt: HostRuntime) -> Result<(), Fail> {
    let lines = source_of(&rt, rt.alloc(), b"#define X 1\n#define X 1")?;
    let table = table_of(&rt, rt.alloc(), &lines)?;
    assert!(&rt; line_of_x(&table) == Some(2));
    Ok(())
}

/// Names, with their definitions in a new table.
const PREDEFINED: &[(&str, &str)] = &[
    ("__FILE__", "predefined"),
    ("__LINE__", "predefined"),
    ("__DATE__", "predefined"),
    ("__TIME__", "predefined"),
    ("__STDC__", "predefined"),
    ("__STDC_HOSTED__", "predefined"),
    ("__STDC_VERSION__", "predefined"),
    ("defined", "none"),
    ("__VA_ARGS__", "none"),
    ("__STDC", "none"),
];

/// Asserts the definitions in a new table.
fn assert_predefined(rt: &impl Abort, alloc: Global, table: &Table) -> Result<(), Memory> {
    for &(name, definition) in PREDEFINED {
        assert!(rt;
            shown(alloc, table, name)?.as_slice() == definition.as_bytes(),
            "{name}"
        );
    }
    Ok(())
}

/// Asserts the definitions in a new table with this hash function. Returns the hash function that the table reports.
fn hashed(rt: &impl Abort, alloc: Global, hashing: Hashing) -> Result<Hashing, Memory> {
    let table = Table::with_hasher(alloc, hashing)?;
    assert_predefined(rt, alloc, &table)?;
    Ok(table.hashing())
}

#[test]
fn holds_the_predefined_names_alone(rt: HostRuntime) -> Result<(), Fail> {
    for hashing in [Hashing::fixed(), drawn(&rt)?] {
        let same = hashed(&rt, rt.alloc(), hashing)?;
        let _same = hashed(&rt, rt.alloc(), same)?;
    }
    Ok(())
}

/// Lines of GNU C, the next line, which has the rules of C11, and the number of its fault. A unit has one profile, so none has
/// such lines.
const MIXED: &[(&str, &str, u8)] = &[
    ("#define f(x...) x", "#define f(x) x", 16),
    ("#define f(...) 1", "#define f(...) 1", 16),
    (
        "#define __STDC_VERSION__ 199901L",
        "#undef __STDC_VERSION__",
        10,
    ),
    ("#undef __STDC_VERSION__", "#define __STDC_VERSION__ 1", 10),
];

/// Asserts the number of the fault of a line with the rules of C11 after a line of GNU C.
fn assert_refused_after_gnu(
    rt: &impl Abort,
    alloc: Global,
    (gnu, line): (&Source, &Source),
    number: u8,
) -> Result<(), Memory> {
    let mut table = Table::new(alloc)?;
    define_valid(rt, alloc, &mut table, Profile::Gnu, gnu.tokens())?;
    match direct(alloc, &mut table, Profile::C11, line.tokens()) {
        Ok(()) => assert!(rt; false, "no fault"),
        Err(Error::Fault(fault)) => assert!(rt; fault.into_fault().number == number),
        Err(Error::Memory) => return Err(Memory),
    }
    Ok(())
}

#[test]
fn compares_and_reserves_across_profiles(rt: HostRuntime) -> Result<(), Fail> {
    for &(gnu, line, number) in MIXED {
        let gnu = source_of(&rt, rt.alloc(), gnu.as_bytes())?;
        let line = source_of(&rt, rt.alloc(), line.as_bytes())?;
        assert_refused_after_gnu(&rt, rt.alloc(), (&gnu, &line), number)?;
    }
    Ok(())
}

/// Returns the number of the fault of a directive line that was read with its file, or 0.
fn number_of(answer: Result<(), Error>) -> Result<u8, Memory> {
    match answer {
        Ok(()) => Ok(0),
        Err(Error::Fault(fault)) => Ok(fault.into_fault().number),
        Err(Error::Memory) => Err(Memory),
    }
}

/// Executes the directive lines of a file in a table, `#define` lines as they were read with the file. Returns the number of the
/// last line's fault, or 0.
fn direct_prepared<'a>(
    alloc: Global,
    table: &mut Table<'a>,
    profile: Profile,
    prepared: &'a PreparedSource,
) -> Result<u8, Memory> {
    let source = prepared.source();
    let mut number = 0;
    for index in 0..source.line_count() {
        let tokens = source.line_tokens(index);
        let is_same = source.line(index).end - source.line(index).start == tokens.len()
            && source.tokens_between(index, index + 1).len() == tokens.len();
        number = match prepared.define_line(index) {
            Some(line) if is_same => number_of(define_line(alloc, table, profile, line))?,
            _ => number_of(direct(alloc, table, profile, tokens))?,
        };
    }
    Ok(number)
}

/// Asserts the effect of a line after other lines of its file, all read with the file in the profile `read`.
fn assert_prepared(
    rt: &impl Abort,
    alloc: Global,
    (profile, read): (Profile, Profile),
    source: Source,
    name: &str,
    wanted: Result<&str, u8>,
) -> Result<(), Memory> {
    let prepared = PreparedSource::new(alloc, source, read, Hashing::fixed())?;
    let mut table = Table::new(alloc)?;
    let number = direct_prepared(alloc, &mut table, profile, &prepared)?;
    match wanted {
        Ok(definition) => {
            assert!(rt; number == 0, "{name}");
            assert!(rt;
                shown(alloc, &table, name)?.as_slice() == definition.as_bytes(),
                "{name}"
            );
        }
        Err(wanted) => assert!(rt; number == wanted, "{name}"),
    }
    Ok(())
}

#[test]
fn lines_read_with_their_file_define_the_same(rt: HostRuntime) -> Result<(), Fail> {
    for &(profile, cases) in TABLES {
        for &(lines, line, name, wanted) in cases {
            let text = format!(in rt.alloc(); "{lines}\n{line}\n")?;
            for read in [profile, Profile::C11, Profile::Gnu] {
                let source = source_of(&rt, rt.alloc(), text.as_bytes())?;
                assert_prepared(&rt, rt.alloc(), (profile, read), source, name, wanted)?;
            }
        }
    }
    Ok(())
}

//! Tests of reading files: lines, branches, guards and the first fault; the kind of one token, and what continues a token. More
//! tokens are in tests/token_tests.py, which compares the program's output.
use super::{FILE, read};
use crate::showing::{assert_shown, push_fault};
use pptext::{Fault, Kind, Line, Profile, Source, continues, relex};
use std::alloc::{AllocError, Global};
use std::process::Abort;
use std::test::Fail;

/// The part of a file that a test compares.
#[derive(Clone, Copy)]
enum Shown {
    /// The lines, as `0-3 1 Ifndef 3, `: the tokens, the line number, the directive and the next branch line.
    Lines,
    /// The directives and the next branch lines.
    Links,
    /// The name of the guard.
    Guard,
}

/// Appends a line to a text, as `0-3 1 Ifdef 3, ` or, without tokens and line number, as `Ifdef 3, `. A `-` means that there is
/// none.
fn push_line(
    alloc: Global,
    text: &mut Vec<u8>,
    line: &Line,
    numbered: bool,
) -> Result<(), AllocError> {
    if numbered {
        let span = format!(in alloc; "{}-{} {} ", line.start, line.end, line.number)?;
        text.extend_from_slice(span.as_bytes())?;
    }
    match line.directive {
        Some(directive) => {
            text.extend_from_slice(format!(in alloc; "{directive:?} ")?.as_bytes())?
        }
        None => text.extend_from_slice(b"- ")?,
    }
    match line.next_branch {
        Some(next) => text.extend_from_slice(format!(in alloc; "{next}, ")?.as_bytes()),
        None => text.extend_from_slice(b"-, "),
    }
}

/// Appends lines to a text.
fn push_lines(
    alloc: Global,
    text: &mut Vec<u8>,
    lines: &[Line],
    numbered: bool,
) -> Result<(), AllocError> {
    for line in lines {
        push_line(alloc, text, line, numbered)?;
    }
    Ok(())
}

/// Appends this part of a file to a text.
fn push_source(
    alloc: Global,
    text: &mut Vec<u8>,
    source: &Source,
    shown: Shown,
) -> Result<(), AllocError> {
    match shown {
        Shown::Lines => push_lines(alloc, text, source.lines(), true),
        Shown::Links => push_lines(alloc, text, source.lines(), false),
        Shown::Guard => text.extend_from_slice(source.guard().unwrap_or(b"none")),
    }
}

/// Returns this part of a file as text, or its fault.
fn shown_of(
    alloc: Global,
    answer: &Result<Source, Fault>,
    shown: Shown,
) -> Result<Vec<u8>, AllocError> {
    let mut text = Vec::new(alloc);
    match answer {
        Ok(source) => push_source(alloc, &mut text, source, shown)?,
        Err(fault) => push_fault(alloc, &mut text, fault)?,
    }
    Ok(text)
}

/// Asserts this part of files.
fn assert_files(
    rt: &impl Abort,
    alloc: Global,
    shown: Shown,
    cases: &[(Profile, &str, &str)],
) -> Result<(), Fail> {
    for (profile, file, wanted) in cases {
        let answer = read(rt, alloc, *profile, file.as_bytes())?;
        let found = shown_of(alloc, &answer, shown)?;
        assert_shown(rt, found.as_slice(), wanted);
    }
    Ok(())
}

/// Lines by profile, and the first fault.
const LINES: &[(Profile, &str, &str)] = &[
    (
        Profile::C11,
        "#ifndef X\n\t/*\n*/ # def\\\nine X\n\n??=endif\n",
        "0-3 1 Ifndef 3, 3-6 4 Define -, 6-6 5 - -, 6-8 6 Endif -, ",
    ),
    // a header name by profile: one token, or each of its own
    (Profile::C11, "#include <a b>", "0-3 1 Include -, "),
    (Profile::Gnu, "#include <a b>", "0-3 1 Include -, "),
    (Profile::C11, "#include_next <a b>", "0-6 1 Unknown -, "),
    (Profile::Later, "#include_next <a b>", "0-6 1 Unknown -, "),
    (Profile::Gnu, "#include_next <a b>", "0-3 1 IncludeNext -, "),
    (
        Profile::C11,
        "%:include_next\"a\\\"b\"",
        "0-3 1 Unknown -, ",
    ),
    (
        Profile::Gnu,
        "%:include_next\"a\\\"b\"",
        "0-5 1 IncludeNext -, ",
    ),
    (Profile::Gnu, "#warning <a b>", "0-6 1 Ignored -, "),
    // the first fault
    (Profile::C11, "/*\na \\", "2 7:2:3 "),
    (Profile::C11, "\u{feff}#else\n/\\\n* ", "1 7:2:1 "),
    (Profile::C11, "#if 1\n# else\n#elif\n", "4 7:3:1 elif"),
    (Profile::C11, "#if 1\n#ifdef X\n", "5 7:2:1 ifdef"),
];

/// Branches, and faults of groups.
const LINKS: &[(Profile, &str, &str)] = &[
    (
        Profile::C11,
        "#if a\n#ifdef B\nx\n#endif\n#elif b\n%:\n#else\n#endif\n",
        "If 4, Ifdef 3, - -, Endif -, Elif 6, Null -, Else 7, Endif -, ",
    ),
    (Profile::C11, "\n # endif", "3 7:2:2 endif"),
    (Profile::C11, "#if 1\n#endif\n#elif 1\n#if", "3 7:3:1 elif"),
    (Profile::C11, "#if 1\n#else\n#else\n#endif", "4 7:3:1 else"),
    (Profile::C11, "#if 1\n#ifdef X\n#endif\n#else", "5 7:1:1 if"),
    // by profile
    (
        Profile::Later,
        "#if a\n#elifdef B\nx\n%: elifndef C\n#else\n#endif\n",
        "If 1, Elifdef 3, - -, Elifndef 4, Else 5, Endif -, ",
    ),
    (
        Profile::C11,
        "#if a\n#elifdef B\nx\n%: elifndef C\n#else\n#endif\n",
        "If 4, Unknown -, - -, Unknown -, Else 5, Endif -, ",
    ),
    (Profile::Later, " #elifndef Q", "3 7:1:2 elifndef"),
    (Profile::C11, " #elifndef Q", "Unknown -, "),
    (
        Profile::Later,
        "#if 1\n#else\n#elifdef X\n#endif",
        "4 7:3:1 elifdef",
    ),
    (
        Profile::C11,
        "#if 1\n#else\n#elifdef X\n#endif",
        "If 1, Else 3, Unknown -, Endif -, ",
    ),
];

/// Files with and without a guard.
const GUARDS: &[(Profile, &str, &str)] = &[
    (Profile::C11, "\n#ifndef X\na\n#endif\n\n", "X"),
    (Profile::C11, "# if !defined X\n#endif", "X"),
    (
        Profile::C11,
        "#if !defined(X)\n#if 1\n#else\n#endif\n#endif",
        "X",
    ),
    (
        Profile::C11,
        "#ifndef X\n\t/*\n*/ # def\\\nine X\n\n??=endif\n",
        "X",
    ),
    (Profile::C11, "#ifndef X\n#else\n#endif", "none"),
    (Profile::C11, "#ifndef X\n#elif 1\n#endif", "none"),
    (Profile::C11, "#ifndef X\n#endif\na", "none"),
    (Profile::C11, "a\n#ifndef X\n#endif", "none"),
    (Profile::C11, "#ifndef X\n#endif\n#ifndef X\n#endif", "none"),
    (Profile::C11, "#ifdef X\n#endif", "none"),
    (Profile::C11, "#ifndef 1\n#endif", "none"),
    (Profile::C11, "", "none"),
    // a branch of the later profile, whose name is that of no directive in C11
    (Profile::Later, "#ifndef X\n#elifdef Y\n#endif", "none"),
    (Profile::C11, "#ifndef X\n#elifdef Y\n#endif", "X"),
    (Profile::Later, "#ifndef X\n#elifndef Y\n#endif", "none"),
    (Profile::C11, "#ifndef X\n#elifndef Y\n#endif", "X"),
    (
        Profile::Later,
        "#ifndef X\n#if 1\n#elifdef Y\n#endif\n#endif",
        "X",
    ),
    (
        Profile::C11,
        "#ifndef X\n#if 1\n#elifdef Y\n#endif\n#endif",
        "X",
    ),
];

#[test]
fn reads_files(rt: HostRuntime) -> Result<(), Fail> {
    for (shown, cases) in [
        (Shown::Lines, LINES),
        (Shown::Links, LINKS),
        (Shown::Guard, GUARDS),
    ] {
        assert_files(&rt, rt.alloc(), shown, cases)?;
    }
    Ok(())
}

#[test]
fn reads_directives_by_profile(rt: HostRuntime) -> Result<(), Fail> {
    for (profile, wanted) in [
        (Profile::Later, "3 7:1:1 elifdef"),
        (Profile::C11, "0-3 1 Unknown -, "),
    ] {
        let answer = read(&rt, rt.alloc(), profile, b"#elifdef X\n")?;
        let found = shown_of(rt.alloc(), &answer, Shown::Lines)?;
        assert_shown(&rt, found.as_slice(), wanted);
    }
    Ok(())
}

/// Texts, with the kind and the length of the longest prefix that is one token, or the whole length if there is none. An
/// unmatched quote is no token (6.4p3). tests/token_tests.py has most of these texts by what the program prints.
const LEXED: &[(&[u8], Option<Kind>, usize)] = &[
    (b"", None, 0),
    (b"x1", Some(Kind::Ident), 2),
    (b"1e+x", Some(Kind::Number), 4),
    (b"L'\\''", Some(Kind::CharConst), 5),
    (b"u8\"/*\"", Some(Kind::Str), 6),
    (b"%:%:", Some(Kind::Punct), 4),
    (b"@", Some(Kind::Other), 1),
    (b"'", None, 1),
    (b"\"", None, 1),
    (b"''", None, 2),
    (b"'a\\\n'", None, 5),
    (b"-+", None, 2),
    (b" x", None, 2),
    (b"x ", None, 2),
    (b"\n", None, 1),
    (b"/**/", None, 4),
    (b"//", None, 2),
    (b"<x>", None, 3),
    (b".5e+3.x,", Some(Kind::Number), 7),
    (b"0x1p-3 ", Some(Kind::Number), 6),
    (b"1..2-3", Some(Kind::Number), 4),
    (b"1e+e+-", Some(Kind::Number), 5),
    (b"1\\u00e9z'", Some(Kind::Number), 8),
    (b"a$\x80\xff_9Z-", Some(Kind::Ident), 7),
    (b"\\u00e9\\U0001F600x1+", Some(Kind::Ident), 18),
    (b"a\\u00e", Some(Kind::Ident), 1),
    (b"\\u12", Some(Kind::Other), 1),
    (b"u8\"a\\\"b\"c", Some(Kind::Str), 8),
    (b"u8'a'", Some(Kind::Ident), 2),
    (b"u'a'", Some(Kind::CharConst), 4),
    (b"U\"\"", Some(Kind::Str), 3),
    (b"L'x'", Some(Kind::CharConst), 4),
    (b"'\\''x", Some(Kind::CharConst), 4),
    (b"'\"'", Some(Kind::CharConst), 3),
    (b"\"'\"", Some(Kind::Str), 3),
    (b"''", None, 1),
    (b"'a", None, 1),
    (b"'a\n'", None, 1),
    (b"\"abc", None, 1),
    (b"L'", Some(Kind::Ident), 1),
    (b"%:%:x", Some(Kind::Punct), 4),
    (b"%:%", Some(Kind::Punct), 2),
    (b"....", Some(Kind::Punct), 3),
    (b"..", Some(Kind::Punct), 1),
    (b"<<=", Some(Kind::Punct), 3),
    (b"->", Some(Kind::Punct), 2),
    (b"<a b>", Some(Kind::Punct), 1),
    (b"@", Some(Kind::Other), 1),
    (b"`", Some(Kind::Other), 1),
    (b"\\", Some(Kind::Other), 1),
    (b"\x00", Some(Kind::Other), 1),
];

/// Returns whether the first `len` bytes of a text are one token of this kind, or none, and no longer prefix is one.
fn is_longest(text: &[u8], kind: Option<Kind>, len: usize) -> bool {
    for longer in len..text.len() {
        if relex(&text[..=longer]).is_some() {
            return false;
        }
    }
    len <= text.len() && relex(&text[..len]) == kind
}

#[test]
fn relexes_one_token(rt: HostRuntime) {
    for (text, kind, len) in LEXED {
        assert!(rt; is_longest(text, *kind, *len), "{text:?}");
    }
}

/// Kinds and spellings of tokens, texts after them, and whether the text continues the token.
const CARRIED: &[(Kind, &[u8], &[u8], bool)] = &[
    (Kind::Ident, b"a", b"", true),
    (Kind::Ident, b"a", b"aZ_$09\xff", true),
    (Kind::Ident, b"a", b"\\u00c0b", true),
    (Kind::Ident, b"a", b"\\u00c", false),
    (Kind::Ident, b"a", b"a.", false),
    (Kind::Number, b"1", b".5e+3x", true),
    (Kind::Number, b"1", b"+", false),
    (Kind::Number, b"1e", b"+2", true),
    (Kind::Number, b"1P", b"-", true),
    (Kind::Number, b"1\\u00ce", b"+", false),
    (Kind::Number, b"1\\U000000ce", b"-", false),
    (Kind::Ident, b"e", b"+", false),
    (Kind::Punct, b".", b".", false),
];

#[test]
fn tells_what_carries_on(rt: HostRuntime) {
    for (kind, text, more, carries) in CARRIED {
        assert!(rt; continues(*kind, text, more) == *carries, "{more:?}");
    }
}

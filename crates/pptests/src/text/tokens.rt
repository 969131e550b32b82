//! Tests of tokens, spellings and faults.
use pptext::{Error, Fault, Kind, Place, Spelling, Token, Tokens, push, split_memory};
use std::alloc::{AllocError, Global};
use std::test::Fail;

/// The location of the tests.
const AT: Place = Place {
    file: 1,
    line: 2,
    col: 3,
};

/// Returns a token of this kind and spelling.
fn word(alloc: Global, kind: Kind, text: &[u8]) -> Result<Token, AllocError> {
    Ok(Token {
        kind,
        text: Spelling::from_slice(alloc, text)?,
        space: true,
        at: AT,
        used: AT,
    })
}

/// Kinds and spellings of tokens, another spelling, and whether the token is an identifier, the name with that spelling, the
/// punctuator with that spelling, an unmatched quote.
const ASKED: &[(Kind, &str, &str, [bool; 4])] = &[
    (
        Kind::Ident,
        "defined",
        "defined",
        [true, true, false, false],
    ),
    (
        Kind::Ident,
        "defined",
        "define",
        [true, false, false, false],
    ),
    (Kind::Punct, ",", ",", [false, false, true, false]),
    (Kind::Punct, ",", "(", [false, false, false, false]),
    (Kind::Other, "'", "'", [false, false, false, true]),
    (Kind::Other, "\"", "\"", [false, false, false, true]),
    (Kind::Other, "@", "@", [false, false, false, false]),
    (Kind::Str, "\"", "\"", [false, false, false, false]),
];

#[test]
fn tells_what_tokens_are(rt: HostRuntime) -> Result<(), Fail> {
    for (kind, text, asked, wanted) in ASKED {
        let token = word(rt.alloc(), *kind, text.as_bytes())?;
        let answers = [
            token.is_identifier(),
            token.is_identifier_named(asked.as_bytes()),
            token.is_punct(asked.as_bytes()),
            token.is_unmatched_quote(),
        ];
        assert!(rt; answers == *wanted, "{text}");
    }
    Ok(())
}

/// Returns whether a fault has this text and the location of the tests.
fn is_fault(fault: &Fault, text: &[u8]) -> bool {
    fault.number == 8 && fault.at == AT && fault.text.as_bytes() == text
}

/// Returns whether an error is a fault with this text and the location of the tests.
fn raises(error: Error, text: &[u8]) -> bool {
    match error {
        Error::Fault(fault) => is_fault(&fault.into_fault(), text),
        Error::Memory => false,
    }
}

#[test]
fn errors_hold_their_faults(rt: HostRuntime) -> Result<(), Fail> {
    let token = word(rt.alloc(), Kind::Ident, b"ab")?;
    let fault = Fault::bare(8, AT);
    assert!(rt; raises(Error::of(rt.alloc(), fault), b""));
    assert!(rt; raises(Error::bare(rt.alloc(), 8, AT), b""));
    assert!(rt; raises(Error::new(rt.alloc(), 8, AT, b"ab"), b"ab"));
    assert!(rt; raises(Error::of_token(rt.alloc(), 8, AT, &token), b"ab"));
    Ok(())
}

#[test]
fn makes_lists_faults_and_outcomes(rt: HostRuntime) -> Result<(), Fail> {
    let mut tokens = Vec::new(rt.alloc());
    tokens.push(word(rt.alloc(), Kind::Ident, b"ab")?)?;
    let list = Tokens::new(tokens);
    assert!(rt; matches!(list.as_slice(), [token] if token.is_identifier_named(b"ab")));
    let tokens = list.into_vec();
    let [token] = tokens.as_slice() else {
        return Err(Fail::new("other tokens"));
    };
    assert!(rt; is_fault(&Fault::of_token(8, AT, token)?, b"ab"));
    assert!(rt; is_fault(&Fault::new(rt.alloc(), 8, AT, b"ab")?, b"ab"));
    let bare = Err(Error::bare(rt.alloc(), 8, AT));
    assert!(rt; matches!(&split_memory::<u8>(bare), Ok(Err(fault)) if is_fault(fault, b"")));
    assert!(rt; matches!(split_memory(Ok(7)), Ok(Ok(7))));
    assert!(rt; split_memory::<u8>(Err(Error::Memory)).is_err());
    Ok(())
}

/// Returns whether a spelling of these bytes is stored in the value itself, without an allocation.
fn stands_in_place(spelling: &Spelling, bytes: &[u8]) -> bool {
    match spelling.in_place() {
        Some((room, len)) => &room[..len] == bytes,
        None => false,
    }
}

/// Each constructor of a spelling keeps its bytes. Up to 14 bytes are stored in the value itself; more are allocated.
#[test]
fn keeps_short_and_long_spellings(rt: HostRuntime) -> Result<(), Fail> {
    for len in [0, 1, 2, 13, 14, 15, 26] {
        let bytes = &b"abcdefghijklmnopqrstuvwxyz"[..len.min(26)];
        let spelling = Spelling::new(Vec::from_slice(rt.alloc(), bytes)?)?;
        assert!(rt; spelling.as_bytes() == bytes && spelling.clone()? == spelling);
        assert!(rt; stands_in_place(&spelling, bytes) == (len <= 14));
        let mut extended = Spelling::empty();
        for byte in bytes {
            extended.extend(rt.alloc(), &[*byte])?;
        }
        assert!(rt; extended == spelling && Spelling::from_slice(rt.alloc(), bytes)? == spelling);
    }
    Ok(())
}

/// Returns the bytes from 0 to before `end`, which are pushed one by one onto a vector without capacity.
fn pushed(alloc: Global, end: u8) -> Result<Vec<u8>, AllocError> {
    let mut bytes = Vec::new(alloc);
    for byte in 0..end {
        push(&mut bytes, byte)?;
    }
    Ok(bytes)
}

#[test]
fn pushes_in_order(rt: HostRuntime) -> Result<(), Fail> {
    assert!(rt; pushed(rt.alloc(), 0)?.is_empty());
    assert!(rt; pushed(rt.alloc(), 6)?.as_slice() == [0, 1, 2, 3, 4, 5].as_slice());
    Ok(())
}

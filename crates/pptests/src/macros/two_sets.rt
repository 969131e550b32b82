//! Tests of tokens with two hide sets.
ghost use Rattle.ppmacro.specs.HideSets.{IsKnown, HasSets};

use super::{HASH, assert_names, set_of};
use crate::defining::source_of;
use ppmacro::{Hidden, HideSets, Set};
use pptext::{Memory, Token};
use std::process::Abort;
use std::test::Fail;

/// Returns a token with these two hide sets.
fn hidden_by_both<'a>(sets: &HideSets, token: &'a Token, one: Set, two: Set) -> Hidden<'a>
    requires one { IsKnown sets.now one }
    requires two { IsKnown sets.now two }
    ensures { HasSets sets.now result }
{
    let mut hidden = Hidden::new(token, sets.empty());
    hidden.set_use_with_extra(HASH, one, two);
    hidden
}

/// A set that is computed for a token with two hide sets.
#[derive(Clone, Copy)]
enum Asked {
    /// The names that hide the token.
    Settled,
    /// The names that hide the token, and its own.
    WithOwn,
    /// The names that hide both the token and one with only the second set.
    Common,
}

/// Returns this set for a token with the hide sets of `a` and of `b`. Asserts whether they contain its own name.
fn asked_of(
    rt: &impl Abort,
    sets: &mut HideSets,
    token: &Token,
    is_hidden: bool,
    asked: Asked,
) -> Result<Set, Memory> {
    let (a, b) = (set_of(rt, sets, b"a")?, set_of(rt, sets, b"b")?);
    assert!(rt; sets.knows(a) && sets.knows(b));
    let hidden = hidden_by_both(sets, token, a, b);
    assert!(rt; sets.hides(&hidden) == is_hidden);
    match asked {
        Asked::Settled => sets.hide_set_of(&hidden),
        Asked::WithOwn => sets.with_own_name(&hidden),
        Asked::Common => sets.common_hide_set(&hidden, &Hidden::new(token, b)),
    }
}

#[test]
fn hides_by_either_of_two_sets(rt: HostRuntime) -> Result<(), Fail> {
    let source = source_of(&rt, rt.alloc(), b"c a b")?;
    let mut sets = HideSets::new(rt.alloc())?;
    assert!(rt; source.tokens().len() == 3);
    for token in source.tokens() {
        let is_hidden = !token.is_identifier_named(b"c");
        let with_own_name: &[u8] = if is_hidden { b"ab" } else { b"abc" };
        for (asked, names) in [
            (Asked::Settled, b"ab".as_slice()),
            (Asked::WithOwn, with_own_name),
            (Asked::Common, b"b".as_slice()),
        ] {
            let set = asked_of(&rt, &mut sets, token, is_hidden, asked)?;
            assert_names(&rt, &sets, set, names);
        }
    }
    Ok(())
}

//! Tests of hide sets.
use super::{assert_names, set_of};
use crate::defining::drawn;
use ppmacro::{HideSets, Set};
use pptext::{Hashing, Memory};
use std::alloc::Global;
use std::process::Abort;
use std::test::Fail;

/// An operation on two sets.
#[derive(Clone, Copy)]
enum Join {
    /// The names of either set.
    Union,
    /// The names of both sets.
    Intersection,
}

/// Returns the result of an operation on two sets.
fn joined(
    rt: &impl Abort,
    sets: &mut HideSets,
    (one, two): (Set, Set),
    join: Join,
) -> Result<Set, Memory> {
    assert!(rt; sets.knows(one) && sets.knows(two));
    match join {
        Join::Union => sets.union(one, two),
        Join::Intersection => sets.meet(one, two),
    }
}

/// Returns the result of an operation on sets with these names. If an allocation fails, asserts that both sets are unchanged, and
/// calls again.
fn joined_again(
    rt: &impl Abort,
    sets: &mut HideSets,
    (left, right): (Set, Set),
    (one, two): (&[u8], &[u8]),
    join: Join,
) -> Result<Set, Memory> {
    let Ok(set) = joined(rt, sets, (left, right), join) else {
        assert_names(rt, sets, left, one);
        assert_names(rt, sets, right, two);
        return joined(rt, sets, (left, right), join);
    };
    Ok(set)
}

/// Asserts the names of the union or the intersection of two sets. A second call returns the same set and allocates nothing:
/// `tests/refused_in_tests.py` lets all allocations from the Nth on fail, for each N, and the test then fails if a second call
/// fails.
fn assert_joined(
    rt: &impl Abort,
    sets: &mut HideSets,
    (one, two): (&[u8], &[u8]),
    join: Join,
    wanted: &[u8],
) -> Result<(), Memory> {
    let left = set_of(rt, sets, one)?;
    let right = set_of(rt, sets, two)?;
    let set = joined_again(rt, sets, (left, right), (one, two), join)?;
    assert!(rt;
        joined(rt, sets, (left, right), join) == Ok(set),
        "a second call"
    );
    assert_names(rt, sets, set, wanted);
    // equal sets have equal numbers, however they were made
    assert!(rt; set == set_of(rt, sets, wanted)?);
    assert!(rt; set != set_of(rt, sets, b"d")?);
    Ok(())
}

/// Names of two sets, of their union and of their intersection.
const JOINED: &[(&[u8], &[u8], &[u8], &[u8])] = &[
    (b"", b"", b"", b""),
    (b"a", b"", b"a", b""),
    (b"a", b"b", b"ab", b""),
    (b"ab", b"b", b"ab", b"b"),
    (b"ab", b"ba", b"ba", b"ab"),
    (b"ab", b"bc", b"abc", b"b"),
];

/// Asserts the union and the intersection of each pair.
fn assert_all_joined(rt: &impl Abort, sets: &mut HideSets) -> Result<(), Memory> {
    for &(one, two, union, meet) in JOINED {
        assert_joined(rt, sets, (one, two), Join::Union, union)?;
        assert_joined(rt, sets, (one, two), Join::Intersection, meet)?;
    }
    sets.sets_are_unique();
    Ok(())
}

/// Asserts the union and the intersection of each pair in a pool with this hash function.
fn assert_hashed(rt: &impl Abort, alloc: Global, hashing: Hashing) -> Result<(), Memory> {
    let mut sets = HideSets::with_hasher(alloc, hashing)?;
    assert!(rt; sets.len() == 1);
    assert_all_joined(rt, &mut sets)
}

#[test]
fn joins_sets_if_an_allocation_fails(rt: HostRuntime) -> Result<(), Fail> {
    for hashing in [Hashing::fixed(), drawn(&rt)?] {
        assert_hashed(&rt, rt.alloc(), hashing)?;
    }
    Ok(())
}

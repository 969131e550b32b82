//! Tests of reading a list, and of the output of a unit with a known result.
use ppserve::{Contents, List, ListFault, deps, dump, faults, read_list, text};
use pptext::{
    Fault, Hashing, Kind, LeadingLexeme, Place, Profile, Sequence, Spelling, leading_lexeme,
};
use ppunit::{Items, Rows, UnitOut};
use std::alloc::{AllocError, Global};
use std::process::Abort;
use std::test::Fail;

const UNIT_OF_TWO: &str =
    r#"{~"date":"Feb  9 2024","time":"08:05:03","files":[{"name":"a b.h"},{"name":"c.c"}],"units":[{"file":"c.c"}]}"#;

const PRINTED: &str = "unit 0 c.c\ndep 1 c.c\ndep 0 a b.h\nfault 9 1:20:300 a%25\n";

const FAULTS: &str = "unit 0 c.c\nfault 9 1:20:300 a%25\n";

/// Texts for the tilde, and their meanings: the budget, and the profile, which also the unit's definitions are read
/// with.
const MEMBERS: &[(&str, Option<u64>, Profile)] = &[
    ("", None, Profile::C11),
    (
        r#""budget":4294967295,"profile":"later","#,
        Some(4_294_967_295),
        Profile::Later,
    ),
];

fn list_of_unit(alloc: Global, members: &str) -> Result<List, ListFault> {
    let text = UNIT_OF_TWO.replace(alloc, "~", members)?;
    read_list(alloc, text.as_bytes(), false, Hashing::fixed())
}

/// Returns whether a list of one unit has this budget and this profile.
fn has_setting(list: &List, budget: Option<u64>, profile: Profile) -> bool {
    list.setting.budget == budget
        && list.setting.profile == profile
        && matches!(list.units.as_slice(), [unit] if unit.defines.profile() == profile)
}

/// Returns the indices 1 and 0.
fn rows_of(alloc: Global) -> Result<Rows, AllocError> {
    let mut rows = Rows::new(alloc);
    rows.join(1)?;
    rows.join(0)?;
    Ok(rows)
}

fn fault_of(alloc: Global) -> Result<Fault, AllocError> {
    let at = Place {
        file: 1,
        line: 20,
        col: 300,
    };
    Ok(Fault {
        number: 9,
        at,
        text: Spelling::from_slice(alloc, b"a%")?,
    })
}

/// Returns an output without items that depends on the second file and the first, with a fault.
fn out_of<'a>(alloc: Global) -> Result<UnitOut<'a>, AllocError> {
    let fault = fault_of(alloc)?;
    let deps = rows_of(alloc)?;
    Ok(UnitOut {
        items: Items::new(alloc),
        deps,
        fault: Some(fault),
    })
}

/// Asserts the printed output, also without items, since it has none.
fn assert_printed(rt: &impl Abort, alloc: Global, list: &List, out: UnitOut) -> Result<(), Fail> {
    let outs = [out];
    if list.units.as_slice().len() != outs.len() {
        return Err(Fail::new("units without an outcome"));
    }
    assert!(rt; dump(alloc, list, &outs)?.as_slice() == PRINTED.as_bytes());
    assert!(rt; deps(alloc, list, &outs)?.as_slice() == PRINTED.as_bytes());
    assert!(rt; text(alloc, list, &outs)?.as_slice() == PRINTED.as_bytes());
    assert!(rt; faults(alloc, list, &outs)?.as_slice() == FAULTS.as_bytes());
    Ok(())
}

#[test]
fn reads_a_list_and_prints_its_unit(rt: HostRuntime) -> Result<(), Fail> {
    for &(members, budget, profile) in MEMBERS {
        let list = list_of_unit(rt.alloc(), members)?;
        assert!(&rt; has_setting(&list, budget, profile), "{members}");
        assert_printed(&rt, rt.alloc(), &list, out_of(rt.alloc())?)?;
    }
    Ok(())
}

/// Returns whether the contents are those of one file, `x`.
fn are_x(contents: &[Sequence<u8>]) -> bool {
    matches!(contents, [text] if text.as_slice() == b"x".as_slice())
}

#[test]
fn contents_are_given_back(rt: HostRuntime) -> Result<(), Fail> {
    let mut texts = Vec::new(rt.alloc());
    texts.push(Sequence::new(Vec::from_slice(rt.alloc(), b"x")?))?;
    let contents = Contents::new(texts);
    assert!(rt; are_x(contents.as_slice()));
    assert!(rt; are_x(contents.into_vec().as_slice()));
    Ok(())
}

#[test]
fn items_that_have_no_mark_have_at_most_0(rt: HostRuntime) -> Result<(), Fail> {
    let items = Items::new(rt.alloc());
    assert!(rt; items.slices().most_marks() == 0);
    Ok(())
}

#[test]
fn a_text_begins_with_its_longest_lexeme(rt: HostRuntime) -> Result<(), Fail> {
    assert!(rt; matches!(leading_lexeme(b"+=x"), LeadingLexeme::Token(Kind::Punct, 2)));
    assert!(rt; matches!(leading_lexeme(b"/* x"), LeadingLexeme::Unclosed));
    Ok(())
}

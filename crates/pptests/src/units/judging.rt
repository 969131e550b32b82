//! Tests of valid settings and units. More dates, times and definitions are in tests/row_tests.py, which compares the program's
//! output.
use super::{setting_of, shelf_of, unit_of};
use ppshelf::{MemoryDisk, Shelf};
use pptext::Profile;
use ppunit::{is_date, is_one_line, is_time, setting_ok, unit_ok};
use std::alloc::Global;
use std::test::Fail;

/// Returns whether a unit for this file is valid, and has the profile that it was made with.
fn is_good_unit(
    alloc: Global,
    shelf: &Shelf<MemoryDisk>,
    profile: Profile,
    file: usize,
    define: &str,
) -> Result<bool, Fail> {
    let unit = unit_of(alloc, profile, file, &[define])?;
    if unit.defines.profile() != profile {
        return Err(Fail::new("another profile"));
    }
    Ok(unit_ok(shelf, &unit))
}

/// Dates, times, and whether a setting of them is valid.
const SETTINGS: &[(&str, &str, bool)] = &[
    ("Feb  9 2024", "08:05:03", true),
    ("Feb 09 2024", "08:05:03", false),
    ("Feb  9 2024", "24:00:00", false),
];

/// Profiles, file indexes, definitions, and whether such a unit is valid with a file table of two files.
const UNITS: &[(Profile, usize, &str, bool)] = &[
    (Profile::C11, 1, "A", true),
    (Profile::C11, 2, "A", false),
    (Profile::C11, 0, "A\nB", false),
    (Profile::Later, 1, "A", false),
];

#[test]
fn judges_settings(rt: HostRuntime) -> Result<(), Fail> {
    for (date, time, good) in SETTINGS {
        let setting = setting_of(rt.alloc(), Profile::C11, date, time)?;
        assert!(rt; setting_ok(&setting) == *good, "{date} {time}");
        assert!(rt; setting.date.as_str() == *date && setting.time.into_string().as_str() == *time);
    }
    assert!(rt; is_date(b"Feb  9 2024") && !is_date(b"Feb 09 2024"));
    assert!(rt; is_time(b"08:05:03") && !is_time(b"24:00:00"));
    assert!(rt; is_one_line(b"A 1") && !is_one_line(b"A 1\n"));
    Ok(())
}

#[test]
fn judges_units(rt: HostRuntime) -> Result<(), Fail> {
    let shelf = shelf_of(rt.alloc(), Profile::C11, &[("a.c", "")])?;
    for (profile, file, define, good) in UNITS {
        let found = is_good_unit(rt.alloc(), &shelf, *profile, *file, define)?;
        assert!(rt; found == *good, "{profile:?} {file} {define}");
    }
    let unit = unit_of(rt.alloc(), Profile::C11, 0, &["A", "B 1"])?;
    assert!(rt;
        matches!(unit.defines.texts().as_slice(), [a, b] if a.as_str() == "A" && b.as_str() == "B 1")
    );
    Ok(())
}

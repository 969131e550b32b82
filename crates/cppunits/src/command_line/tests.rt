//! Tests that each option is read under its own name. A number of workers and a block can't be confused after that, as
//! they have types of their own.
use super::{command, read_options};
use ppserve::Mode;
use std::alloc::Global;
use std::process::Abort;
use std::test::Fail;

/// A command line, and the mode, the number of workers, the block and the directory that it asks for, or an empty text.
type Asked = (&'static [&'static str], Mode, usize, usize, &'static str);

const ASKED: &[Asked] = &[
    (&["cppunits", "dump"], Mode::Dump, 4, 8, ""),
    (&["cppunits", "deps"], Mode::Deps, 4, 8, ""),
    (&["cppunits", "faults"], Mode::Faults, 4, 8, ""),
    (
        &["cppunits", "--workers", "3", "dump"],
        Mode::Dump,
        3,
        8,
        "",
    ),
    (&["cppunits", "--block", "3", "dump"], Mode::Dump, 4, 3, ""),
    (
        &["cppunits", "--workers", "3", "text", "--root", "/"],
        Mode::Text,
        3,
        8,
        "/",
    ),
    (&["cppunits", "deps", "--block", "3"], Mode::Deps, 4, 3, ""),
    (
        &["cppunits", "--root", "dump", "deps"],
        Mode::Deps,
        4,
        8,
        "dump",
    ),
    (
        &[
            "cppunits",
            "--root",
            "/",
            "--block",
            "1024",
            "--workers",
            "64",
            "dump",
        ],
        Mode::Dump,
        64,
        1024,
        "/",
    ),
];

/// Returns whether a directory is the one that is wanted, or there is none and none is wanted.
fn is_directory(found: &Option<String>, wanted: &str) -> bool {
    match found {
        Some(found) => found.as_str() == wanted,
        None => wanted.is_empty(),
    }
}

/// Asserts what a command line asks for.
fn assert_read(rt: &impl Abort, alloc: Global, asked: &Asked) -> Result<(), Fail> {
    let (words, mode, workers, block, root) = *asked;
    let Ok(matches) = command(alloc)?.try_get_matches_from(words) else {
        return Err(Fail::new("the command line is refused"));
    };
    let options = read_options(alloc, &matches)?;
    assert!(rt; options.mode == mode, "{words:?}");
    assert!(rt; is_directory(&options.root, root), "{words:?}");
    assert!(rt; options.workers.get() == workers, "{words:?}");
    assert!(rt; options.block.get() == block, "{words:?}");
    Ok(())
}

#[test]
fn each_option_is_read_under_its_name(rt: HostRuntime) -> Result<(), Fail> {
    for asked in ASKED {
        assert_read(&rt, rt.alloc(), asked)?;
    }
    Ok(())
}

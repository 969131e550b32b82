//! Tests of translation phases 1 to 3 and of groups. Results are compared as text.
mod directives;
mod hashing;
mod reading;
mod tokens;

use pptext::{Fault, LONGEST, Memory, Profile, Source, read_source, split_memory};
use std::alloc::Global;
use std::process::Abort;

/// The number of the file in these tests.
const FILE: u32 = 7;

/// Reads a file of these bytes. Returns its lines or its fault.
fn read(
    rt: &impl Abort,
    alloc: Global,
    profile: Profile,
    bytes: &[u8],
) -> Result<Result<Source, Fault>, Memory> {
    assert!(rt; bytes.len() <= LONGEST);
    split_memory(read_source(alloc, bytes, FILE, profile))
}

//! Tests of units that are preprocessed again after an allocation failed: `given` uses the same file table and pass.
use super::{Case, Files, assert_units};
use std::test::Fail;

/// A file that includes a guarded header twice, and the header; one token; an invocation that continues after the replacement of
/// another (6.10.3.4); a file that doesn't exist; and headers that are found next to a file, in the directory `inc`, and nowhere.
const READ: Files = &[
    ("a.c", "#include \"h.h\"\n#include \"h.h\"\n"),
    ("h.h", "#ifndef H\n#define H\nint a;\n#endif\n"),
    ("b.c", "a\n"),
    (
        "c.c",
        "#define f(a) a*g\n#define g(a) f(a)\n#pragma p\nf(2)(9)\n",
    ),
    ("d.c", "a\n#include \"gone.h\"\n"),
    (
        "src/a.c",
        "#include \"x.h\"\n#include <x.h>\n#include \"../inc/x.h\"\n#include <y.h>\n",
    ),
    ("src/x.h", "1"),
    ("inc/x.h", "2"),
];

/// The results of units of the files. The second unit defines the guard.
const GIVEN: &[Case] = &[
    (0, &[], "int a ; | 0 1 | ok"),
    (0, &["H"], "| 0 1 | ok"),
    (2, &[], "a | 2 | ok"),
    (3, &[], "pragma@3:3:1[ p ] 2 * 9 * g | 3 | ok"),
    (4, &["X 'a"], "| | 7 65535:1:11 '"),
    (4, &[], "a | 4 8 | 6 4:2:1 gone.h"),
    (5, &[], "1 2 2 | 5 6 7 | 31 5:4:1 y.h"),
];

#[test]
fn gives_the_same_after_out_of_memory(rt: HostRuntime) -> Result<(), Fail> {
    assert_units(&rt, rt.alloc(), READ, GIVEN)
}

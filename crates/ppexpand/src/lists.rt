//! Appends to vectors.
ghost use Rattle.std.specs.Prelude.{◌≡◌, ◌++◌, OnOk};

use ppmacro::Hidden;
use pptext::Memory;

/// Appends copies of tokens.
pub(crate) fn put_clones<'a>(
    tokens: &mut Vec<Hidden<'a>>,
    more: &[Hidden<'a>],
) -> Result<(), Memory>
    ensures { OnOk result (tokens.new.items ≡ tokens.old.items ++ more.now) }
{
    tokens.extend_with_clones(more)
}

//! The preprocessor of a unit: what phase 4 of the unit works on.
ghost use Rattle.std.specs.Prelude.{◌≡◌, ◌<◌, length};

use crate::open_file::UnitContext;
use crate::states::State;
use ppshelf::{Disk, Pass};

/// The preprocessor of a unit: what does not change within the unit, the pass over the same file table, which has at
/// least one file, and the state of phase 4. Other files of this crate have its methods.
#[derive(Drop)]
pub(crate) struct Preprocessor<'r, 'x, 'a, D: Disk> {
    pub context: &'r UnitContext<'a, 'r, D>,
    pub pass: &'r mut Pass<'a, D>,
    pub state: State<'x>,
    ghost shelf: { pass.now.shelf ≡ context.now.shelf },
    ghost rows: { 0 < length context.now.shelf.names },
}

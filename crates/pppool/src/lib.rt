//! Preprocesses the units of a list with workers, which claim them at a desk.
#![tactic(auto)]

mod batch;
mod claim_protocol;
mod desk;
mod gate;
mod laws;
mod limits;
mod retention;
mod run_units;
mod seat_state;
mod slots;
mod workers;

pub use batch::Batch;
pub use desk::{Desk, DeskSeat};
pub use gate::Gate;
pub use laws::{each_unit_has_one_value, joined_passes_agree, list_growth, some_values};
pub use limits::{Block, Workers};
pub use retention::Retain;
pub use run_units::{run, run_retaining};

//! The text that a compiler takes for a unit: what is written for each item, piece by piece. The writer of the pieces is
//! elsewhere.
#![tactic(auto)]

mod apart;
mod laws;
mod operators;
mod pragma_line;
mod pragma_tokens;
mod printer;
mod system_files;
mod text_token;

pub use apart::Written;
pub use laws::{
    reads_as_one_file, reads_back, reads_once, shows_well_spelled, stays_in_phases_1_and_2,
};
pub use operators::{HeldTokens, Operator, Taken};
pub use pragma_line::{PragmaLine, is_own_pragma};
pub use pragma_tokens::{OperatorText, PragmaTokens, TextPragmaToken};
pub use printer::{MarkStep, Marker, PragmaStep, Printer, TokenStep, Way};
pub use system_files::SystemFiles;
pub use text_token::TextToken;

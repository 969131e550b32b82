//! Translation phases 1 to 3 of C11 (5.1.1.2): reads a file's bytes as preprocessing tokens, lines and groups.
#![tactic(auto)]

mod characters;
mod cleaned_text;
mod cleaning;
mod directives;
mod error;
mod grouping;
mod hashing;
mod laws;
mod lexer;
mod line_access;
mod longest_token;
mod punctuators;
mod reading;
mod scanning;
mod sequences;
mod sources;
mod texts;
mod tokens;
mod vectors;

pub use characters::Char;
pub use directives::{Class, Question};
pub use error::{BoxedFault, Error, Memory, split_memory};
pub use hashing::{Hashing, u32_at};
pub use laws::{
    continued_token, keeps_every_token, kind_by_language, next_branches, one_guard, one_lexer,
    one_reading, one_tokenization, one_tree, relexes_tokens, some_reading, tests_are_languages,
    tokenizes_unless_unclosed, tree_unless_fault, which_group_fault,
};
pub use lexer::LeadingLexeme;
pub use reading::{leading_lexeme, read_source, relex};
pub use scanning::continuing::continues;
pub use sequences::Sequence;
pub use sources::{Directive, LONGEST, Line, Profile, Source};
pub use texts::{OwnedText, OwnedTexts};
pub use tokens::{Fault, Kind, Place, Spelling, Token, Tokens};
pub use vectors::push;

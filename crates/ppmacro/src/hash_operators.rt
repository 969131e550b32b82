//! The operators `#` and `##`.
ghost use Rattle.std.specs.Prelude.{◌≡◌};
ghost use Rattle.ppmacro.specs.HashOperators.{is_hash, is_paste};

use pptext::Token;

/// Returns whether a token is `#` or its digraph `%:`.
pub(crate) fn is_hash(token: &Token) -> bool
    ensures { result ≡ is_hash token.now }
{
    token.is_punct(b"#") || token.is_punct(b"%:")
}

/// Returns whether a token is `##` or its digraph `%:%:`.
pub(crate) fn is_paste(token: &Token) -> bool
    ensures { result ≡ is_paste token.now }
{
    token.is_punct(b"##") || token.is_punct(b"%:%:")
}

//! Which two tokens are kept apart.
ghost use Rattle.std.specs.Prelude.{◌≡◌, ◌∷◌, []};
ghost use Rattle.ppprint.specs.Apart.{are_apart, begins_joint, continues_number};
ghost use Rattle.ppprint.specs.code.Writings.{written_of};

use pptext::Kind;

/// A token as it is written.
#[derive(Clone, Copy)]
pub struct Written<'a> {
    pub kind: Kind,
    pub text: &'a [u8],
}

impl<'a> Written<'a> {
    /// Returns whether white space must be written between this token and the next one.
    #[inline(always)]
    pub(crate) fn is_apart_from(self, next: Written) -> bool
        ensures { result ≡ are_apart (written_of self.entry) (written_of next.entry) }
    {
        must_part(self, next)
    }
}

/// Returns whether white space must be written between two tokens.
fn must_part(first: Written, second: Written) -> bool
    ensures { result ≡ are_apart (written_of first.entry) (written_of second.entry) }
{
    match (first.kind, second.kind) {
        (Kind::Other, _) | (_, Kind::Other) => true,
        (Kind::Punct, Kind::Punct) => begins_joint(first.text, second.text),
        (Kind::Punct, Kind::Number) => matches!(first.text, [b'.']),
        (Kind::Punct, _) => false,
        (Kind::Number, Kind::Punct) => continues_number(second.text),
        (_, Kind::Punct) => false,
        _ => true,
    }
}

/// Returns whether the text begins with a character that continues a number after any digit.
fn continues_number(text: &[u8]) -> bool
    ensures { result ≡ continues_number text.now }
{
    match text.first() {
        Some(first) => matches!(*first, b'.' | b'+' | b'-'),
        None => false,
    }
}

/// Returns whether a text and the first character of another begin a punctuator, a comment or a trigraph.
#[tactic(auto, unfolding(crate::specs::Apart::is_joint_start))]
fn begins_joint(text: &[u8], next: &[u8]) -> bool
    ensures { result ≡ begins_joint text.now next.now }
{
    let Some(&next) = next.first() else {
        return false;
    };
    match text {
        [] => is_joint_start(next),
        [first] => is_joint_pair(*first, next),
        [first, second] => is_joint_triple(*first, *second, next),
        [first, second, third] => is_joint_quadruple(*first, *second, *third, next),
        _ => false,
    }
}

/// Returns whether a punctuator, a comment or a trigraph begins with this character.
#[tactic(auto, unfolding(crate::specs::Apart::is_joint_start))]
fn is_joint_start(first: u8) -> bool
    ensures { result ≡ begins_joint [] (first ∷ []) }
{
    matches!(
        first,
        b'[' | b']'
            | b'('
            | b')'
            | b'{'
            | b'}'
            | b'.'
            | b'-'
            | b'+'
            | b'&'
            | b'*'
            | b'~'
            | b'!'
            | b'/'
            | b'%'
            | b'<'
            | b'>'
            | b'='
            | b'^'
            | b'|'
            | b'?'
            | b':'
            | b';'
            | b','
            | b'#'
    )
}

/// Returns whether a punctuator, a comment or a trigraph begins with these two characters.
#[tactic(auto, unfolding(crate::specs::Apart::is_joint_start))]
fn is_joint_pair(first: u8, second: u8) -> bool
    ensures { result ≡ begins_joint (first ∷ []) (second ∷ []) }
{
    match first {
        b'-' => matches!(second, b'>' | b'-' | b'='),
        b'+' => matches!(second, b'+' | b'='),
        b'<' => matches!(second, b'<' | b'=' | b':' | b'%'),
        b'>' => matches!(second, b'>' | b'='),
        b'&' => matches!(second, b'&' | b'='),
        b'|' => matches!(second, b'|' | b'='),
        b'/' => matches!(second, b'/' | b'*' | b'='),
        b'%' => matches!(second, b'=' | b'>' | b':'),
        b'=' | b'!' | b'*' | b'^' => second == b'=',
        b'.' | b'?' | b'#' => second == first,
        b':' => second == b'>',
        _ => false,
    }
}

/// Returns whether a punctuator begins with these three characters.
#[tactic(auto, unfolding(crate::specs::Apart::is_joint_start))]
fn is_joint_triple(first: u8, second: u8, third: u8) -> bool
    ensures { result ≡ begins_joint (first ∷ second ∷ []) (third ∷ []) }
{
    match first {
        b'.' => second == b'.' && third == b'.',
        b'<' => second == b'<' && third == b'=',
        b'>' => second == b'>' && third == b'=',
        b'%' => second == b':' && third == b'%',
        _ => false,
    }
}

/// Returns whether a punctuator begins with these four characters.
#[tactic(auto, unfolding(crate::specs::Apart::is_joint_start))]
fn is_joint_quadruple(first: u8, second: u8, third: u8, fourth: u8) -> bool
    ensures { result ≡ begins_joint (first ∷ second ∷ third ∷ []) (fourth ∷ []) }
{
    first == b'%' && second == b':' && third == b'%' && fourth == b':'
}

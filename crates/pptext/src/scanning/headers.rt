//! Header names (6.4.7).
ghost use Rattle.std.specs.Prelude.{◌||◌, ◌==◌, not, [], ◌∷◌};
ghost use Rattle.pptext.specs.Languages.{Repeated, Then, Exactly, One};
ghost use Rattle.pptext.specs.code.Scanning.{OnlyPart};
ghost use Rattle.pptext.specs.Spellings.{IsBetween, IsHeader};

/// Returns the length of the characters up to and including the closing one, or 0 if none closes in this line.
fn between_rest_len(text: &[u8], closing: u8) -> usize
    ensures { OnlyPart (Then (Repeated (One (λ c. not (c == closing || c == 10)))) (Exactly (closing ∷ []))) text.now result }
{
    let mut at = 0;
    while at < text.len() {
        if text[at] == closing {
            return at + 1;
        }
        if text[at] == b'\n' {
            return 0;
        }
        at += 1;
    }
    0
}

/// Returns the length of a text between two characters, including both, or 0 if none begins the text.
fn between_len(text: &[u8], opening: u8, closing: u8) -> usize
    ensures { OnlyPart (IsBetween opening closing) text.now result }
{
    if text.len() < 2 {
        return 0;
    }
    if text[0] != opening {
        return 0;
    }
    if text[1] == closing {
        return 0;
    }
    if text[1] == b'\n' {
        return 0;
    }
    let rest = between_rest_len(&text[2..], closing);
    if rest == 0 {
        return 0;
    }
    rest + 2
}

/// Returns the length of the header name that begins the text, or 0.
pub(crate) fn header_len(text: &[u8]) -> usize
    ensures { OnlyPart IsHeader text.now result }
{
    let angled = between_len(text, b'<', b'>');
    if angled > 0 {
        return angled;
    }
    between_len(text, b'"', b'"')
}

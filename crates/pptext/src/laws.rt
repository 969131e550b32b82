//! Theorems about the specification. Each is the contract of a function that does nothing.
ghost use Rattle.std.specs.Prelude.{◌≡◌, ◌≢◌, ◌↔◌, ◌⊎◌, ◌++◌, ℕ, true, List, [], map, None, Some, Result, Ok, Contains};
ghost use Rattle.pptext.specs.declared.tokens.Fault.{Fault};
ghost use Rattle.pptext.specs.declared.tokens.Place.{Place};
ghost use Rattle.pptext.specs.declared.sources.Profile.{Profile};
ghost use Rattle.pptext.specs.declared.tokens.Kind.{Kind};
ghost use Rattle.pptext.specs.declared.tokens.Kind.TheVariants.{Ident, Number, Header};
ghost use Rattle.pptext.specs.declared.characters.Char.{Char};
ghost use Rattle.pptext.specs.Continuations.{ContinuesToken};
ghost use Rattle.pptext.specs.Clean.{cleaned, codes_of};
ghost use Rattle.pptext.specs.Lexemes.{Lexeme, Spelled, Tokenizes, Unclosed};
ghost use Rattle.pptext.specs.GroupFaults.{IsGroupFault};
ghost use Rattle.pptext.specs.Guard.{GuardedBy};
ghost use Rattle.pptext.specs.KindTests.{OpensComment, TestsAreLanguages, HasOneLexer};
ghost use Rattle.pptext.specs.Kinds.{kind_of};
ghost use Rattle.pptext.specs.Laws.{tokens_in, part_branches};
ghost use Rattle.pptext.specs.Lines.{LogicalLine, lines_of};
ghost use Rattle.pptext.specs.Sources.{Reads, line_tokens, spans, IsUnmatchedQuote, IsOneToken};
ghost use Rattle.pptext.specs.Spellings.{Spells};
ghost use Rattle.pptext.specs.Tree.{group_fault, GroupParts, Tree};

/// A text is tokenized into comments, white space, new-lines and tokens in only one way (5.1.1.2, 6.4).
pub fn one_tokenization()
    ensures { (profile : Profile) (cs : List Char) (a b : List Lexeme) → Tokenizes profile cs a → Tokenizes profile cs b → a ≡ b }
{}

/// A text can be tokenized if and only if no comment in it is unclosed, whatever its characters. So tokenizing gives
/// tokens or fault 1.
pub fn tokenizes_unless_unclosed()
    ensures { (profile : Profile) (chars : List Char) → ((lexemes : List Lexeme) × Tokenizes profile chars lexemes) ↔ ((at : Place) → ¬ Unclosed profile chars at) }
{}

/// Reading a file has at most one result: its lines or its first fault.
pub fn one_reading()
    ensures { (profile : Profile) (file : ℕ) (bytes : List ℕ) (a b : Result (List LogicalLine) Fault) → Reads profile file bytes a → Reads profile file bytes b → a ≡ b }
{}

/// Reading a file has a result, its lines or its first fault, whatever its bytes.
pub fn some_reading()
    ensures { (profile : Profile) (file : ℕ) (bytes : List ℕ) → (r : Result (List LogicalLine) Fault) × Reads profile file bytes r }
{}

/// The tokens of a file's lines are exactly those of its lexemes, in order, each with its kind, spelling, location and
/// leading-space flag. None is lost at the end, because a text ends in a new-line after phase 2 (5.1.1.2).
pub fn keeps_every_token()
    ensures { (profile : Profile) (file : ℕ) (bytes : List ℕ) (chars : List Char) (lexemes : List Lexeme) → cleaned profile file bytes ≡ Ok chars → Tokenizes profile chars lexemes → line_tokens (lines_of profile lexemes) ≡ tokens_in true lexemes }
{}

/// Each token of a text, except a header name (6.4.7), is the one token of its spelling. So `relex` finds its kind
/// again, unless the token is an unmatched quote (6.4p3).
pub fn relexes_tokens()
    ensures { (profile : Profile) (chars : List Char) (lexemes : List Lexeme) → Tokenizes profile chars lexemes → (p : Lexeme) (k : Kind) → Contains lexemes p → p.kind ≡ Spelled k → k ≢ Header → IsOneToken (codes_of p.chars) k }
{}

/// Text continues an identifier (6.4.2) or a number (6.4.8) if and only if it forms one token of that kind with it.
/// `ContinuesToken` says so by the end of the token and the text alone. For other kinds it never holds.
pub fn continued_token()
    ensures sound { (text more : List ℕ) (k : Kind) → IsOneToken text k → ContinuesToken k text more → IsOneToken (text ++ more) k }
    ensures complete { (text more : List ℕ) (k : Kind) → IsOneToken text k → (k ≡ Ident) ⊎ (k ≡ Number) → IsOneToken (text ++ more) k → ContinuesToken k text more }
{}

/// A file's lines have a tree of groups (6.10) if and only if they have no fault.
pub fn tree_unless_fault()
    ensures { (lines : List LogicalLine) → (group_fault [] lines ≡ None) ↔ ((parts : GroupParts) × Tree lines parts) }
{}

/// A file's lines have at most one tree of groups (6.10).
pub fn one_tree()
    ensures { (lines : List LogicalLine) (a b : GroupParts) → Tree lines a → Tree lines b → a ≡ b }
{}

/// There is exactly one function from texts to the kind of the one token that a text is (6.4).
pub fn one_lexer()
    ensures { HasOneLexer }
{}

/// If the lines of a file have no tree of groups (6.10), the fault is at the first line with which the lines so far
/// begin no list that has a tree. It is fault 3 if no if-section is open before that line, and otherwise fault 4. If
/// there is no such line, it is fault 5, at the line that opens the innermost open if-section.
pub fn which_group_fault()
    ensures { (lines : List LogicalLine) (fault : Fault) → (group_fault [] lines ≡ Some fault) ↔ IsGroupFault lines fault }
{}

/// In the tree of groups (6.10), the next branch line of a line follows its group: it is the next branch of its
/// if-section or its `#endif`. So whoever skips the group continues there.
pub fn next_branches()
    ensures { (lines : List LogicalLine) (parts : GroupParts) → Tree lines parts → map (λ l. l.next_branch) (spans 0 0 lines) ≡ part_branches 0 parts }
{}

/// A file has at most one include guard, so `Source::guard` returns the only one.
pub fn one_guard()
    ensures { (lines : List LogicalLine) (a b : List ℕ) → GuardedBy lines a → GuardedBy lines b → a ≡ b }
{}

/// A text passes a test of `Kinds` if and only if it is in the language of the same name: identifiers (6.4.2), numbers
/// (6.4.8), character constants (6.4.4.4), string literals (6.4.5), punctuators (6.4.6), other characters, and their
/// parts. So `kind_of` may be read as the grammar.
pub fn tests_are_languages()
    ensures { TestsAreLanguages }
{}

/// `kind_of`, which decides what pasted and stringized texts are, gives a kind if and only if the text is one of that
/// kind's spellings (6.4), is no unmatched quote and opens no comment.
pub fn kind_by_language()
    ensures { (text : List ℕ) (k : Kind) → (kind_of text ≡ Some k) ↔ (Spells k text × (¬ IsUnmatchedQuote text) × (¬ OpensComment text)) }
{}

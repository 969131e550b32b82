//! Theorems about the specification. Each is the contract of a function that does nothing.
ghost use Rattle.std.specs.Prelude.{◌≡◌, ◌<◌, ℕ, List, Option, Some, IsTrue, ◌↔◌};
ghost use Rattle.ppshelf.specs.Events.{ObservedStays, CallersAgree, EachBlockOnce};
ghost use Rattle.ppshelf.specs.Names.{AreNames, are_names};
ghost use Rattle.ppshelf.specs.Search.{Candidate, IsEndOf, IsFirstRow, candidates, candidates_after};
ghost use Rattle.ppshelf.specs.declared.search.Form.TheVariants.{Angle};

/// Among names that occur once each, a search has at most one result (6.10.2).
pub fn one_row()
    ensures { (names : List (List ℕ)) (candidates : List Candidate) (a b : Option (ℕ × ℕ)) → AreNames names
        → IsFirstRow names candidates a → IsFirstRow names candidates b → a ≡ b }
{}

/// A search has a result, whatever the names and the candidates are (6.10.2).
pub fn some_row()
    ensures { (names : List (List ℕ)) (candidates : List Candidate) → (r : Option (ℕ × ℕ)) × IsFirstRow names candidates r }
{}

/// The candidates of `#include_next` after a directory are the last candidates of `#include <..>`.
pub fn next_ends_search()
    ensures { (from text : List ℕ) (unit setting : List (List ℕ)) (number : ℕ)
        → IsEndOf (candidates_after number unit setting text) (candidates Angle from unit setting text) }
{}

/// A search after a directory finds a file in a directory with a larger number.
pub fn next_advances()
    ensures { (names unit setting : List (List ℕ)) (text : List ℕ) (number row directory : ℕ)
        → IsFirstRow names (candidates_after number unit setting text) (Some (row, directory)) → number < directory }
{}

/// What a caller has observed of a shelf stays true, whatever happens to the shelf.
pub fn observed_stays()
    ensures { ObservedStays }
{}

/// Callers of a shelf agree on every row that both have observed.
pub fn callers_agree()
    ensures { CallersAgree }
{}

/// The blocks that callers claimed at a block counter are those below the next one, each once. They are all blocks if a
/// caller found none left.
pub fn each_block_once()
    ensures { EachBlockOnce }
{}

/// The test of names passes if and only if each is in normal form and occurs once.
pub fn names_decide()
    ensures { (names : List (List ℕ)) → IsTrue (are_names names) ↔ AreNames names }
{}

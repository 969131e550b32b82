//! The theorems of the specification: functions that do nothing, whose contracts are the theorems.
ghost use Rattle.std.specs.Prelude.{◌≡◌, ◌↔◌, ◌<◌, ℕ, List, Option, Some, None};
ghost use Rattle.std.specs.FinSet as set;
ghost use Rattle.std.specs.List.{AllPass};
ghost use Rattle.pptext.specs.declared.tokens.Token.{Token};
ghost use Rattle.ppmacro.specs.Names.{Name, HideSet, Macros};
ghost use Rattle.ppmacro.specs.Hiding.{Hiding};
ghost use Rattle.ppexpand.specs.declared.env.Env.{Env};
ghost use Rattle.ppexpand.specs.Arguments.{Closed, UnmatchedQuote, Unclosed, gather};
ghost use Rattle.ppexpand.specs.ExpansionStep.{expansion_step};
ghost use Rattle.ppexpand.specs.Budget.{with_budget, without_budget};
ghost use Rattle.ppexpand.specs.declared.meter.Meter.{Meter};
ghost use Rattle.ppexpand.specs.Expansion.{Outcome, step_in_budget, Expands, ExpandsTo, Expansion, IsExpansion, count};
ghost use Rattle.ppexpand.specs.Standard.{StandardExpands, IsStandardExpansion};
ghost use Rattle.ppexpand.specs.Laws.{HasOneOutcome, HasOneExpansion, EndsWithin, plus, CapsExpansion, OnlyBudgetsRefuse, is_fully_expanded, IsInvocation};
ghost use Rattle.ppexpand.specs.Laws.{StopsAtQuote, NeverClosed, Leads, LeavesOpen, LeavesTheSameOpen};
ghost use Rattle.ppexpand.specs.OpenInvocations.{open_expansion};
ghost use Rattle.ppexpand.specs.Termination.{hides, IsSubset, HidesNames, names_left, IsOutside, Step, Ends, PrefixEnds};

/// Each list of tokens with hide sets has exactly one outcome, for all macros and at each level of arguments.
pub fn one_outcome()
    ensures { (macros : Macros) (env : Env) (level : ℕ) (meter : Meter) (list : List Hiding) → HasOneOutcome macros env level meter list }
{}

/// Each list of tokens has exactly one expansion, for all macros (6.10.3.4).
pub fn one_expansion()
    ensures { (macros : Macros) (env : Env) (meter : Meter) (tokens : List Token) → HasOneExpansion macros env meter tokens }
{}

/// Expansion terminates: for all macros and each list, the number of expansion steps has a bound.
pub fn expansion_terminates()
    ensures { (macros : Macros) (env : Env) (level : ℕ) (meter : Meter) (list : List Hiding)
        → (most : ℕ) × EndsWithin macros env level most meter list }
{}

/// Why expansion terminates (6.10.3.4). Each expansion step is a step on the hide sets of the list alone. If the hide sets of a prefix all have
/// some names, the hide sets of a replacement in it have these names and one more, so fewer macro names remain to be replaced there. Hence each prefix
/// terminates before a rest that terminates, and each list is such a prefix.
pub fn prefixes_terminate()
    ensures steps { (macros : Macros) (env : Env) (level : ℕ) (meter meter_after : Meter) (list next : List Hiding)
        → Leads macros env level meter list meter_after next
        → Step macros (hides list) (hides next) }
    ensures names { (hidden one two whole : HideSet) (name : Name) → IsSubset hidden one → IsSubset hidden two → HidesNames one two name whole → IsSubset (set.insert hidden name) whole }
    ensures fewer { (macros : Macros) (hidden : HideSet) (name : Name) → IsOutside macros name hidden → names_left macros (set.insert hidden name) < names_left macros hidden }
    ensures prefixes { (macros : Macros) (hidden : HideSet) (prefix : List HideSet) → PrefixEnds macros hidden prefix }
    ensures lists { (macros : Macros) (list : List HideSet) → Ends macros list }
{}

/// An expanded token is no unmatched quote, and no name of an object-like or predefined macro unless its hide set has the name (6.10.3.4).
pub fn leaves_fully_expanded_tokens()
    ensures { (macros : Macros) (env : Env) (level : ℕ) (meter : Meter) (list : List Hiding) (out : Outcome)
        → ExpandsTo macros env level meter list out
        → AllPass (is_fully_expanded macros) out.tokens }
{}

/// The arguments of an invocation are found if and only if the list after `(` consists of these arguments, the matching `)` and the rest (6.10.3).
pub fn finds_arguments()
    ensures { (commas : Option ℕ) (list : List Hiding) (arguments : List (List Hiding)) (close : Hiding) (following : List Hiding)
        → (gather 0 commas list ≡ Closed arguments close following) ↔ IsInvocation commas list arguments close following }
{}

/// An invocation stops at an unmatched quote if and only if this quote is before any matching `)`. It has no end if and only if no `)`
/// matches and there is no unmatched quote (6.4, 6.10.3).
pub fn finds_no_arguments()
    ensures quote { (commas : Option ℕ) (list : List Hiding) (quote : Hiding) → (gather 0 commas list ≡ UnmatchedQuote quote) ↔ StopsAtQuote list quote }
    ensures no_end { (commas : Option ℕ) (list : List Hiding) → (gather 0 commas list ≡ Unclosed) ↔ NeverClosed list }
{}

/// Without a budget nothing is refused and nothing is counted. An expansion step is what the rules of macro replacement require (6.10.3,
/// 6.10.3.4). There is no budget after an expansion either. The expansion of a list is the one by the standard's rules, which have no budget.
///
/// Both sides use the same definitions of arguments (`gather`, `fit_arguments`, `arguments_to_expand`, `expansions_by_parameter`) and of replacements
/// (`predefined_value`, `counter_value`, `macro_replacement`, `followed_by`). So the law says that they apply these definitions in the same cases and in
/// the same order. It says nothing of the definitions themselves.
pub fn without_a_budget()
    ensures steps { (macros : Macros) (env : Env) (meter : Meter) (list : List Hiding)
        → step_in_budget macros env (without_budget meter) list ≡ expansion_step macros env list }
    ensures remaining { (macros : Macros) (env : Env) (level : ℕ) (meter : Meter) (list : List Hiding) (out : Outcome)
        → ExpandsTo macros env level (without_budget meter) list out
        → out.meter.remaining ≡ None }
    ensures rules { (macros : Macros) (env : Env) (level : ℕ) (meter : Meter) (list : List Hiding) (out : Outcome)
        → ExpandsTo macros env level (without_budget meter) list out
        ↔ ((out.meter.remaining ≡ None) × StandardExpands macros env level meter.counter list out.tokens out.fault out.meter.counter) }
    ensures expansions { (macros : Macros) (env : Env) (meter : Meter) (tokens : List Token) (e : Expansion)
        → IsExpansion macros env (without_budget meter) tokens e
        ↔ ((e.meter.remaining ≡ None) × IsStandardExpansion macros env meter.counter tokens e.tokens e.fault e.meter.counter) }
{}

/// The cost of an expansion and the rest of the budget add up to the budget.
pub fn budget_is_spent()
    ensures { (macros : Macros) (env : Env) (level steps : ℕ) (meter : Meter) (list : List Hiding) (out : Outcome)
        → (d : Expands macros env level meter steps list out)
        → meter.remaining ≡ plus (count macros env d) out.meter.remaining }
{}

/// An expansion within a budget equals the one without a budget if the cost does not exceed the budget. Otherwise it ends in fault 35, nothing remains of the budget,
/// and the emitted tokens are a prefix.
pub fn budget_caps()
    ensures { (macros : Macros) (env : Env) (level steps : ℕ) (meter : Meter) (list : List Hiding) (whole : Outcome)
        → (d : Expands macros env level (without_budget meter) steps list whole) (b : ℕ) (out : Outcome)
        → ExpandsTo macros env level (with_budget (Some b) meter) list out
        → CapsExpansion b (count macros env d) whole out }
{}

/// Without a budget no expansion ends in fault 35.
pub fn only_budgets_refuse()
    ensures { OnlyBudgetsRefuse }
{}

/// The tokens that an expansion leaves open are none, or an invocation without its `)`: a function-like macro's name and `(`, neither a matching
/// `)` nor an unmatched quote after it, and fault 17 at the name. They are the same in each expansion of a list (6.10.3p11).
pub fn leaves_open()
    ensures is { (macros : Macros) (env : Env) (meter : Meter) (tokens : List Token) (e : Expansion)
        → (x : IsExpansion macros env meter tokens e)
        → LeavesOpen macros e.fault (open_expansion x) }
    ensures one { LeavesTheSameOpen }
{}

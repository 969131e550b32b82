//! The theorems of the specification: functions that do nothing, whose contracts are the theorems.
ghost use Rattle.std.specs.Prelude.{◌≡◌, ◌≢◌, ◌↔◌, ℕ, List, Some, None, Ok, Err};
ghost use Rattle.pptext.specs.declared.tokens.Place.{Place};
ghost use Rattle.pptext.specs.declared.tokens.Token.{Token};
ghost use Rattle.pptext.specs.declared.tokens.Fault.{Fault};
ghost use Rattle.pptext.specs.Spellings.{IsCharConst};
ghost use Rattle.ppmacro.specs.Names.{Macros};
ghost use Rattle.ppexpand.specs.declared.env.Env.{Env};
ghost use Rattle.ppexpand.specs.declared.meter.Meter.{Meter};
ghost use Rattle.ppexpand.specs.Budget.{with_budget, without_budget};
ghost use Rattle.ppexpand.specs.Laws.{plus};
ghost use Rattle.ppexpr.specs.declared.symbols.Symbol.{Symbol};
ghost use Rattle.ppexpr.specs.Grammar.{Tree, Parses};
ghost use Rattle.ppexpr.specs.declared.symbols.Value.{Value};
ghost use Rattle.ppexpr.specs.Values.{has_unsigned_type, evaluation_of};
ghost use Rattle.ppexpr.specs.Integers.{integer_of};
ghost use Rattle.ppexpr.specs.Characters.{character_of};
ghost use Rattle.ppexpr.specs.Constants.{IsInteger, IsCharacterConstant};
ghost use Rattle.ppexpr.specs.Tokens.{symbols_of};
ghost use Rattle.ppexpr.specs.Conditions.{Condition, IsCondition, count_condition};
ghost use Rattle.ppexpr.specs.Laws.{CapsCondition, IsInRange};

/// An expression has at most one tree (6.5).
pub fn one_tree()
    ensures { (s : List Symbol) (t u : Tree) → Parses s t → Parses s u → t ≡ u }
{}

/// If an expression has a value, the value has the expression's type. If the expression consists of tokens, the value is in the range of the
/// type: from -2^63 to 2^63 - 1 if it is signed, below 2^64 if it is unsigned. Each constant is in its range, too (6.10.1p4).
pub fn value_has_its_type()
    ensures type_is { (t : Tree) (v : Value) → (evaluation_of t).value ≡ Ok v → has_unsigned_type v ≡ (evaluation_of t).unsigned }
    ensures range { (at : Place) (tokens : List Token) (s : List Symbol) (t : Tree) (v : Value)
        → symbols_of at tokens ≡ Ok s → Parses s t → (evaluation_of t).value ≡ Ok v → IsInRange v }
    ensures integers { (s : List ℕ) (v : Value) → integer_of s ≡ Some v → IsInRange v }
    ensures characters { (s : List ℕ) (v : Value) → character_of s ≡ Some v → IsInRange v }
{}

/// A text is read as a constant with this value if and only if it has the syntax of the standard. For an integer constant this holds for any
/// text (6.4.4.1), for a constant of one character if the text is the spelling of a character constant (6.4.4.4).
pub fn reads_constants()
    ensures integers { (s : List ℕ) (v : Value) → (integer_of s ≡ Some v) ↔ IsInteger s v }
    ensures characters { (s : List ℕ) (v : Value) → IsCharConst s → (character_of s ≡ Some v) ↔ IsCharacterConstant s v }
{}

/// A condition has at most one result (true, false or one fault), and at most one meter after it.
pub fn one_condition()
    ensures { (macros : Macros) (env : Env) (at : Place) (tokens : List Token) (meter meter_after other_after : Meter) (c d : Condition)
        → IsCondition macros env at tokens meter c meter_after
        → IsCondition macros env at tokens meter d other_after
        → (c ≡ d) × (meter_after ≡ other_after) }
{}

/// Each list of tokens has a result, for all macros and all budgets.
pub fn some_condition()
    ensures { (macros : Macros) (env : Env) (at : Place) (tokens : List Token) (meter : Meter)
        → (c : Condition) × (meter_after : Meter) × IsCondition macros env at tokens meter c meter_after }
{}

/// Without a budget before a condition there is none after it.
pub fn without_a_budget()
    ensures { (macros : Macros) (env : Env) (at : Place) (tokens : List Token) (meter meter_after : Meter) (c : Condition)
        → IsCondition macros env at tokens (without_budget meter) c meter_after
        → meter_after.remaining ≡ None }
{}

/// The cost of a condition and the rest of the budget add up to the budget.
pub fn budget_is_spent()
    ensures { (macros : Macros) (env : Env) (at : Place) (tokens : List Token) (meter meter_after : Meter) (c : Condition)
        → (d : IsCondition macros env at tokens meter c meter_after)
        → meter.remaining ≡ plus (count_condition d) meter_after.remaining }
{}

/// A condition has the same result within a budget as without one if the cost does not exceed the budget. Otherwise it ends in fault 35, and
/// nothing remains of the budget.
pub fn budget_caps()
    ensures { (macros : Macros) (env : Env) (at : Place) (tokens : List Token) (meter whole_after : Meter) (whole : Condition)
        → (d : IsCondition macros env at tokens (without_budget meter) whole whole_after) (b : ℕ) (limited_after : Meter) (limited : Condition)
        → IsCondition macros env at tokens (with_budget (Some b) meter) limited limited_after
        → CapsCondition b (count_condition d) whole limited whole_after limited_after }
{}

/// Without a budget no condition ends in fault 35.
pub fn only_budgets_refuse()
    ensures { (macros : Macros) (env : Env) (at : Place) (tokens : List Token) (meter meter_after : Meter) (f : Fault)
        → IsCondition macros env at tokens (without_budget meter) (Err f) meter_after
        → f.number ≢ 35 }
{}

//! Theorems about the specification. The functions do nothing; their contracts are the theorems.
ghost use Rattle.std.specs.Prelude.{◌≡◌, ◌↔◌, ◌∷◌, ◌++◌, length, Bool, List, None, Some, Ok, true, false};
ghost use Rattle.std.specs.List.{list_any, AllByRecursion};
ghost use Rattle.pptext.specs.declared.sources.Profile.{Profile};
ghost use Rattle.pptext.specs.declared.tokens.Place.{Place};
ghost use Rattle.pptext.specs.declared.tokens.Token.{Token};
ghost use Rattle.pptext.specs.Profiles.{is_gnu};
ghost use Rattle.ppmacro.specs.Names.{Macros, HideSet};
ghost use Rattle.ppmacro.specs.Hiding.{Hiding};
ghost use Rattle.ppmacro.specs.ParsedParameters.{ParsedParameters};
ghost use Rattle.ppmacro.specs.Define.{Named, read_parameter_list, check_define};
ghost use Rattle.ppmacro.specs.Chains.{lenient_parameter, chains_of};
ghost use Rattle.ppmacro.specs.declared.macros.Macro.{Macro};
ghost use Rattle.ppmacro.specs.declared.macros.Chain.{Chain};
ghost use Rattle.ppmacro.specs.Substitution.{Arguments, Replacement, chain_tokens, chains_replacement};
ghost use Rattle.ppmacro.specs.Origins.{ComesFrom, LeavesPending, IsReplacementToken};
ghost use Rattle.ppmacro.specs.VaOpt.{Separated, separate};
ghost use Rattle.ppmacro.specs.declared.va_opt.Position.TheVariants.{Outside};
ghost use Rattle.ppmacro.specs.Laws.{IsParameterList, AreChains, WithContents, has_valid_operators, holds_variadic};

/// Proves that a parameter list is read exactly if it has the syntax of 6.10.3: names with commas between them, then `...` or
/// not, then `)`. In GNU C a name and `...` without a comma between them is permitted, too.
pub fn reads_parameter_lists()
    ensures { (profile : Profile) (line : List Token) (parsed : ParsedParameters) → (read_parameter_list profile line ≡ Some parsed) ↔ IsParameterList profile line parsed }
{}

/// Proves that the chains of a valid replacement list are the list: laid end to end, with `##` between the operands of each
/// (6.10.3.2, 6.10.3.3). No other list of chains is. There are such chains exactly if `##` and `#` are in valid positions. So faults 13
/// and 14 reject no list that has chains.
pub fn lays_out_chains()
    ensures laid_out { (definition : Macro) → has_valid_operators definition ≡ true → AreChains definition.kind definition.body (chains_of definition) }
    ensures only { (definition : Macro) (chains : List Chain) → AreChains definition.kind definition.body chains → chains_of definition ≡ chains }
    ensures exactly { (definition : Macro) → (has_valid_operators definition ≡ true) ↔ ((chains : List Chain) × AreChains definition.kind definition.body chains) }
{}

/// Proves that the contents of `__VA_OPT__` are taken out of a replacement list exactly if it has the syntax of C23, 6.10.5.1: after
/// each `__VA_OPT__` come `(`, a content and `)`. The parentheses of a content match, and no `__VA_OPT__` is in it. Each name is left
/// without its content and the two parentheses, and the contents are in order.
pub fn reads_va_opt()
    ensures { (tokens : List Token) (s : Separated) → (separate Outside tokens ≡ Some s) ↔ WithContents tokens s }
{}

/// Proves that no variable argument may be absent without the rules of GNU C. No chain of a macro without such an argument has
/// the operand `VariadicAfterComma`.
pub fn lenient_in_gnu_alone()
    ensures strict { (profile : Profile) (macros : Macros) (at : Place) (line : List Token) (named : Named) → is_gnu profile ≡ false → check_define profile macros at line ≡ Ok named → lenient_parameter named.definition.kind ≡ None }
    ensures pasted { (definition : Macro) → lenient_parameter definition.kind ≡ None → list_any holds_variadic (chains_of definition) ≡ false }
{}

/// Proves the origin of each token of a replacement: the replacement list, an argument, a `#` or a `##` (6.10.3.1 to 6.10.3.4).
/// Its hide set is that of its origin, or for `##` the intersection of both, with the names that the invocation adds. Its
/// leading-space flag is its own or depends on the chains before it.
pub fn traces_origins()
    ensures replaces { (chains : List Chain) (args : Arguments) (added : HideSet) (used : Place) (space : Bool) (whole : Replacement)
        → chains_replacement chains args added used space ≡ Ok whole
        → (prefix : List Hiding) (token : Hiding) (following : List Hiding)
        → whole.tokens ≡ prefix ++ token ∷ following
        → IsReplacementToken chains args added used space (length prefix) token }
    ensures is_pending { (chains : List Chain) (args : Arguments) (added : HideSet) (used : Place) (space : Bool) (whole : Replacement)
        → chains_replacement chains args added used space ≡ Ok whole
        → LeavesPending args used space chains (length whole.tokens) whole.pending }
    ensures comes_from { (args : Arguments) (used : Place) (chain : Chain) (tokens : List Hiding)
        → chain_tokens args used chain ≡ Ok tokens
        → AllByRecursion (ComesFrom args used chain.operands) tokens }
{}

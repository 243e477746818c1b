//! This module has the laws of spellings and duals. Each function does nothing: its contract is the law.

ghost use Rattle.std.specs.Prelude.{◌≡◌, ◌≤◌, ◌-◌, ◌↔◌, ℕ, List};
ghost use Rattle.formula_reader.specs.declared.formula.Bound.{Bound};
ghost use Rattle.rpatl_syntax.specs.Dual.{dual_bound, IsAtMostOne, IsMetBy};
ghost use Rattle.formula_reader.specs.Formula.{Tree};
ghost use Rattle.formula_reader.specs.Rules.{DenotesFormula};
ghost use Rattle.rpatl_syntax.specs.Spellable.{IsSpellable};
ghost use Rattle.rpatl_syntax.specs.Spelling.{spelling};

/// A formula that a text denotes can be spelled. The contract of `print_formula` therefore says that it is read again
/// from what is printed, unless that is too long.
pub fn formulas_of_texts_are_spellable()
    ensures { (text : List ℕ) (tree : Tree) → DenotesFormula text tree → IsSpellable tree }
{}

/// No two formulas that can be spelled have the same spelling.
pub fn spellings_have_one_reading()
    ensures { (tree other : Tree) → IsSpellable tree → IsSpellable other → spelling tree ≡ spelling other
        → tree ≡ other }
{}

/// A threshold of a formula that a text denotes is at most 1, as `dual` requires.
pub fn thresholds_are_at_most_one()
    ensures { (text : List ℕ) (tree : Tree) → DenotesFormula text tree → IsAtMostOne tree.bound }
{}

/// What is left of a whole meets the dual of a bound exactly if the part that was taken meets the bound.
pub fn rests_meet_duals()
    ensures { (bound : Bound) (n whole : ℕ) → IsAtMostOne bound → n ≤ whole
        → IsMetBy (dual_bound bound) (whole - n) whole ↔ IsMetBy bound n whole }
{}

/// The dual of the dual of a bound is the bound.
pub fn duals_of_duals()
    ensures { (bound : Bound) → IsAtMostOne bound → dual_bound (dual_bound bound) ≡ bound }
{}

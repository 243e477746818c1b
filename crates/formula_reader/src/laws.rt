//! This module has the laws of formulas and the texts that denote them. Each function does nothing: its contract is the
//! law.

ghost use Rattle.std.specs.Prelude.{◌≡◌, ◌≤◌, ◌++◌, ◌↔◌, ℕ, List, Ok, length};
ghost use Rattle.formula_reader.specs.Formula.{Tree, formulas_inside};
ghost use Rattle.formula_reader.specs.Grammar.{formula_said};
ghost use Rattle.formula_tokens.specs.Laws.{IsBlank, StandsAt};
ghost use Rattle.formula_reader.specs.Limits.{most_nested, most_steps};
ghost use Rattle.formula_tokens.specs.Limits.{longest};
ghost use Rattle.formula_reader.specs.Rules.{DenotesFormula};
ghost use Rattle.formula_tokens.specs.Tokens.{tokens_of};

use crate::limits::{MOST_NESTED, MOST_STEPS};

/// The limits of the code are those of the definitions.
pub fn limits()
    ensures nesting { MOST_NESTED ≡ most_nested }
    ensures steps { MOST_STEPS ≡ most_steps }
{}

/// The formula that is read from a text is the one that it denotes.
pub fn formulas_are_those_that_a_text_denotes()
    ensures { (text : List ℕ) (tree : Tree) → (formula_said text ≡ Ok tree) ↔ DenotesFormula text tree }
{}

/// A blank before a token or at the end of a text changes no formula, if the text does not get too long.
pub fn blanks_change_no_formula()
    ensures before { (front blank back : List ℕ) (tree : Tree) → IsBlank blank
        → StandsAt (tokens_of (front ++ back)) (length front) →
        length (front ++ (blank ++ back)) ≤ longest → DenotesFormula (front ++ back) tree
        → DenotesFormula (front ++ (blank ++ back)) tree }
    ensures end { (text blank : List ℕ) (tree : Tree) → IsBlank blank → length (text ++ blank) ≤ longest
        → DenotesFormula text tree → DenotesFormula (text ++ blank) tree }
{}

/// A formula that a text denotes has no more formulas inside than a text may have bytes.
pub fn formulas_inside_are_few()
    ensures { (text : List ℕ) (tree : Tree) → DenotesFormula text tree → formulas_inside tree ≤ longest }
{}

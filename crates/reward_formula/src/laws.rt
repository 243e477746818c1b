//! This module has the laws of formulas and the texts that denote them. Each function does nothing: its contract is the
//! law.

ghost use Rattle.std.specs.Prelude.{◌≡◌, ◌↔◌, ℕ, List, Ok, false};
ghost use Rattle.formula_reader.specs.Grammar.{formula_said};
ghost use Rattle.reward_formula.specs.Formula.{AnyTree};
ghost use Rattle.reward_formula.specs.Grammar.{any_said, is_of_reward, of_probability};
ghost use Rattle.reward_formula.specs.Rules.{Denotes};
ghost use Rattle.reward_formula.specs.Spellable.{IsAnySpellable};
ghost use Rattle.formula_tokens.specs.Tokens.{tokens_of};

/// The formula that is read from a text is the one that it denotes.
pub fn formulas_are_those_that_a_text_denotes()
    ensures { (text : List ℕ) (tree : AnyTree) → (any_said text ≡ Ok tree) ↔ Denotes text tree }
{}

/// A text in which no reward begins behind the coalition is read as a formula of probability, with the same faults.
pub fn other_texts_are_read_as_before()
    ensures { (text : List ℕ) → is_of_reward (tokens_of text) ≡ false →
        any_said text ≡ of_probability (formula_said text) }
{}

/// A formula that a text denotes can be spelled. The contract of `print_any_formula` therefore says that it is read
/// again from what is printed, unless that is too long.
pub fn formulas_of_texts_are_spellable()
    ensures { (text : List ℕ) (tree : AnyTree) → Denotes text tree → IsAnySpellable tree }
{}

//! This module has the laws of truth and of values. Each function does nothing: its contract is the law.

ghost use Rattle.std.specs.Prelude.{◌≡◌, ◌<◌, ◌≤◌, ℕ, List, Bool, true};
ghost use Rattle.game_model.specs.Game.{IsGame};
ghost use Rattle.game_model.specs.Query.{Query, IsQuery, is_dead, is_goal};
ghost use Rattle.game_model.specs.Values.{numerator};
ghost use Rattle.formula_reader.specs.Formula.{Tree};
ghost use Rattle.formula_sets.specs.Posing.{Model};
ghost use Rattle.formula_truth.specs.Truth.{IsTruth, Valuation, states};

/// Each model has a truth: a valuation which says that each formula is true at exactly the states where it is true.
pub fn there_is_a_truth()
    ensures { (m : Model) → IsGame m.game → (truth : Valuation) × IsTruth m truth }
{}

/// There is at most one truth: two valuations that are the truth say the same of every formula at all states.
pub fn there_is_one_truth()
    ensures { (m : Model) (valuation other : Valuation) → IsGame m.game → IsTruth m valuation → IsTruth m other
        → (f : Tree) (s : ℕ) → s < states m → valuation f s ≡ other f s }
{}

/// More goals and fewer dead states give no smaller values.
pub fn more_goals_give_no_smaller_values()
    ensures { (q : Query) (more fewer : List Bool) → IsQuery q
        → ((s : ℕ) → is_goal q s ≡ true → is_goal (record q { goals = more; deads = fewer }) s ≡ true)
        → ((s : ℕ) → is_dead (record q { goals = more; deads = fewer }) s ≡ true → is_dead q s ≡ true)
        → (k s : ℕ) → numerator q k s ≤ numerator (record q { goals = more; deads = fewer }) k s }
{}

//! This module has the law of what is decided. The function does nothing: its contract is the law.

ghost use Rattle.std.specs.Prelude.{◌≡◌, ◌<◌, ℕ};
ghost use Rattle.game_model.specs.Game.{IsGame};
ghost use Rattle.formula_reader.specs.Formula.{State};
ghost use Rattle.rpatl_syntax.specs.Spellable.{HasParts};
ghost use Rattle.formula_sets.specs.Posing.{Model};
ghost use Rattle.formula_truth.specs.declared.way.Way.{Way};
ghost use Rattle.formula_truth.specs.Truth.{IsTruth, Valuation, holds, states};
ghost use Rattle.formula_truth.specs.ThreeValued.{Bands, surely, possibly, undecided_in};
ghost use Rattle.formula_truth.specs.InnerRuns.{AreFound};

/// If no pair of a state and a formula inside a state formula is undecided, the bounds of the formulas inside say what
/// is true. The state formula surely holds exactly where it holds in the truth, and it possibly holds exactly there.
pub fn what_is_decided_is_the_truth()
    ensures sure { (m : Model) (truth : Valuation) (way : Way) (x : State) (found : Bands x) → IsGame m.game
        → IsTruth m truth → HasParts x → AreFound m way x found → undecided_in x found (states m) ≡ 0
        → (s : ℕ) → s < states m → surely m.labels x found s ≡ holds m.labels truth x s }
    ensures possible { (m : Model) (truth : Valuation) (way : Way) (x : State) (found : Bands x) → IsGame m.game
        → IsTruth m truth → HasParts x → AreFound m way x found → undecided_in x found (states m) ≡ 0
        → (s : ℕ) → s < states m → possibly m.labels x found s ≡ holds m.labels truth x s }
{}

//! This module has the laws of coarse bounds. Each function does nothing: its contract is the law.

ghost use Rattle.std.specs.Prelude.{◌<◌, ◌≤◌, ℕ, All, List};
ghost use Rattle.game_model.specs.Game.{IsGame};
ghost use Rattle.formula_reader.specs.Formula.{State, Tree};
ghost use Rattle.rpatl_syntax.specs.Spellable.{HasParts, HasShare};
ghost use Rattle.verdicts.specs.declared.report.How.{How};
ghost use Rattle.formula_sets.specs.Posing.{Model};
ghost use Rattle.formula_truth.specs.declared.way.Way.TheVariants.{ByRounds};
ghost use Rattle.formula_truth.specs.Truth.{states};
ghost use Rattle.formula_truth.specs.ThreeValued.{Band, Bands, known, undecided_in};
ghost use Rattle.formula_truth.specs.InnerRuns.{AreFound, AreFoundBy};
ghost use Rattle.formula_truth.specs.RoundBounds.{AreCoarse, AreOpenWithin, AreWithin, IsCoarse, IsFiner};

/// The formulas inside every state formula have coarse bounds after every number of rounds, and so has every formula.
pub fn there_are_coarse_bounds()
    ensures inside { (m : Model) (x : State) (asked : ℕ) → IsGame m.game
        → (bands : Bands x) × AreCoarse m asked x bands }
    ensures outermost { (m : Model) (f : Tree) (asked : ℕ) → IsGame m.game
        → (left : Bands f.left) × (right : Bands f.right) × (band : Band) × IsCoarse m f asked left right band }
{}

/// If a state formula surely holds or surely fails at a state by coarse bounds of the formulas inside, it does so by
/// the bounds that runs of as many rounds find, though a run may end early. These leave a formula inside undecided only
/// where the coarse ones do.
pub fn undecided_only_where_coarse_bounds_are()
    ensures finer { (m : Model) (asked : ℕ) (x : State) (found coarse : Bands x) → IsGame m.game → HasParts x
        → AreFound m (ByRounds asked) x found → AreCoarse m asked x coarse
        → IsFiner (states m) (known m.labels x found) (known m.labels x coarse) }
    ensures inside { (m : Model) (asked : ℕ) (x : State) (found coarse : Bands x) → IsGame m.game → HasParts x
        → AreFound m (ByRounds asked) x found → AreCoarse m asked x coarse
        → AreOpenWithin (states m) x found coarse }
    ensures fewer { (m : Model) (asked : ℕ) (x : State) (found coarse : Bands x) → IsGame m.game → HasParts x
        → AreFound m (ByRounds asked) x found → AreCoarse m asked x coarse
        → undecided_in x found (states m) ≤ undecided_in x coarse (states m) }
    // The same is true of the outermost formula at the states where its run looks. If it asks for a value, its bounds
    // lie within the coarse ones there.
    ensures outermost { (m : Model) (f : Tree) (asked : ℕ) (starts : List ℕ) (left coarse_left : Bands f.left)
        (right coarse_right : Bands f.right) (band coarse : Band) (how : How)
        → IsGame m.game → HasShare f.bound → HasParts f.left → HasParts f.right → All (λ s. s < states m) starts
        → AreFound m (ByRounds asked) f.left left → AreFound m (ByRounds asked) f.right right
        → AreFoundBy f.kind m f (known m.labels f.left left) (known m.labels f.right right) starts (ByRounds asked)
        band how
        → IsCoarse m f asked coarse_left coarse_right coarse → AreWithin f.bound starts band coarse }
{}

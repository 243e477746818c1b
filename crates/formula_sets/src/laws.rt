//! This module has the laws of questions. Each function does nothing: its contract is the law.

ghost use Rattle.std.specs.Prelude.{◌≡◌, ◌↔◌, List, Ok};
ghost use Rattle.game_model.specs.Game.{Distribution};
ghost use Rattle.label_lines.specs.Labels.{Labelling};
ghost use Rattle.label_lines.specs.Owners.{Ownership};
ghost use Rattle.formula_reader.specs.Formula.{Tree, IsFlat};
ghost use Rattle.formula_sets.specs.Posing.{Posing, NextPosing, Poses, PosesNext, pose_said, pose_next_said};

/// The question that is said of a formula with none inside is the one that it poses.
pub fn questions_are_those_that_a_formula_poses()
    ensures until { (game : List (List Distribution)) (l : Labelling) (o : Ownership) (f : Tree) (p : Posing)
        → IsFlat f → (pose_said game l o f ≡ Ok p) ↔ Poses game l o f p }
    ensures next { (game : List (List Distribution)) (l : Labelling) (o : Ownership) (f : Tree) (p : NextPosing)
        → IsFlat f → (pose_next_said game l o f ≡ Ok p) ↔ PosesNext game l o f p }
{}

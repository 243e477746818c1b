//! This module has the laws of attractors. Each function does nothing: its contract is the law.

ghost use Rattle.std.specs.Prelude.{◌≡◌, ℕ, ◌<◌, Bool, List, true, false, slice_index_or};
ghost use Rattle.game_model.specs.Query.{Query, states, is_goal};
ghost use Rattle.attractors.specs.Attractor.{ExcludedSets, IsClosed, IsAttractor};
ghost use Rattle.attractors.specs.Search.{IsLarger};

/// An attractor is the least set that has the goals and attracts no other state that is not excluded.
pub fn attractors_are_least()
    ensures { (q : Query) (excluded : ExcludedSets) (set other : List Bool) → IsAttractor q excluded set
        → IsClosed q excluded other
        → ((s : ℕ) → s < states q → is_goal q s ≡ true → slice_index_or other s false ≡ true) → IsLarger set other }
{}

/// There is only one attractor.
pub fn attractors_are_one()
    ensures { (q : Query) (excluded : ExcludedSets) (set other : List Bool) → IsAttractor q excluded set
        → IsAttractor q excluded other → set ≡ other }
{}

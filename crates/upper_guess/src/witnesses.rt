//! This module remembers where the last tables were refused.

use crate::guesses::MOST_STEPS;

/// For each number of up steps there is a state to look at first, at which the last table of that many up steps was
/// refused. The states change how long a guess takes, and not which it is.
#[derive(Drop)]
pub struct Witnesses {
    /// These are the states, by up steps.
    pub(crate) states: [u32; MOST_STEPS as usize + 1],
}

impl Witnesses {
    ghost use Rattle.std.specs.Prelude.{◌≡◌, ◌<◌};
    ghost use Rattle.game_model.specs.Query.{states};
    ghost use Rattle.upper_guess.specs.Guess.{AreWitnesses};

    /// Takes the first state for each number of up steps, before any guess.
    pub fn none() -> Witnesses
        ensures { (q : _) → 0 < states q → AreWitnesses q result.states }
    {
        Witnesses {
            states: [0; MOST_STEPS as usize + 1],
        }
    }
}

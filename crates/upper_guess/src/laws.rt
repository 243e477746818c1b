//! This module has the laws of the guesses. Each function does nothing: its contract is the law.

ghost use Rattle.std.specs.Prelude.{◌≡◌, ℕ, ◌+◌, ◌^◌, ◌<◌, List, Bool};
ghost use Rattle.game_model.specs.Query.{Query};
ghost use Rattle.game_model.specs.Limits.{unit};
ghost use Rattle.upper_guess.specs.Guess.{excess, last_place, most_steps, IsFirstGuess};

use crate::excesses::LAST_PLACE;
use crate::guesses::MOST_STEPS;

/// The limits of the code are those of the definitions.
pub fn limits()
    ensures place { LAST_PLACE ≡ last_place }
    ensures steps { MOST_STEPS ≡ most_steps }
{}

/// The excesses are 0 and the powers of 2 in their order. The last is above the unit.
pub fn excesses()
    ensures none { excess 0 ≡ 0 }
    ensures powers { (place : ℕ) → excess (place + 1) ≡ 2 ^ place }
    ensures last { unit < excess last_place }
{}

/// There is at most one first guess: it does not depend on which tables were made, or at which state a table was seen
/// to be refused.
pub fn one_first_guess()
    ensures { (q : Query) (marks : List Bool) (lower : ℕ → ℕ) (table other : List ℕ) → IsFirstGuess q marks lower table
        → IsFirstGuess q marks lower other → table ≡ other }
{}

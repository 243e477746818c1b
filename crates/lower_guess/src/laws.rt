//! This module has the laws of lower guesses. Each function does nothing: its contract is the law.

ghost use Rattle.std.specs.Prelude.{◌≡◌, ℕ, List, Bool, Option};
ghost use Rattle.game_model.specs.Query.{Query};
ghost use Rattle.lower_guess.specs.LowerGuess.{last_place, most_steps, IsLowerGuess};

use crate::guess::LAST_PLACE;
use crate::guesses::MOST_STEPS;

/// There is at most one lower guess of a table and choices: it does not depend on which tables were made, nor on the
/// order of the search.
pub fn one_lower_guess()
    ensures { (q : Query) (marks : List Bool) (base : List ℕ) (given : List (Option ℕ)) (values other : List ℕ)
        (choices others : List (Option ℕ)) (ranks alike : List ℕ) →
        IsLowerGuess q marks base given values choices ranks → IsLowerGuess q marks base given other others alike
        → (values ≡ other) × (choices ≡ others) × (ranks ≡ alike) }
{}

/// The values of a lower guess do not depend on the given choices.
pub fn one_lower_table()
    ensures { (q : Query) (marks : List Bool) (base : List ℕ) (given instead : List (Option ℕ)) (values other : List ℕ)
        (choices others : List (Option ℕ)) (ranks alike : List ℕ) →
        IsLowerGuess q marks base given values choices ranks → IsLowerGuess q marks base instead other others alike
        → values ≡ other }
{}

/// The limits of the code are equal to those of the definitions.
pub fn guess_limits()
    ensures place { LAST_PLACE ≡ last_place }
    ensures steps { MOST_STEPS ≡ most_steps }
{}

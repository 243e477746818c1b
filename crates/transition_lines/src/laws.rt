//! This module has the laws of transition texts. Each function does nothing: its contract is the law.

ghost use Rattle.std.specs.Prelude.{◌≡◌, ◌↔◌, ◌∷◌, ℕ, List, Ok};
ghost use Rattle.std.specs.List.Sorted.{IsPermutation};
ghost use Rattle.text_lines.specs.Text.{lines_of, significant};
ghost use Rattle.game_model.specs.Game.{Distribution};
ghost use Rattle.transition_lines.specs.Limits.{most_lines, most_stated_choices};
ghost use Rattle.transition_lines.specs.Text.{DenotesGame, game_of};

use crate::limits::{MOST_LINES, MOST_STATED_CHOICES};

/// The limits of the code are those of the definitions.
pub fn limits()
    ensures most_stated_choices { MOST_STATED_CHOICES ≡ most_stated_choices }
    ensures most_lines { MOST_LINES ≡ most_lines }
{}

/// A game is said of a text by cases exactly when the text denotes it.
pub fn said_is_denoted()
    ensures { (text : List ℕ) (game : List (List Distribution)) → (game_of text ≡ Ok game) ↔ DenotesGame text game }
{
    fractions::laws::numbers_are_those_that_a_text_denotes();
    distributions::laws::said_is_denoted();
}

/// The order of the transition lines does not change which game a text denotes.
pub fn order_of_lines()
    ensures { (text other first : List ℕ) (lines others : List (List ℕ)) (game : List (List Distribution)) →
        significant (lines_of text) ≡ first ∷ lines → significant (lines_of other) ≡ first ∷ others
        → IsPermutation lines others → DenotesGame text game → DenotesGame other game }
{
    fractions::laws::numbers_are_those_that_a_text_denotes();
    distributions::laws::order_of_parts();
}

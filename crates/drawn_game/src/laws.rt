//! This module has the laws of drawn games. Each function does nothing: its contract is the law.

ghost use Rattle.std.specs.Prelude.{◌≡◌, ℕ, ◌<◌, ◌≤◌, length};
ghost use Rattle.game_model.specs.Game.{choices_of, choice_of};
ghost use Rattle.drawn_game.specs.Limits.{multiplier, modulus, most_seed, least_states};
ghost use Rattle.drawn_game.specs.Drawings.{next_draw};
ghost use Rattle.drawn_game.specs.Rules.{drawn_game};
ghost use Rattle.drawn_game.specs.Ends.{LeadsToEnd};
ghost use Rattle.drawn_game.specs.Worked.{worked_row};

use crate::limits::{LEAST_STATES, MODULUS, MOST_SEED, MULTIPLIER};

/// The constants are the numbers of the definitions.
pub fn limits()
    ensures multiplier { MULTIPLIER ≡ multiplier }
    ensures modulus { MODULUS ≡ modulus }
    ensures seed { MOST_SEED ≡ most_seed }
    ensures states { LEAST_STATES ≡ least_states }
{}

/// If a number may be a seed, so may the draw after it. Different such numbers have different draws after them.
pub fn draws_are_seeds()
    ensures range { (x : ℕ) → 1 ≤ x → x ≤ most_seed → (1 ≤ next_draw x) × (next_draw x ≤ most_seed) }
    ensures apart { (x y : ℕ) → x ≤ most_seed → y ≤ most_seed → next_draw x ≡ next_draw y → x ≡ y }
{}

/// Seed 1 with three states draws the worked row, which was drawn by hand.
pub fn worked_row_is_drawn()
    ensures { drawn_game 1 3 ≡ worked_row }
{}

/// Every choice of a drawn game leads to the goal or the sink.
pub fn choices_lead_to_an_end()
    ensures { (seed n s c : ℕ) → least_states ≤ n → s < n → c < length (choices_of (drawn_game seed n).game s) →
        LeadsToEnd n (choice_of (drawn_game seed n).game s c) }
{}

//! A choice may cost some units.

ghost use Rattle.std.specs.Prelude.{◌≡◌, ◌<◌, length, option_map};
ghost use Rattle.table_rounding.specs.Costs.{cost_in};

use game_model::Game;

/// Returns what a choice of a state costs, in units. The list has a cost for each choice, state by state. Without a
/// list, and behind its end, a choice costs nothing.
pub fn cost_of(costs: Option<&[u64]>, game: &Game, state: u32, choice: u32) -> u64
    requires { state < length game.now }
    ensures { result ≡ cost_in (option_map (λ list. list.now) costs.entry) game.now state choice }
{
    let Some(costs) = costs else {
        return 0;
    };
    let place = game.choices_below(state) + u64::from(choice);
    let place = place as usize;
    if place < costs.len() { costs[place] } else { 0 }
}

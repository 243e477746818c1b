//! These are worked games.

ghost use Rattle.std.specs.Prelude.{◌≡◌, length, IfOk};

use crate::draft::{Draft, game_of};
use game_model::Game;
use std::alloc::Global;
use std::test::Fail;

/// In the coin loop, state 0 stays with probability 1/2, and goes to 1 and to 2 with 1/4 each; 1 and 2 stay.
pub fn coin_loop(alloc: Global) -> Result<Game, Fail>
    ensures { IfOk result (λ game. length game ≡ 3) }
{
    game_of(
        alloc,
        &[&[&[(0, 2), (1, 1), (2, 1)]], &[&[(1, 1)]], &[&[(2, 1)]]],
    )
}

/// State 0 goes to 1, or to 2 with 0.65 and to 3 with 0.35; state 1 goes to 2 and 3 with 0.5 each, or with
/// 0.2 and 0.8; 2 and 3 stay.
pub fn four_states(alloc: Global) -> Result<Game, Fail>
    ensures { IfOk result (λ game. length game ≡ 4) }
{
    game_of(
        alloc,
        &[
            &[&[(1, 1)], &[(2, 13), (3, 7)]],
            &[&[(2, 1), (3, 1)], &[(2, 1), (3, 4)]],
            &[&[(2, 1)]],
            &[&[(3, 1)]],
        ],
    )
}

/// State 0 goes to 1 or to 2; 1 and 2 stay.
pub fn goal_or_sink(alloc: Global) -> Result<Game, Fail>
    ensures { IfOk result (λ game. length game ≡ 3) }
{
    game_of(
        alloc,
        &[&[&[(1, 1)], &[(2, 1)]], &[&[(1, 1)]], &[&[(2, 1)]]],
    )
}

/// In a chain, each state goes to the next one, and the last one stays.
pub fn chain(alloc: Global, count: u32) -> Result<Game, Fail>
    ensures { IfOk result (λ game. length game ≡ count) }
{
    let mut draft = Draft::new(alloc, count);
    for state in 0..count {
        let next = (state + 1).min(count - 1);
        draft.one(alloc, &[(next, 1)]).ok_or("no state")?;
    }
    draft.game_with(alloc, count as usize)
}

/// There is one state, which stays where it is.
pub fn one_state(alloc: Global) -> Result<Game, Fail>
    ensures { IfOk result (λ game. length game ≡ 1) }
{
    game_of(alloc, &[&[&[(0, 1)]]])
}

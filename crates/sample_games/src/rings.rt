//! These are games with traps.

ghost use Rattle.std.specs.Prelude.{◌≡◌, length, IfOk};

use crate::draft::game_of;
use game_model::Game;
use std::alloc::Global;
use std::test::Fail;

/// State 0 goes to 1, or to 3 and 4 with 1/2 each; state 1 goes to 0 or to 3; state 2 stays with 1/2 and goes to 3 and
/// 4 with 1/4 each; 3 and 4 stay.
pub fn ring_of_two(alloc: Global) -> Result<Game, Fail>
    ensures { IfOk result (λ game. length game ≡ 5) }
{
    game_of(
        alloc,
        &[
            &[&[(1, 1)], &[(3, 1), (4, 1)]],
            &[&[(0, 1)], &[(3, 1)]],
            &[&[(2, 2), (3, 1), (4, 1)]],
            &[&[(3, 1)]],
            &[&[(4, 1)]],
        ],
    )
}

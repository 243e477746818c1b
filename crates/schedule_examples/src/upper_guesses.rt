//! These guesses are computed by hand.

ghost use Rattle.std.specs.Prelude.{◌≡◌};
ghost use Rattle.game_model.specs.Query.{states};

use game_model::{Question, Side, UNIT};
use sample_games::expectations::same;
use sample_games::{coin_loop, question_of};
use std::alloc::Global;
use std::test::Fail;
use upper_guess::guess;
use zero_sets::zero_set;

/// Each row has a value of state 0 of the coin loop, whose goal is state 1, and the guess over it.
const GUESSES: &[(u64, u64)] = &[
    // The guess stays at one half, or an up step raises it to one half.
    (500_000_000_000_000, 500_000_000_000_000),
    (499_999_999_999_999, 500_000_000_000_000),
    // An up step leaves half of what is missing, so four up steps are too few, and the guess takes an excess.
    (499_999_999_999_900, 500_000_000_000_028),
    // The excess is the first power of 2 that reaches one half.
    (400_000_000_000_000, 540_737_488_355_328),
    (0, 562_949_953_421_312),
];

fn are_guessed(alloc: Global, question: &Question<'_>) -> Result<(), Fail>
    requires { states question.now ≡ 3 }
{
    let zero = zero_set(alloc, question)?;
    for (value, wanted) in GUESSES {
        let lower = [(*value).min(UNIT), UNIT, 0];
        let found = guess(alloc, &*question, &zero, &lower)?;
        same(*value, found.as_slice(), [*wanted, UNIT, 0].as_slice())?;
    }
    Ok(())
}

#[test]
fn the_coin_loop_is_guessed(rt: HostRuntime) -> Result<(), Fail> {
    let alloc = rt.alloc();
    let game = coin_loop(alloc)?;
    are_guessed(alloc, &question_of(alloc, &game, Side::Max, 1)?)
}

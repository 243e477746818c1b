//! Files of rewards are read, and rewards are rounded to units.

use game_model::Game;
use reward_units::{units_above, units_below};
use rewards_reader::{RewardTable, RewardsCause, RewardsEnd, RewardsFault, read_rewards};
use sample_games::expectations::same;
use sample_games::four_states;
use std::alloc::Global;
use std::test::Fail;
use text_lines::MOST_BYTES;

// Each state, or choice of it, is given with its numerator and denominator. The last one is in no line.
const PAID: [(u32, Option<u32>, (u128, u128)); 4] = [
    (1, Some(0), (1, 3)),
    (0, None, (1_000_000_000_000_000, 1)),
    (0, Some(0), (5, 2)),
    (3, None, (0, 1)),
];

// A reward over a denominator is at so many places so many units below, and above.
const UNITS: [(u128, u128, u32, (u64, u64)); 2] = [
    (1, 2, 0, (0, 1)),
    (11, 3, 14, (366_666_666_666_666, 366_666_666_666_667)),
];

// Reads the rewards of a game from a text.
fn read(alloc: Global, game: &Game, text: &[u8]) -> Result<Result<RewardTable, RewardsEnd>, Fail> {
    if text.len() > MOST_BYTES {
        return Err(Fail::new("too long"));
    }
    Ok(read_rewards(alloc, text, game))
}

// Returns the reward of a state, or of a choice of it, if the game has it.
fn paid(
    game: &Game,
    rewards: &RewardTable,
    state: u32,
    choice: Option<u32>,
) -> Option<(u128, u128)> {
    if state >= game.states() {
        return None;
    }
    let amount = match choice {
        None => rewards.of_state(game, state),
        Some(choice) => {
            if choice >= game.choices_of(state) {
                return None;
            }
            rewards.of_choice(game, state, choice)
        }
    };
    Some((amount.num(), amount.den()))
}

#[test]
fn rewards_are_read(rt: HostRuntime) -> Result<(), Fail> {
    let game = four_states(rt.alloc())?;
    let text = b"rewards 4 3\n1 0 1/3\n0 1e15\n0 0 2.50\n\n";
    let Ok(rewards) = read(rt.alloc(), &game, text)? else {
        return Err(Fail::new("refused"));
    };
    for (state, choice, wanted) in PAID {
        same(state, paid(&game, &rewards, state, choice), Some(wanted))?;
    }
    Ok(())
}

#[test]
fn a_second_line_for_a_choice_is_refused(rt: HostRuntime) -> Result<(), Fail> {
    let game = four_states(rt.alloc())?;
    let text = b"rewards 4 2\n1 0 1/3\n1 0 2\n";
    let double = RewardsFault {
        line: 3,
        cause: RewardsCause::DoubleLine,
    };
    let end = read(rt.alloc(), &game, text)?.err();
    same("fault", end, Some(RewardsEnd::Refused(double)))
}

#[test]
fn rewards_are_rounded_to_units() -> Result<(), Fail> {
    for (num, den, places, wanted) in UNITS {
        let units = (units_below(num, den, places), units_above(num, den, places));
        same(places, units, wanted)?;
    }
    Ok(())
}

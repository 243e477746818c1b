//! This module has the games, and the ways in which the coin loop goes.

ghost use Rattle.std.specs.Prelude.{◌≡◌, ℕ, ◌*◌, ◌^◌, []};
ghost use Rattle.game_model.specs.Query.{IsQuery};
ghost use Rattle.game_model.specs.Values.{denominator};
ghost use Rattle.strategies.specs.Strategies.{reach, avoid};
ghost use Rattle.strategies.specs.Plays.{plays, ways_won, ways_lost};
ghost use Rattle.strategies.specs.Next.{ways_next, AreBestNext};
ghost use Rattle.strategies.specs.Stopping.{undecided, ending, IsStopping};
ghost use Rattle.strategies.specs.worked_games.Games.{coin_loop, give_and_take, lingering};
ghost use Rattle.strategies.specs.worked_games.Players.{first_choice};
ghost use Rattle.strategies.specs.worked_games.Counted.{three_turns, only, coin_lost};

/// Each of the games is a question.
#[tactic(auto, using(crate::proofs::Posed::is_coin, crate::proofs::Posed::is_give, crate::proofs::Posed::is_lingering))]
pub fn games_are_questions()
    ensures coin_loop { IsQuery coin_loop }
    ensures give_and_take { IsQuery give_and_take }
    ensures lingering { IsQuery lingering }
{}

/// Three turns of the coin loop go in 64 ways, of which 28 are won: 7/16, as `reach` says. The other 36 are lost, as
/// `avoid` says.
#[tactic(auto, unfolding(crate::specs::Strategies::reach, crate::specs::Plays::plays))]
pub fn three_turns_are_counted()
    ensures all { plays coin_loop 1 first_choice first_choice 3 [] 0 ≡ three_turns }
    ensures of { (1 * denominator coin_loop.game) ^ 3 ≡ 64 }
    ensures won { ways_won coin_loop three_turns ≡ 28 }
    ensures reached { reach coin_loop 1 first_choice first_choice 3 [] 0 ≡ 28 }
    ensures lost { ways_lost coin_loop three_turns ≡ 36 }
    ensures avoided { avoid coin_loop 1 first_choice first_choice 3 0 ≡ 36 }
{}

/// One turn of the coin loop goes in 4 ways, of which 2 stay at state 0 and 1 comes to state 1. Both sides can be sure
/// of that 1.
#[tactic(auto, unfolding(crate::specs::Plays::plays))]
pub fn the_next_state_is_counted()
    ensures stays { ways_next coin_loop (only 0) 1 first_choice first_choice 0 ≡ 2 }
    ensures won { ways_next coin_loop (only 1) 1 first_choice first_choice 0 ≡ 1 }
    ensures sure { (parts : ℕ → ℕ) → AreBestNext coin_loop (only 1) parts → parts 0 ≡ 1 }
{}

/// Each turn of the coin loop ends the play with the probability 1/2. So 8 of the 64 ways of three turns are undecided,
/// and 56 are over.
#[tactic(auto, unfolding(crate::specs::Strategies::reach, crate::specs::Stopping::undecided))]
pub fn the_coin_loop_stops()
    ensures undecided { undecided coin_loop coin_lost 3 0 ≡ 8 }
    ensures over { reach (ending coin_loop coin_lost) 1 first_choice first_choice 3 [] 0 ≡ 56 }
    ensures stops { IsStopping coin_loop coin_lost 1 }
{}

//! This module has what strategies with memory and with dice reach in the game of give and take.

ghost use Rattle.std.specs.Prelude.{◌≡◌, ℕ, ◌*◌, ◌^◌, ◌≤◌, []};
ghost use Rattle.game_model.specs.declared.game.Side.{Side};
ghost use Rattle.game_model.specs.declared.game.Side.TheVariants.{Max, Min};
ghost use Rattle.game_model.specs.Query.{Query, IsQuery};
ghost use Rattle.game_model.specs.Values.{numerator};
ghost use Rattle.strategies.specs.Plays.{plays, ways_won};
ghost use Rattle.strategies.specs.Strategies.{IsStrategyOf, reach, avoid};
ghost use Rattle.strategies.specs.worked_games.Counted.{three_answered, one_throw};
ghost use Rattle.strategies.specs.worked_games.Games.{give_and_take};
ghost use Rattle.strategies.specs.worked_games.Players.{first_choice, harsh, alternating, answering, tossing};

/// Each of these strategies takes a choice that exists, whatever has been played: the first strategy in every game, the
/// others in the game of give and take.
pub fn players_have_strategies()
    ensures first_choice { (q : Query) (side : Side) → IsQuery q → IsStrategyOf q side first_choice }
    ensures alternating { IsStrategyOf give_and_take Max alternating }
    ensures tossing { IsStrategyOf give_and_take Max tossing }
    ensures harsh { IsStrategyOf give_and_take Min harsh }
    ensures answering { IsStrategyOf give_and_take Min answering }
{}

/// The maximiser is careful, then bold, and so on; the minimiser answers a careful choice harshly and a bold choice
/// mildly. Three turns go in 4 * 4 * 4 = 64 ways. Half of them are lost at the second turn, where the state is dead,
/// though the third turn comes to a goal. The third turn wins half of the others: 1/4, 16 ways, and 48 avoid the goal.
/// The fourth turn leads back, so the next three win a quarter of the last quarter: 5/16, 5120 of 16384, within seven
/// turns.
#[tactic(auto, unfolding(crate::specs::Strategies::reach, crate::specs::Plays::plays))]
pub fn memory_is_counted()
    ensures all { plays give_and_take 1 alternating answering 3 [] 0 ≡ three_answered }
    ensures won { ways_won give_and_take three_answered ≡ 16 }
    ensures three { reach give_and_take 1 alternating answering 3 [] 0 ≡ 16 }
    ensures avoided { avoid give_and_take 1 alternating answering 3 0 ≡ 48 }
    ensures seven { reach give_and_take 1 alternating answering 7 [] 0 ≡ 5120 }
{}

/// The die has two faces, and the minimiser is harsh: three turns go in 8 * 8 * 8 = 512 ways. Being bold wins at the
/// first turn or, by half of half, at the third: 1/2 + 1/4 * 1/2 = 5/8, 320 ways, which is the value within three
/// turns, 40/64. Being careful first wins only at the third turn: 1/2 * 1/2 = 1/4, 128 ways. If the die decides between
/// them, the average of both is won: 7/16, 224 ways.
#[tactic(auto, unfolding(crate::specs::Strategies::reach, crate::specs::Plays::plays))]
pub fn dice_are_counted()
    ensures turn { plays give_and_take 2 tossing harsh 1 [] 0 ≡ one_throw }
    ensures best { numerator give_and_take 3 0 ≡ 40 }
    ensures bold { reach give_and_take 2 first_choice harsh 3 [] 0 ≡ 320 }
    ensures careful { reach give_and_take 2 alternating harsh 3 [] 0 ≡ 128 }
    ensures tossing { reach give_and_take 2 tossing harsh 3 [] 0 ≡ 224 }
{}

/// Memory and dice do not help in the game of give and take, where the value is 2/3. A maximiser that throws a die of
/// two faces at the first turn, and is bold after that, wins at most half of the plays within any number of turns,
/// 1/2 * 2/3 + 1/2 * 1/3.
pub fn memory_and_dice_reach_less()
    ensures { (k : ℕ) → 2 * reach give_and_take 2 tossing harsh k [] 0 ≤ 8 ^ k }
{}

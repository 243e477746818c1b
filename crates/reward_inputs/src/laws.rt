//! This module has the law of the questions that texts and words ask. The function does nothing: its contract is the
//! law.

ghost use Rattle.std.specs.Prelude.{◌≡◌, ◌↔◌};
ghost use Rattle.command_words.specs.Words.{Asked};
ghost use Rattle.reward_inputs.specs.Asks.{AsksRewards};
ghost use Rattle.reward_inputs.specs.Posed.{RewardQuestion, reward_question_said};
ghost use Rattle.reward_inputs.specs.Said.{Denoted};
ghost use Rattle.reward_inputs.specs.Sources.{RewardSources};

/// The question that texts and words pose, read one after another with the first refusal, is the one that they ask.
/// They ask a question if the texts denote a game, labels, owners and rewards, and the words spell a formula of rewards
/// that poses it. So if no question is asked, what is said is the first refusal, or that a text is not held.
pub fn reward_questions_are_what_is_asked()
    ensures { (sources : RewardSources) (asked : Asked) (question : RewardQuestion)
        → (reward_question_said sources asked ≡ Denoted question) ↔ AsksRewards sources asked question }
{}

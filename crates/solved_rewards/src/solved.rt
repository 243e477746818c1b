//! This module has the certificate that is made.

ghost use Rattle.std.specs.Prelude.{◌≡◌, ℕ, ◌<◌, false};
ghost use Rattle.game_model.specs.Query.{states, is_dead};

use game_model::Question;
use reward_check::RewardTables;

/// These are the lists of a certificate of rewards. Values and rewards are whole numbers of one unit. If a value of a
/// state is no number, its entry is 0.
#[derive(Drop)]
pub struct SolvedRewards {
    /// A unit is 10^-places of reward.
    pub places: u32,
    /// Each choice has this reward, rounded down, state by state.
    pub low: Vec<u64>,
    /// Each choice has this reward, rounded up, state by state.
    pub high: Vec<u64>,
    /// This says whether the lower value of a state is a number. If not, it is infinite.
    pub finite: Vec<bool>,
    /// This says whether the upper value of a state is a number. If not, none is claimed.
    pub bounded: Vec<bool>,
    /// These are the lower values.
    pub lower: Vec<u64>,
    /// These are the upper values.
    pub upper: Vec<u64>,
    /// The maximiser plays these choices for the lower values.
    pub choices: Vec<Option<u32>>,
    /// The minimiser plays these replies for the upper values.
    pub replies: Vec<Option<u32>>,
    /// Each state has a rank.
    pub ranks: Vec<u32>,
}

impl SolvedRewards {
    ghost use Rattle.reward_check.specs.Certificates.{said};
    ghost use Rattle.solved_rewards.specs.Solved.{certificate_of, HasStates};

    /// Returns the lists as tables of a question, as a check takes them.
    pub fn tables<'a>(&'a self, question: &'a Question<'a>) -> RewardTables<'a>
        requires alive { (s : ℕ) → s < states question.now → is_dead question.now s ≡ false }
        requires lists { HasStates (states question.now) self.now }
        ensures { said result ≡ certificate_of question.now self.now }
    {
        question.invariant();
        RewardTables {
            question,
            low: &self.low,
            high: &self.high,
            finite: &self.finite,
            bounded: &self.bounded,
            lower: &self.lower,
            upper: &self.upper,
            choices: &self.choices,
            replies: &self.replies,
            ranks: &self.ranks,
        }
    }
}

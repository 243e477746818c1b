//! A word is a value and a choice in one number.

ghost use Rattle.std.specs.Prelude.{◌≡◌, ◌+◌, ◌*◌, ◌<◌, ◌≤◌};
ghost use Rattle.game_model.specs.Limits.{unit};
ghost use Rattle.step_core.specs.Word.{choice_space, packed, value_in, choice_in};

/// A word can name this many choices: a word is its value times this number, plus its choice.
pub const CHOICE_SPACE: u64 = 16_384;

/// Makes the word of a value, in units, and a choice.
pub fn pack(value: u64, choice: u32) -> u64
    requires value { value ≤ unit }
    requires choice { choice < choice_space }
    ensures word { result ≡ packed value choice }
    ensures value { value_in result ≡ value }
    ensures choice { choice_in result ≡ choice }
{
    value * CHOICE_SPACE + u64::from(choice)
}

/// Returns the value of a word, in units.
pub fn value_of(word: u64) -> u64
    ensures { result ≡ value_in word }
{
    word / CHOICE_SPACE
}

/// Returns the choice of a word.
pub fn choice_of(word: u64) -> u32
    ensures { result ≡ choice_in word }
{
    (word % CHOICE_SPACE) as u32
}

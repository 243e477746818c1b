//! This module makes the words that a race begins with.

ghost use Rattle.std.specs.Prelude.{◌≡◌, ◌<◌, IfOk};
ghost use Rattle.game_model.specs.Query.{is_goal, states};
ghost use Rattle.step_core.specs.Word.{opening_words, opening_word};

use crate::word::pack;
use game_model::{Question, UNIT};
use game_outside::OutOfMemory;
use std::alloc::Global;

/// Makes the words of the opening table: goals have the unit and other states 0, each with choice 0.
pub fn opening_words(alloc: Global, question: &Question<'_>) -> Result<Vec<u64>, OutOfMemory>
    ensures { IfOk result (λ words. words.items ≡ opening_words question.now) }
{
    question.invariant();
    let mut words = Vec::new(alloc);
    for state in 0..question.game().states() {
        let Ok(()) = words.push(opening_word(question, state)) else {
            return Err(OutOfMemory {});
        };
    }
    Ok(words)
}

// Makes the word of a state in the opening table.
fn opening_word(question: &Question<'_>, state: u32) -> u64
    requires { state < states question.now }
    ensures { result ≡ opening_word (is_goal question.now state) }
{
    if question.is_goal(state) {
        pack(UNIT, 0)
    } else {
        0
    }
}

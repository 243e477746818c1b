//! This module makes the lower side of a bracket: the lower table, the maximiser's choices, and the ranks.

ghost use Rattle.std.specs.Prelude.{◌≡◌, IfOk};
ghost use Rattle.game_model.specs.Dual.{IsZeroSet};
ghost use Rattle.step_core.specs.Word.{values_of};
ghost use Rattle.step_core.specs.Sound.{AreSoundWords};
ghost use Rattle.bracket_engine.specs.inside.Sides.{IsLowerSide};

use crate::base::Base;
use crate::tables::choices_of_words;
use game_outside::OutOfMemory;
use lower_guess::{LowerGuess, lower_guess_over};
use rank_certificate::laws::ranks_reach;
use std::alloc::Global;
use value_words::Words;

/// Makes the lower guess of the base, which has the values of these words, and the maximiser's choices and ranks that
/// prove it. If no guess is accepted, the choices are those of the words. The words are dropped after these are read.
pub fn lower_side(alloc: Global, base: &Base<'_>, words: Words) -> Result<LowerGuess, OutOfMemory>
    requires zero { IsZeroSet base.now.question.now base.now.zero.now }
    requires sound { AreSoundWords base.now.question.now words }
    requires base { base.now.values.now ≡ values_of words }
    ensures { IfOk result (IsLowerSide base.now.question.now base.now.zero.now base.now.values.now) }
{
    let question = base.question;
    let choices = choices_of_words(alloc, question, words.as_slice())?;
    drop(words);
    let guess = lower_guess_over(
        alloc,
        question,
        base.zero,
        base.values,
        &choices,
        base.predecessors,
    )?;
    ranks_reach(
        question,
        &guess.values,
        &guess.plan.choices,
        &guess.plan.ranks,
    );
    Ok(guess)
}

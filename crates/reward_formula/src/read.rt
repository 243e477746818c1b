//! This module reads formulas.

ghost use Rattle.std.specs.Prelude.{◌≡◌, option_map};
ghost use Rattle.game_outside.specs.Answers.{AnswersOrWants};
ghost use Rattle.formula_tokens.specs.Fault.{IsOutOfMemory};
ghost use Rattle.formula_tokens.specs.Cursor.{token_of};
ghost use Rattle.formula_reader.specs.Formula.{names_of};
ghost use Rattle.reward_formula.specs.Formula.{any_of, reward_tree_of};
ghost use Rattle.reward_formula.specs.Grammar.{any_said, begins_reward, formula_from};

use crate::bounds::read_reward;
use crate::formula::{AnyFormula, RewardFormula};
use crate::goals::read_goal;
use formula_reader::{Names, read_coalition, read_formula};
use formula_tokens::{Cursor, FormulaCause, FormulaFault, LONGEST, Token, next_token};
use std::alloc::Global;

/// Reads the formula of rewards or of probability that a text spells, or the first fault of the text. What is said of a
/// text is what it denotes: `laws::formulas_are_those_that_a_text_denotes`.
#[tactic(auto, unfolding(crate::specs::Grammar::any_said))]
pub fn read_any_formula(alloc: Global, text: &str) -> Result<AnyFormula, FormulaFault>
    ensures { AnswersOrWants IsOutOfMemory any_of result (any_said text.now) }
{
    let bytes = text.as_bytes();
    if bytes.len() > LONGEST {
        return Err(FormulaFault::new(LONGEST as u32, FormulaCause::TooLong));
    }
    let start = Cursor {
        place: 0,
        rest: bytes,
    };
    let (coalition, rest) = read_coalition(alloc, start)?;
    let token = next_token(rest)?;
    if begins_reward(&token) {
        let formula = read_reward_formula(alloc, coalition, token)?;
        Ok(AnyFormula::OfReward(formula))
    } else {
        let formula = read_formula(alloc, text)?;
        Ok(AnyFormula::OfProbability(formula))
    }
}

fn begins_reward(token: &Token<'_>) -> bool
    ensures { result ≡ begins_reward (token_of token.now) }
{
    token.is("R") || token.is("Rmax") || token.is("Rmin")
}

// Reads a formula of rewards from this token on, which comes behind the coalition.
fn read_reward_formula(
    alloc: Global,
    coalition: Option<Names>,
    token: Token<'_>,
) -> Result<RewardFormula, FormulaFault>
    ensures { AnswersOrWants IsOutOfMemory reward_tree_of result
        (formula_from (option_map names_of coalition) (token_of token.entry)) }
{
    match read_reward(alloc, token) {
        Ok((name, bound, rest)) => {
            let goal = read_goal(alloc, rest)?;
            Ok(RewardFormula {
                coalition,
                name,
                bound,
                goal,
            })
        }
        Err(fault) => Err(fault),
    }
}

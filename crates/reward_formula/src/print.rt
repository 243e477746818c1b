//! This module prints the one spelling of a formula.

ghost use Rattle.std.specs.Prelude.{◌≡◌, ◌≤◌, ◌++◌, length, Ok, OnOk, IfOk};
ghost use Rattle.formula_tokens.specs.Limits.{longest};
ghost use Rattle.rpatl_syntax.specs.Spelling.{fraction_spelling};
ghost use Rattle.reward_formula.specs.Formula.{any_of, reward_tree_of};
ghost use Rattle.reward_formula.specs.Grammar.{any_said};
ghost use Rattle.reward_formula.specs.Spellable.{IsAnySpellable};
ghost use Rattle.reward_formula.specs.Spelling.{name_spelling, asks_spelling, reward_spelling, any_spelling};

use crate::formula::{AnyFormula, RewardBound, RewardFormula};
use game_outside::{Name, OutOfMemory};
use rewards_reader::Amount;
use rpatl_syntax::{print_formula, put, put_bytes, put_coalition, put_fraction, put_state};
use std::alloc::Global;

/// Prints the spelling of a formula, which depends only on its tree.
pub fn print_any_formula(alloc: Global, formula: &AnyFormula) -> Result<Vec<u8>, OutOfMemory>
    ensures spelled { IfOk result (λ text. text.items ≡ any_spelling (any_of formula.now)) }
    // A formula that the grammar can spell is read again from what is printed, unless that is too long.
    ensures again { IfOk result (λ text. IsAnySpellable (any_of formula.now) → length text.items ≤ longest
        → any_said text.items ≡ Ok (any_of formula.now)) }
{
    spell(alloc, formula)
}

fn spell(alloc: Global, formula: &AnyFormula) -> Result<Vec<u8>, OutOfMemory>
    ensures { IfOk result (λ text. text.items ≡ any_spelling (any_of formula.now)) }
{
    match formula {
        AnyFormula::OfProbability(formula) => print_formula(alloc, formula),
        AnyFormula::OfReward(formula) => spell_reward(alloc, formula),
    }
}

fn spell_reward(alloc: Global, formula: &RewardFormula) -> Result<Vec<u8>, OutOfMemory>
    ensures { IfOk result (λ text. text.items ≡ reward_spelling (reward_tree_of formula.now)) }
{
    let mut out = Vec::new(alloc);
    put_coalition(&mut out, &formula.coalition)?;
    put(&mut out, "R")?;
    put_name(&mut out, &formula.name)?;
    put_bound(&mut out, &formula.bound)?;
    put(&mut out, " [ F ")?;
    put_state(&mut out, &formula.goal)?;
    put(&mut out, " ]")?;
    Ok(out)
}

fn put_name(out: &mut Vec<u8>, name: &Option<Name>) -> Result<(), OutOfMemory>
    ensures { OnOk result (out.new.items ≡ out.old.items ++ name_spelling name.now) }
{
    match name {
        None => Ok(()),
        Some(name) => {
            put(out, "{\"")?;
            put_bytes(out, name.as_bytes())?;
            put(out, "\"}")
        }
    }
}

fn put_bound(out: &mut Vec<u8>, bound: &RewardBound) -> Result<(), OutOfMemory>
    ensures { OnOk result (out.new.items ≡ out.old.items ++ asks_spelling bound.now) }
{
    match bound {
        RewardBound::AtLeast(threshold) => put_threshold(out, ">=", threshold),
        RewardBound::Above(threshold) => put_threshold(out, ">", threshold),
        RewardBound::AtMost(threshold) => put_threshold(out, "<=", threshold),
        RewardBound::Below(threshold) => put_threshold(out, "<", threshold),
        RewardBound::AskMax => put(out, "max=?"),
        RewardBound::AskMin => put(out, "min=?"),
    }
}

fn put_threshold(out: &mut Vec<u8>, sign: &str, threshold: &Amount) -> Result<(), OutOfMemory>
    ensures { OnOk result (out.new.items ≡ out.old.items ++ (sign.now ++ fraction_spelling threshold.now)) }
{
    put(out, sign)?;
    put_fraction(out, threshold.num(), threshold.den())
}

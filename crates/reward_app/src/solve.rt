//! This module answers `solve` on rewards with values that a solver finds, if they pass the checks of an audit.

ghost use Rattle.std.specs.Prelude.{◌≡◌, ◌++◌, ◌≤◌, All, OnOk, length};
ghost use Rattle.plan_text.specs.Entries.{greatest_rank};
ghost use Rattle.plan_text.specs.Fixed.{unit_digits};
ghost use Rattle.reward_formula.specs.Formula.{OfReward, any_of, RewardTree};
ghost use Rattle.reward_text.specs.Entries.{HasRewardStates};
ghost use Rattle.reward_words.specs.Words.{OfSolveReward, solve_reward_of};
ghost use Rattle.reward_app.specs.Reports.{certificate_part};
ghost use Rattle.reward_app.specs.inside.Answers.{IsRewardMade};
ghost use Rattle.reward_app.specs.inside.Certified.{as_audited};

use crate::report::report_on;
use game_outside::OutOfMemory;
use output::Answer;
use plan_text::append;
use reward_audit::AuditedRewards;
use reward_formula::{AnyFormula, print_any_formula};
use reward_inputs::{LoadedRewards, RewardEnd, pose_rewards};
use reward_questions::solve_reward_question;
use reward_reports::laws::accepted_bounds_are_in_order;
use reward_text::{RewardPlan, append_reward_plan};
use reward_words::SolveRewardWords;
use solved_rewards::SolvedRewards;
use std::alloc::Global;
use verdicts::How;

/// Answers `solve` with its report on what was loaded, or says why there is none.
pub fn solve_loaded(
    alloc: Global,
    loaded: &LoadedRewards,
    solve: &SolveRewardWords<'_>,
) -> Result<Answer, RewardEnd>
    ensures { IsRewardMade (OfSolveReward (solve_reward_of solve.now)) (solve_reward_of solve.now).asked
        (solve_reward_of solve.now).rewards loaded.now result }
{
    let problem = pose_rewards(alloc, loaded)?;
    let rewards = &loaded.rewards;
    let formula = problem.formula;
    let solved = solve_reward_question(alloc, &problem.question, rewards)?;
    // These calls do nothing: they recall how great a rank may be, and a law.
    known_ranks(&solved);
    accepted_bounds_are_in_order();
    let made = certified(solved);
    let mut answer = report_on(
        alloc,
        &problem.question,
        rewards,
        &problem.initial,
        &formula.bound,
        How::Solved,
        &made,
    )?;
    append_certificate(
        alloc,
        &mut answer.text,
        solve.plan,
        &loaded.formula,
        &made.plan,
    )?;
    Ok(answer)
}

// The type of ranks keeps them within their limit.
fn known_ranks(solved: &SolvedRewards)
    ensures { All (λ r. r ≤ greatest_rank) solved.now.ranks.items }
{
    known_list(&solved.ranks);
}

fn known_list(ranks: &[u32])
    ensures { All (λ r. r ≤ greatest_rank) ranks.now }
{}

// Returns what a solver found as a certificate that can be written.
fn certified(solved: SolvedRewards) -> AuditedRewards
    ensures { result ≡ as_audited solved }
{
    AuditedRewards {
        plan: RewardPlan {
            places: solved.places,
            finite: solved.finite,
            lower: solved.lower,
            choices: solved.choices,
            ranks: solved.ranks,
            bounded: solved.bounded,
            upper: solved.upper,
            replies: solved.replies,
        },
        low: solved.low,
        high: solved.high,
    }
}

// Appends the text of a certificate behind the line of its formula, if it is asked for.
fn append_certificate(
    alloc: Global,
    text: &mut Vec<u8>,
    asked: bool,
    formula: &AnyFormula,
    plan: &RewardPlan,
) -> Result<(), OutOfMemory>
    requires lists { HasRewardStates plan.now (length plan.now.lower.items) }
    requires places { plan.now.places ≤ unit_digits }
    ensures { (f : RewardTree) → any_of formula.now ≡ OfReward f
        → OnOk result (text.new.items ≡ text.old.items ++ certificate_part asked f plan.now) }
{
    if !asked {
        return Ok(());
    }
    append(text, b"formula ")?;
    append(text, &print_any_formula(alloc, formula)?)?;
    append(text, b"\n")?;
    append_reward_plan(text, plan)
}

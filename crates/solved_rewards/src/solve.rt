//! This module makes the certificate.

ghost use Rattle.std.specs.Prelude.{◌≡◌, ℕ, ◌<◌, [], false, IfOk, IfSome, IfNone};
ghost use Rattle.game_model.specs.Query.{states, is_dead};
ghost use Rattle.predecessors.specs.Lists.{ArePredecessors};
ghost use Rattle.reward_check.specs.Parts.{IsAccepted};
ghost use Rattle.solved_rewards.specs.Away.{IsAwayPlan};
ghost use Rattle.solved_rewards.specs.Solved.{certificate_of, HasStates, HasGiven, HasValuesOf, HasNoMore};
ghost use Rattle.solved_rewards.specs.inside.Merged.{ProvesAway, AreMerged, IsRefused, AreFilled, merged};

use crate::away::AwayPlan;
use crate::bounded::bounded_states;
use crate::ends::end_ranks;
use crate::lists::list_of;
use crate::merge::{MergedLists, merge};
use crate::solved::SolvedRewards;
use crate::sources::Sources;
use game_model::Question;
use game_outside::OutOfMemory;
use predecessors::Predecessors;
use reward_check::{RewardTables, check_rewards};
use reward_solver::RewardCandidates;
use std::alloc::Global;

/// Makes a certificate of a question of rewards in which no state is dead, over the predecessors in its game, from what
/// proves which states are not finite and from the candidates of a solver. The certificate passes the check of an
/// audit, whatever the candidates are. Its lower value is infinite exactly at the states that are not finite.
///
/// At the other states the lower values are the candidate's, or all are 0 if its choices do not pay these. Upper values
/// are the candidate's at the states that can have one, or 0 at the goals alone if these are refused; the contract does
/// not say which states can. A state that needs no choice or reply has none. The only error is that memory ran out.
pub fn solve_rewards(
    alloc: Global,
    question: &Question,
    predecessors: &Predecessors,
    away: AwayPlan<'_>,
    candidates: RewardCandidates,
) -> Result<SolvedRewards, OutOfMemory>
    requires lists { ArePredecessors question.now.game predecessors.now }
    requires alive { (s : ℕ) → s < states question.now → is_dead question.now s ≡ false }
    requires away { IsAwayPlan question.now away }
    ensures accepted { IfOk result (λ solved. IsAccepted (certificate_of question.now solved)) }
    ensures given { IfOk result (HasGiven away.entry candidates) }
    ensures lists { IfOk result (HasStates (states question.now)) }
    ensures values { IfOk result (HasValuesOf question.now candidates) }
    ensures plans { IfOk result (HasNoMore question.now) }
{
    question.invariant();
    let finite = list_of(alloc, question, away.finite)?;
    let found = bounded_states(
        alloc,
        question,
        predecessors,
        &finite,
        &candidates.upper,
        &candidates.replies,
    )?;
    let ranks = end_ranks(alloc, question, predecessors, &found, &candidates.replies)?;
    let lists = first_accepted(
        alloc,
        &Sources {
            question,
            finite: &finite,
            away_choices: away.choices,
            away_ranks: away.ranks,
            candidates: &candidates,
            end_ranks: &ranks,
        },
        &found,
    )?;
    Ok(SolvedRewards {
        places: candidates.places,
        low: candidates.low,
        high: candidates.high,
        finite,
        bounded: lists.bounded,
        lower: lists.lower,
        upper: lists.upper,
        choices: lists.choices,
        replies: lists.replies,
        ranks: lists.ranks,
    })
}

/// Returns the first lists that the check accepts: with both candidates, without upper values, without lower ones, or
/// without both.
fn first_accepted(
    alloc: Global,
    sources: &Sources<'_>,
    found: &[bool],
) -> Result<MergedLists, OutOfMemory>
    requires { ProvesAway sources.now }
    ensures accepted { IfOk result (λ lists. IsAccepted (merged sources.now lists)) }
    ensures filled { IfOk result (AreFilled sources.now) }
{
    let lower = &sources.candidates.lower;
    if let Some(lists) = accepted(alloc, sources, found, lower)? {
        return Ok(lists);
    }
    if let Some(lists) = accepted(alloc, sources, &[], lower)? {
        return Ok(lists);
    }
    if let Some(lists) = accepted(alloc, sources, found, &[])? {
        return Ok(lists);
    }
    weakest(alloc, sources)
}

/// Merges sources, and returns the lists if the check accepts them.
fn accepted(
    alloc: Global,
    sources: &Sources<'_>,
    found: &[bool],
    lower: &[u64],
) -> Result<Option<MergedLists>, OutOfMemory>
    ensures accepted { IfOk result (λ some. IfSome some (λ lists. IsAccepted (merged sources.now lists))) }
    ensures merged { IfOk result (λ some. IfSome some (AreMerged sources.now found.now lower.now)) }
    ensures refused { IfOk result (λ some. IfNone some (IsRefused sources.now found.now lower.now)) }
{
    let lists = merge(alloc, sources, found, lower)?;
    let tables = RewardTables {
        question: sources.question,
        low: &sources.candidates.low,
        high: &sources.candidates.high,
        finite: sources.finite,
        bounded: &lists.bounded,
        lower: &lists.lower,
        upper: &lists.upper,
        choices: &lists.choices,
        replies: &lists.replies,
        ranks: &lists.ranks,
    };
    if check_rewards(&tables).is_ok() {
        return Ok(Some(lists));
    }
    Ok(None)
}

/// Merges sources without states that were found and without a candidate. The check accepts what the graph alone gives.
fn weakest(alloc: Global, sources: &Sources<'_>) -> Result<MergedLists, OutOfMemory>
    requires { ProvesAway sources.now }
    ensures accepted { IfOk result (λ lists. IsAccepted (merged sources.now lists)) }
    ensures merged { IfOk result (AreMerged sources.now [] []) }
{
    merge(alloc, sources, &[], &[])
}

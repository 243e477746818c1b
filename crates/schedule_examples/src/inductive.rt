//! This is a worked upper table, with its check, its replies and their check, and the question of the other side.

ghost use Rattle.std.specs.Prelude.{◌≡◌};
ghost use Rattle.game_model.specs.Query.{states};

use game_model::{Question, Side, UNIT};
use inductive_check::{UpperCause, UpperFault, check_replies, check_upper, replies, swap};
use sample_games::expectations::same;
use sample_games::{goal_or_sink, question_of};
use std::alloc::Global;
use std::test::Fail;
use zero_sets::zero_set;

const ONE: u64 = UNIT;

fn fault(state: u32, cause: UpperCause) -> UpperFault {
    UpperFault { state, cause }
}

/// The check says this of a table.
fn check_table(
    question: &Question<'_>,
    table: &[u64; 3],
    wanted: Result<(), UpperFault>,
) -> Result<(), Fail>
    requires { states question.now ≡ 3 }
{
    let found = check_upper(question, table);
    same(format_args!("{table:?}"), found, wanted)
}

#[test]
fn the_minimiser_replies_with_the_sink(rt: HostRuntime) -> Result<(), Fail> {
    let alloc = rt.alloc();
    let game = goal_or_sink(alloc)?;
    check_sink(alloc, &question_of(alloc, &game, Side::Min, 1)?)
}

/// The checks say this if the minimiser chooses between goal and sink.
fn check_sink(alloc: Global, question: &Question<'_>) -> Result<(), Fail>
    requires { states question.now ≡ 3 }
{
    let no_reply = Err(fault(0, UpperCause::NoReply));
    check_table(question, &[0, ONE, 1], no_reply)?;
    check_found(alloc, question, &[0, ONE, 0], &[Some(1), None, Some(0)])?;
    for (given, wanted) in [
        ([Some(1), None, Some(0)], Ok(())),
        ([Some(0), None, Some(0)], Err(fault(0, UpperCause::Reply))),
        ([Some(2), None, Some(0)], Err(fault(0, UpperCause::Reply))),
        ([Some(1), None, None], Err(fault(2, UpperCause::Reply))),
    ] {
        check_given(question, &[0, ONE, 0], &given, wanted)?;
    }
    Ok(())
}

/// These replies are found for a table that passes the check.
fn check_found(
    alloc: Global,
    question: &Question<'_>,
    upper: &[u64; 3],
    wanted: &[Option<u32>; 3],
) -> Result<(), Fail>
    requires { states question.now ≡ 3 }
{
    check_upper(question, upper)?;
    let found = replies(alloc, question, upper)?;
    same("replies", found.as_slice(), wanted.as_slice())
}

/// The check says this of given replies to a table that passes its own check.
fn check_given(
    question: &Question<'_>,
    upper: &[u64; 3],
    given: &[Option<u32>; 3],
    wanted: Result<(), UpperFault>,
) -> Result<(), Fail>
    requires { states question.now ≡ 3 }
{
    check_upper(question, upper)?;
    let found = check_replies(question, upper, given);
    same(format_args!("{given:?}"), found, wanted)
}

#[test]
fn the_other_side_wants_the_zero_set(rt: HostRuntime) -> Result<(), Fail> {
    let alloc = rt.alloc();
    let game = goal_or_sink(alloc)?;
    check_other(alloc, &question_of(alloc, &game, Side::Min, 1)?)
}

/// The other side wants states 0 and 2, and state 1 is dead.
fn check_other(alloc: Global, question: &Question<'_>) -> Result<(), Fail>
    requires { states question.now ≡ 3 }
{
    let zero = zero_set(alloc, question)?;
    let other = swap(alloc, question, &zero)?;
    same(
        "side, goals, dead state",
        (
            other.side(0),
            (other.is_goal(0), other.is_goal(2), other.is_dead(1)),
        ),
        (Side::Max, (true, true, true)),
    )
}

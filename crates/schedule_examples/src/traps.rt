//! This is a worked trap with its lowered table.

ghost use Rattle.std.specs.Prelude.{◌≡◌, ◌≤◌, length, slice_index, All, IsOk};
ghost use Rattle.game_model.specs.Limits.{unit};
ghost use Rattle.game_model.specs.Query.{states};
ghost use Rattle.game_model.specs.Rounded.{IsInductive};
ghost use Rattle.inductive_check.specs.Replies.{AreReplies};

use game_model::{Question, UNIT};
use inductive_check::{check_replies, check_upper};
use sample_games::expectations::same;
use sample_games::{question_with_minimiser_at, ring_of_two};
use std::alloc::Global;
use std::test::Fail;
use trap_sets::{lower_traps, traps};

const ONE: u64 = UNIT;

const HALF: u64 = UNIT / 2;

/// One guess gives this upper value if the value is one half.
const HIGH: u64 = 562_949_953_421_312;

/// A row has replies and an upper table, and the traps and the lowered table that are wanted.
#[derive(Clone, Copy)]
struct Row<'a> {
    replies: &'a [Option<u32>],
    upper: &'a [u64],
    traps: &'a [u32],
    lowered: &'a [u64],
}

/// The traps and the lowered table of the row are found.
fn check_row(alloc: Global, question: &Question, row: Row<'_>) -> Result<(), Fail>
    requires replies { length row.replies.now ≡ states question.now }
    requires upper { length row.upper.now ≡ states question.now }
{
    let sets = traps(alloc, question, row.replies)?;
    same("traps", sets.of.as_slice(), row.traps)?;
    check_lowered(alloc, question, row)
}

/// The table and the replies pass the checks, before and after the table is lowered.
fn check_lowered(alloc: Global, question: &Question, row: Row<'_>) -> Result<(), Fail>
    requires replies { length row.replies.now ≡ states question.now }
    requires upper { length row.upper.now ≡ states question.now }
{
    check_held(question, row.upper, row.replies)?;
    let table = lower_traps(alloc, question, row.upper, row.replies)?;
    same("lowered table", table.as_slice(), row.lowered)?;
    check_held(question, &table, row.replies)
}

/// A table and replies pass the checks.
fn check_held(question: &Question, upper: &[u64], replies: &[Option<u32>]) -> Result<(), Fail>
    requires upper { length upper.now ≡ states question.now }
    requires replies { length replies.now ≡ states question.now }
    ensures units { IsOk result → All (λ v. v ≤ unit) upper.now }
    ensures inductive { IsOk result → IsInductive question.now (slice_index upper.now) }
    ensures replies { IsOk result → AreReplies question.now (slice_index upper.now) replies.now }
{
    check_upper(question, upper)?;
    check_replies(question, upper, replies)?;
    Ok(())
}

#[test]
fn a_ring_of_both_players_is_held_to_its_one_exit(rt: HostRuntime) -> Result<(), Fail> {
    let alloc = rt.alloc();
    let game = ring_of_two(alloc)?;
    let question = question_with_minimiser_at(alloc, &game, 1, 3)?;
    check_row(
        alloc,
        &question,
        Row {
            replies: &[None, Some(0), None, None, None],
            upper: &[HIGH, HIGH, HIGH, ONE, 0],
            traps: &[1, 1, 0, 0, 2],
            lowered: &[HALF, HALF, HIGH, ONE, 0],
        },
    )
}

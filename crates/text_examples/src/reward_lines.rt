//! Expected rewards have verdicts, and reports with their values.

ghost use Rattle.std.specs.Prelude.{◌↔◌, IsTrue};
ghost use Rattle.reward_values.specs.Values.{IsValue};

use game_model::UNIT;
use reward_formula::RewardBound;
use reward_values::append_reward_value;
use reward_verdicts::{RewardLine, reward_report_text, settle_reward};
use rewards_reader::read_amount;
use sample_games::expectations::same;
use std::test::Fail;
use verdicts::{How, Verdict};

// Each value of so many places is given with its text.
const VALUES: [(u32, Option<u64>, &str); 5] = [
    (0, Some(24), "24"),
    (1, Some(1_000_000_000_000_000), "100000000000000.0"),
    (14, Some(366_666_666_666_666), "3.66666666666666"),
    (15, Some(1), "0.000000000000001"),
    (15, None, "infinite"),
];

// Returns whether a value has at most 10^15 units, or is infinite.
fn is_value(value: Option<u64>) -> bool
    ensures { IsTrue result ↔ IsValue value }
{
    match value {
        Some(units) => units <= UNIT,
        None => true,
    }
}

// The bounds of a value have this verdict under a bound. They are in units of 14 places.
fn has_verdict(
    bound: &RewardBound,
    (lower, upper): (Option<u64>, Option<u64>),
    wanted: Verdict,
) -> Result<(), Fail> {
    if !is_value(lower) || !is_value(upper) {
        return Err(Fail::new("too many units"));
    }
    same(
        format_args!("{bound:?}"),
        settle_reward(bound, 14, lower, upper),
        wanted,
    )
}

#[test]
fn worked_bounds_have_their_verdicts() -> Result<(), Fail> {
    let flips = read_amount(b"11/3")?;
    let two = read_amount(b"2")?;
    let near = (Some(366_666_666_666_666), Some(366_666_666_666_667));
    let exact = (Some(200_000_000_000_000), Some(200_000_000_000_000));
    let infinite = (None, None);
    let open = (Some(200_000_000_000_001), None);
    for (bound, ends, wanted) in [
        (RewardBound::AtLeast(flips), near, Verdict::Undecided),
        (RewardBound::Below(flips), near, Verdict::Undecided),
        (RewardBound::AtLeast(two), exact, Verdict::Yes),
        (RewardBound::AtMost(two), exact, Verdict::Yes),
        (RewardBound::Above(two), exact, Verdict::No),
        (RewardBound::Below(two), exact, Verdict::No),
        (RewardBound::Above(two), infinite, Verdict::Yes),
        (RewardBound::AtMost(two), infinite, Verdict::No),
        (RewardBound::Above(two), open, Verdict::Yes),
        (RewardBound::AtMost(flips), open, Verdict::Undecided),
        (RewardBound::AskMin, near, Verdict::Bracket),
    ] {
        has_verdict(&bound, ends, wanted)?;
    }
    Ok(())
}

#[test]
fn values_are_written(rt: HostRuntime) -> Result<(), Fail> {
    for (places, value, wanted) in VALUES {
        let mut text = Vec::new(rt.alloc());
        append_reward_value(&mut text, places, value)?;
        same(wanted, text.as_slice(), wanted.as_bytes())?;
    }
    Ok(())
}

#[test]
fn a_report_has_a_line_for_each_state(rt: HostRuntime) -> Result<(), Fail> {
    let lines = [
        RewardLine {
            state: 0,
            lower: Some(366_666_666_666_666),
            upper: Some(366_666_666_666_667),
            how: How::Solved,
            verdict: Verdict::Bracket,
        },
        RewardLine {
            state: 12,
            lower: Some(0),
            upper: None,
            how: How::Audited,
            verdict: Verdict::Undecided,
        },
    ];
    let text = reward_report_text(rt.alloc(), 14, &lines)?;
    let expected =
        b"state 0 lower 3.66666666666666 upper 3.66666666666667 solved Bracket\nstate 12 lower 0.00000000000000 upper infinite audited Undecided\n";
    same("report", text.as_slice(), expected.as_slice())
}

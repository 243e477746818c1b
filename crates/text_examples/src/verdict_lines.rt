//! These tests are of verdicts, of when a run may stop, and of the lines of a report.

use distributions::read_number;
use game_model::UNIT;
use rpatl_syntax::Bound;
use sample_games::expectations::same;
use std::test::Fail;
use verdicts::{How, ReportLine, StopRule, Verdict, report_text, settle};

// The bounds of a value have this verdict under a bound.
fn has_verdict(bound: &Bound, (lower, upper): (u64, u64), wanted: Verdict) -> Result<(), Fail> {
    if lower > UNIT || upper > UNIT {
        return Err(Fail::new("above 1"));
    }
    same(
        format_args!("{bound:?}"),
        settle(bound, lower, upper),
        wanted,
    )
}

#[test]
fn worked_bounds_have_their_verdicts() -> Result<(), Fail> {
    let share = read_number(b"3/5")?;
    let half = read_number(b"1/2")?;
    let third = read_number(b"1/3")?;
    let near = (499_999_999_999_999, 500_000_000_000_000);
    let around = (333_333_333_333_333, 333_333_333_333_334);
    for (bound, ends, wanted) in [
        (
            Bound::AtLeast(share),
            (650_000_000_000_000, 650_000_000_000_000),
            Verdict::Yes,
        ),
        (Bound::AtLeast(share), (0, 500_000_000_000_000), Verdict::No),
        (Bound::AtLeast(half), near, Verdict::Undecided),
        (Bound::AtMost(half), near, Verdict::Yes),
        (Bound::Above(half), near, Verdict::No),
        (Bound::Below(half), near, Verdict::Undecided),
        (Bound::AtLeast(third), around, Verdict::Undecided),
        (Bound::AskMax, near, Verdict::Bracket),
        (Bound::AskMin, near, Verdict::Bracket),
    ] {
        has_verdict(&bound, ends, wanted)?;
    }
    Ok(())
}

#[test]
fn a_run_may_stop_where_its_bound_is_settled() -> Result<(), Fail> {
    let share = read_number(b"3/5")?;
    let bound = Bound::AtLeast(share);
    let stop = StopRule::of_bound(bound, |lower, upper| {
        matches!(settle(&bound, lower, upper), Verdict::Yes | Verdict::No)
    });
    same("bound", stop.bound(), Bound::AtLeast(share))?;
    same(
        "asks",
        (
            stop.asks(600_000_000_000_000, 1_000_000_000_000_000),
            stop.asks(0, 599_999_999_999_999),
            stop.asks(0, 600_000_000_000_000),
        ),
        (true, true, false),
    )
}

#[test]
fn a_report_has_a_line_for_each_state(rt: HostRuntime) -> Result<(), Fail> {
    let lines = [
        ReportLine {
            state: 0,
            lower: 499_999_999_999_999,
            upper: 1_000_000_000_000_000,
            how: How::Rounds(40),
            verdict: Verdict::Bracket,
        },
        ReportLine {
            state: 12,
            lower: 0,
            upper: 0,
            how: How::Audited,
            verdict: Verdict::No,
        },
        ReportLine {
            state: 3,
            lower: 375_000_000_000_000,
            upper: 375_000_000_000_000,
            how: How::Steps(2),
            verdict: Verdict::Yes,
        },
        ReportLine {
            state: 4,
            lower: 0,
            upper: 1,
            how: How::Solved,
            verdict: Verdict::Undecided,
        },
    ];
    let text = report_text(rt.alloc(), &lines)?;
    let expected =
        b"state 0 lower 0.499999999999999 upper 1.000000000000000 rounds 40 Bracket\nstate 12 lower 0.000000000000000 upper 0.000000000000000 audited False\nstate 3 lower 0.375000000000000 upper 0.375000000000000 steps 2 True\nstate 4 lower 0.000000000000000 upper 0.000000000000001 solved Undecided\n";
    same("report", text.as_slice(), expected.as_slice())
}

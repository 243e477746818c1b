//! These formulas are refused.

use crate::tables::{Answer, answers_write, refuses};
use crate::{Command, MOST_OF_COIN_LOOP, push_times};
use std::alloc::Global;
use std::test::Fail;
use std::thread::Threads;
use stogame_app::Status;

const AT_THEIR_PLACE: &[Answer<'static>] = &[
    ("Pmax=? [ F goal ]", "11 Unexpected", Status::ModelRefused),
    (
        "P>=1.5 [ F true ]",
        "3 ThresholdOutOfRange",
        Status::ModelRefused,
    ),
    ("P>=0.5 [ F \"goal\"", "17 End", Status::ModelRefused),
    (
        "P>=1/0 [ F true ]",
        "3 BadNumber ZeroDenominator",
        Status::ModelRefused,
    ),
    (
        "P>=0.5 [ F<=3.5 \"goal\" ]",
        "12 BadSteps",
        Status::ModelRefused,
    ),
    (
        "P>=0.5 [ F Pmax=? [ F \"goal\" ] ]",
        "11 AskInside",
        Status::ModelRefused,
    ),
];

#[test]
fn formulas_are_refused_at_their_place(rt: HostRuntime) -> Result<(), Fail> {
    let command = Command::Check(MOST_OF_COIN_LOOP);
    let front = "refused formula place ";
    answers_write(&rt, rt.alloc(), command, front, AT_THEIR_PLACE)
}

// Each row says how a formula begins, which sign follows and how often, how the formula ends, and where and why it is
// refused.
const TOO_LONG: &[(&str, &str, u32, &str, &str)] = &[
    ("Pmax=? [ F ", "!", 65, "true ]", "75 TooDeep"),
    ("Pmax=? [ F ", "(", 65, "", "75 TooDeep"),
    ("Pmax=? [ F true ]", " ", 4080, "", "4096 TooLong"),
];

fn too_long_are_refused<R: Threads + Sync>(rt: &R, alloc: Global) -> Result<(), Fail> {
    for (front, sign, times, back, cause) in TOO_LONG {
        let mut formula = String::from_str(alloc, front)?;
        push_times(&mut formula, sign, *times)?;
        formula.push_str(back)?;
        let text = format!(in alloc; "refused formula place {cause}\n")?;
        refuses(
            rt,
            alloc,
            MOST_OF_COIN_LOOP.asked(formula.as_str()),
            text.as_str(),
        )?;
    }
    Ok(())
}

#[test]
fn formulas_that_nest_too_deep_or_are_too_long_are_refused(rt: HostRuntime) -> Result<(), Fail> {
    too_long_are_refused(&rt, rt.alloc())
}

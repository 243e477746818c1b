//! These paths have a bound on the steps, or are of the next step or of what always holds.

use crate::checks::comes_to;
use crate::tables::{Answer, Audited, all_write, answers_write, printed_are_audited};
use crate::traps::{
    GOAL_AT_2, GOAL_AT_3, NO_ROUNDS, SECOND_OWNS_1, STAY_OR_COIN, TO_AND_FRO, TRAPS,
};
use crate::{Case, Command, MOST_OF_COIN_LOOP, Row, runs};
use game_outside::{HoldGate, OpenGate};
use sample_games::expectations::holds;
use std::alloc::Global;
use std::test::Fail;
use std::thread::Threads;
use stogame_app::Status;

// State 0 chooses between a toss for the goal, state 2, and a step to state 1, which goes to the goal with probability
// nine tenths.
const TOSS_OR_STEP: Row<'static> = Row {
    tra: "4 5 7\n0 0 2 0.5\n0 0 3 0.5\n0 1 1 1\n1 0 2 0.9\n1 0 3 0.1\n2 0 2 1\n3 0 3 1\n",
    lab: GOAL_AT_2,
    ..MOST_OF_COIN_LOOP
};

// State 0 goes to the goal with probability one third.
const ONE_THIRD: Row<'static> = Row {
    tra: "3 3 4\n0 0 1 1/3\n0 0 2 2/3\n1 0 1 1\n2 0 2 1\n",
    formula: "P>=1/3 [ X \"goal\" ]",
    ..MOST_OF_COIN_LOOP
};

// Two players send each other to and fro.
const OF_TWO_PLAYERS: Row<'static> = Row {
    tra: TO_AND_FRO,
    lab: GOAL_AT_3,
    own: Some(SECOND_OWNS_1),
    ..MOST_OF_COIN_LOOP
};

const WITHIN_STEPS: &[Answer<'static>] = &[
    (
        "Pmax=? [ F<=2 \"goal\" ]",
        "lower 0.375000000000000 upper 0.375000000000000 steps 2 Bracket",
        Status::Fine,
    ),
    (
        "P>=0.375 [ F<=2 \"goal\" ]",
        "lower 0.375000000000000 upper 0.375000000000000 steps 2 True",
        Status::Fine,
    ),
    (
        "P>0.375 [ F<=2 \"goal\" ]",
        "lower 0.375000000000000 upper 0.375000000000000 steps 2 False",
        Status::SomeFalse,
    ),
    (
        "Pmax=? [ F<=0 \"goal\" ]",
        "lower 0.000000000000000 upper 0.000000000000000 steps 0 Bracket",
        Status::Fine,
    ),
    // State 0 is not a goal, and the left side holds only there, so after one step the rest is lost.
    (
        "Pmax=? [ \"init\" U<=1 \"goal\" ]",
        "lower 0.250000000000000 upper 0.250000000000000 steps 1 Bracket",
        Status::Fine,
    ),
    // More steps change nothing when a step leaves each table unchanged.
    (
        "Pmax=? [ F<=1000000 \"goal\" ]",
        "lower 0.499999999999999 upper 0.500000000000000 steps 1000000 Bracket",
        Status::Fine,
    ),
    (
        "P>=0.5 [ F<=1000000 \"goal\" ]",
        "lower 0.499999999999999 upper 0.500000000000000 steps 1000000 Undecided",
        Status::SomeUndecided,
    ),
];

#[test]
fn paths_within_steps_have_their_value(rt: HostRuntime) -> Result<(), Fail> {
    let command = Command::Check(MOST_OF_COIN_LOOP);
    answers_write(&rt, rt.alloc(), command, "state 0 ", WITHIN_STEPS)
}

const OF_TOSS_OR_STEP: &[Answer<'static>] = &[
    (
        "Pmax=? [ F<=1 \"goal\" ]",
        "lower 0.500000000000000 upper 0.500000000000000 steps 1 Bracket",
        Status::Fine,
    ),
    (
        "Pmax=? [ F<=2 \"goal\" ]",
        "lower 0.900000000000000 upper 0.900000000000000 steps 2 Bracket",
        Status::Fine,
    ),
    (
        "Pmin=? [ F<=2 \"goal\" ]",
        "lower 0.500000000000000 upper 0.500000000000000 steps 2 Bracket",
        Status::Fine,
    ),
    (
        "Pmin=? [ F<=1 \"goal\" ]",
        "lower 0.000000000000000 upper 0.000000000000000 steps 1 Bracket",
        Status::Fine,
    ),
];

#[test]
fn the_best_choice_changes_with_the_steps(rt: HostRuntime) -> Result<(), Fail> {
    let command = Command::Check(TOSS_OR_STEP);
    answers_write(&rt, rt.alloc(), command, "state 0 ", OF_TOSS_OR_STEP)
}

const NEXT_STEP: &[Answer<'static>] = &[
    (
        "P>=0.5 [ X \"goal\" ]",
        "lower 0.250000000000000 upper 0.250000000000000 steps 1 False",
        Status::SomeFalse,
    ),
    (
        "Pmax=? [ X !\"goal\" ]",
        "lower 0.750000000000000 upper 0.750000000000000 steps 1 Bracket",
        Status::Fine,
    ),
    (
        "Pmin=? [ X true ]",
        "lower 1.000000000000000 upper 1.000000000000000 steps 1 Bracket",
        Status::Fine,
    ),
];

#[test]
fn the_next_step_has_its_probability(rt: HostRuntime) -> Result<(), Fail> {
    let command = Command::Check(MOST_OF_COIN_LOOP);
    answers_write(&rt, rt.alloc(), command, "state 0 ", NEXT_STEP)
}

const LEFT_OPEN: &[Case<'static>] = &[Case {
    command: Command::Check(ONE_THIRD),
    text: "state 0 lower 0.333333333333333 upper 0.333333333333334 steps 1 Undecided\n",
    status: Status::SomeUndecided,
}];

#[test]
fn a_third_is_left_open(rt: HostRuntime) -> Result<(), Fail> {
    all_write(&rt, rt.alloc(), LEFT_OPEN)
}

const STEPS_OF_TWO_STATES: &[Answer<'static>] = &[
    (
        "<<p1>> Pmax=? [ F<=2 \"goal\" ]",
        "state 0 lower 0.500000000000000 upper 0.500000000000000 steps 2 Bracket\nstate 1 lower 0.500000000000000 upper 0.500000000000000 steps 2 Bracket",
        Status::Fine,
    ),
    (
        "<<p1>> Pmin=? [ F<=2 \"goal\" ]",
        "state 0 lower 0.500000000000000 upper 0.500000000000000 steps 2 Bracket\nstate 1 lower 1.000000000000000 upper 1.000000000000000 steps 2 Bracket",
        Status::Fine,
    ),
];

#[test]
fn each_initial_state_has_its_steps(rt: HostRuntime) -> Result<(), Fail> {
    let command = Command::Check(OF_TWO_PLAYERS);
    answers_write(&rt, rt.alloc(), command, "", STEPS_OF_TWO_STATES)
}

// The first player can toss a coin, and the second player can give the goal, which it does not do if it maximises `G`.
const ALWAYS_OF_COALITIONS: &[Answer<'static>] = &[
    (
        "<<p1>> Pmax=? [ G !\"goal\" ]",
        "state 0 lower 0.500000000000000 upper 0.500000000000000 rounds 50 Bracket\nstate 1 lower 0.000000000000000 upper 0.000000000000000 rounds 50 Bracket",
        Status::Fine,
    ),
    (
        "<<p1>> Pmin=? [ G !\"goal\" ]",
        "state 0 lower 0.500000000000000 upper 0.500000000000000 rounds 50 Bracket\nstate 1 lower 0.500000000000000 upper 0.500000000000000 rounds 50 Bracket",
        Status::Fine,
    ),
    (
        "<<p2>> Pmax=? [ G !\"goal\" ]",
        "state 0 lower 0.500000000000000 upper 0.500000000000000 rounds 50 Bracket\nstate 1 lower 0.500000000000000 upper 0.500000000000000 rounds 50 Bracket",
        Status::Fine,
    ),
];

#[test]
fn a_coalition_has_what_always_holds(rt: HostRuntime) -> Result<(), Fail> {
    let command = Command::Check(OF_TWO_PLAYERS);
    answers_write(&rt, rt.alloc(), command, "", ALWAYS_OF_COALITIONS)
}

// The choice to stay or toss is asked for what always holds.
const STAYS: Row<'static> = Row {
    tra: STAY_OR_COIN,
    lab: GOAL_AT_2,
    own: None,
    formula: "Pmin=? [ G !\"goal\" ]",
    numbers: NO_ROUNDS,
};

// Without a round the upper bound of the dual is too great. At the best exit of its trap it is the value.
const RAISED: &[Case<'static>] = &[
    Case {
        command: Command::Check(STAYS),
        text: "state 0 lower 0.437050046578688 upper 0.999999999999996 rounds 0 Bracket\n",
        status: Status::Fine,
    },
    Case {
        command: Command::Check(Row {
            numbers: TRAPS,
            ..STAYS
        }),
        text: "state 0 lower 0.500000000000000 upper 0.999999999999996 rounds 0 Bracket\n",
        status: Status::Fine,
    },
];

#[test]
fn traps_raise_what_always_holds(rt: HostRuntime) -> Result<(), Fail> {
    all_write(&rt, rt.alloc(), RAISED)
}

const ALWAYS: &[Answer<'static>] = &[
    ("Pmin=? [ G !\"goal\" ]", "Bracket", Status::Fine),
    ("P>=0.5 [ G !\"goal\" ]", "True", Status::Fine),
    ("P<=0.5 [ G !\"goal\" ]", "True", Status::Fine),
    ("P>0.5 [ G !\"goal\" ]", "False", Status::SomeFalse),
    ("P<0.5 [ G !\"goal\" ]", "False", Status::SomeFalse),
];

#[test]
fn what_always_holds_is_told_by_its_dual(rt: HostRuntime) -> Result<(), Fail> {
    let front = "state 0 lower 0.500000000000000 upper 0.500000000000000 rounds 50 ";
    let command = Command::Check(MOST_OF_COIN_LOOP);
    answers_write(&rt, rt.alloc(), command, front, ALWAYS)
}

const PLANNED: Row<'static> = Row {
    formula: "Pmin=? [ G !\"goal\" ]",
    numbers: &["--workers", "1", "--plan"],
    ..TOSS_OR_STEP
};

// The certificate is that of the dual, and the audit mirrors its numbers.
const OF_THE_DUAL: &[Audited<'static>] = &[(
    Command::Check(PLANNED),
    PLANNED,
    "state 0 lower 0.100000000000000 upper 0.100000000000000 audited Bracket\n",
    Status::Fine,
)];

#[test]
fn certificates_of_the_dual_are_audited(rt: HostRuntime) -> Result<(), Fail> {
    let alloc = rt.alloc();
    let (status, printed) = runs(&rt, alloc, PLANNED, &OpenGate {})?;
    holds("the certificate is made", status == Status::Fine)?;
    let front =
        b"state 0 lower 0.100000000000000 upper 0.100000000000000 rounds 3 Bracket\nformula Pmax=? [ F !!\"goal\" ]\ncertificate 2 4\n0 0.900000000000000 1 ";
    holds("it is the dual's", printed.starts_with(front))?;
    printed_are_audited(&rt, alloc, OF_THE_DUAL)
}

const BAD_STEPS: &[Answer<'static>] = &[
    (
        "Pmax=? [ F<=1.5 \"goal\" ]",
        "12 BadSteps",
        Status::ModelRefused,
    ),
    (
        "Pmax=? [ F<=1000001 \"goal\" ]",
        "12 BadSteps",
        Status::ModelRefused,
    ),
    (
        "Pmax=? [ F<=\"goal\" ]",
        "12 Unexpected",
        Status::ModelRefused,
    ),
    (
        "Pmax=? [ \"init\" U<=1/2 \"goal\" ]",
        "19 BadSteps",
        Status::ModelRefused,
    ),
];

#[test]
fn steps_are_whole_numbers_up_to_a_million(rt: HostRuntime) -> Result<(), Fail> {
    let front = "refused formula place ";
    let command = Command::Check(MOST_OF_COIN_LOOP);
    answers_write(&rt, rt.alloc(), command, front, BAD_STEPS)
}

const COIN_LOOP_WITH_PLAN: Row<'static> = Row {
    numbers: &["--plan"],
    ..MOST_OF_COIN_LOOP
};

const COIN_LOOP_WITH_TRAPS: Row<'static> = Row {
    numbers: &["--traps"],
    ..MOST_OF_COIN_LOOP
};

const WRONG_KIND: &[Answer<'static>] = &[
    ("Pmax=? [ X \"goal\" ]", "WrongKind", Status::ModelRefused),
    (
        "Pmax=? [ F<=2 \"goal\" ]",
        "WrongKind",
        Status::ModelRefused,
    ),
    (
        "Pmax=? [ \"init\" U<=2 \"goal\" ]",
        "WrongKind",
        Status::ModelRefused,
    ),
];

// An audit of a text that is no certificate is refused in the same way. An unknown label is refused first.
const NO_CERTIFICATE: &[Case<'static>] = &[
    Case {
        command: Command::Audit(
            Row {
                formula: "Pmax=? [ X \"goal\" ]",
                ..MOST_OF_COIN_LOOP
            },
            "",
        ),
        text: "refused question line 0 WrongKind\n",
        status: Status::ModelRefused,
    },
    Case {
        command: Command::Check(Row {
            formula: "Pmax=? [ X \"none\" ]",
            ..COIN_LOOP_WITH_PLAN
        }),
        text: "refused question line 0 UnknownLabel none\n",
        status: Status::ModelRefused,
    },
];

#[test]
fn certificates_and_traps_are_of_paths_without_a_bound(rt: HostRuntime) -> Result<(), Fail> {
    let alloc = rt.alloc();
    let front = "refused question line 0 ";
    let with_plan = Command::Check(COIN_LOOP_WITH_PLAN);
    answers_write(&rt, alloc, with_plan, front, WRONG_KIND)?;
    let with_traps = Command::Check(COIN_LOOP_WITH_TRAPS);
    answers_write(&rt, alloc, with_traps, front, WRONG_KIND)?;
    all_write(&rt, alloc, NO_CERTIFICATE)
}

// The bounds are the same for every number of workers.
fn two_steps<R: Threads + Sync>(
    rt: &R,
    alloc: Global,
    workers: &str,
    gate: &HoldGate,
) -> Result<(), Fail> {
    let numbers = ["--workers", workers];
    let row = MOST_OF_COIN_LOOP
        .asked("Pmax=? [ F<=2 \"goal\" ]")
        .with_numbers(&numbers);
    let (status, written) = runs(rt, alloc, row, gate)?;
    let text = "state 0 lower 0.375000000000000 upper 0.375000000000000 steps 2 Bracket\n";
    comes_to(workers, status, &written, Status::Fine, text)
}

#[test]
fn two_workers_step_at_once(rt: HostRuntime) -> Result<(), Fail> {
    let gate = HoldGate::new();
    two_steps(&rt, rt.alloc(), "2", &gate)?;
    holds("both workers run at once", !gate.gave_up())?;
    two_steps(&rt, rt.alloc(), "64", &HoldGate::new())
}

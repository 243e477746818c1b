//! A solver finds these bounds, and the checks of an audit accept them.

use crate::models::{GOAL_AT_2, TWO_PLAYERS};
use crate::tables::{Answer, Audited, all_write, answers_write, printed_are_audited, prints};
use crate::traps::{GOAL_AT_3, TO_AND_FRO};
use crate::{COIN_LOOP, Case, Command, GOAL_AT_1, Row, SECOND_OWNS_1};
use std::alloc::Global;
use std::test::Fail;
use std::thread::Threads;
use stogame_app::Status;

const REACH: &str = "Pmax=? [ F \"goal\" ]";

// The words ask for the certificate.
const PLAN: &[&str] = &["--plan"];

const HALF: &str = "state 0 lower 0.500000000000000 upper 0.500000000000000 solved Bracket\n";

// The words of the coin loop name no number.
const OF_COIN_LOOP: Row<'static> = Row {
    tra: COIN_LOOP,
    lab: GOAL_AT_1,
    own: None,
    formula: REACH,
    numbers: &[],
};

const OF_TWO_PLAYERS: Row<'static> = Row {
    tra: TWO_PLAYERS,
    lab: GOAL_AT_2,
    own: Some(SECOND_OWNS_1),
    formula: "<<p1>> P>=0.6 [ F \"goal\" ]",
    numbers: &[],
};

const OF_TO_AND_FRO: Row<'static> = Row {
    tra: TO_AND_FRO,
    lab: GOAL_AT_3,
    own: Some(SECOND_OWNS_1),
    formula: "<<p1>> Pmax=? [ F \"goal\" ]",
    numbers: &[],
};

const OF_ONE_HALF: &[Answer<'static>] = &[
    (REACH, "Bracket", Status::Fine),
    ("P>=0.5 [ F \"goal\" ]", "True", Status::Fine),
    ("P<0.5 [ F \"goal\" ]", "False", Status::SomeFalse),
    ("P>=0.5 [ G !\"goal\" ]", "True", Status::Fine),
];

#[test]
fn the_coin_loop_has_exactly_one_half(rt: HostRuntime) -> Result<(), Fail> {
    let front = "state 0 lower 0.500000000000000 upper 0.500000000000000 solved ";
    let command = Command::Solve(OF_COIN_LOOP, None);
    answers_write(&rt, rt.alloc(), command, front, OF_ONE_HALF)
}

// With a bound on the steps the lines are those of `check`.
const OF_STEPS: &[Answer<'static>] = &[
    (
        "P>=0.5 [ F<=3 \"goal\" ]",
        "lower 0.437500000000000 upper 0.437500000000000 steps 3 False",
        Status::SomeFalse,
    ),
    (
        "Pmax=? [ X \"goal\" ]",
        "lower 0.250000000000000 upper 0.250000000000000 steps 1 Bracket",
        Status::Fine,
    ),
];

#[test]
fn bounded_paths_have_the_lines_of_check(rt: HostRuntime) -> Result<(), Fail> {
    let command = Command::Solve(OF_COIN_LOOP, None);
    answers_write(&rt, rt.alloc(), command, "state 0 ", OF_STEPS)
}

// From state 0 the goal is reached with probability one half, and within three steps with less.
const WITH_INSIDE: &[Answer<'static>] = &[
    (
        "P>=1 [ F P>=0.5 [ F \"goal\" ] ]",
        "lower 1.000000000000000 upper 1.000000000000000 solved True",
        Status::Fine,
    ),
    (
        "Pmin=? [ G P<0.5 [ F<=3 \"goal\" ] ]",
        "lower 0.500000000000000 upper 0.500000000000000 solved Bracket",
        Status::Fine,
    ),
    (
        "P<0.3 [ F<=1 P>0.5 [ F \"goal\" ] ]",
        "lower 0.250000000000000 upper 0.250000000000000 steps 1 True",
        Status::Fine,
    ),
];

#[test]
fn formulas_inside_are_solved_at_every_state(rt: HostRuntime) -> Result<(), Fail> {
    let command = Command::Solve(OF_COIN_LOOP, None);
    let front = "inner 1 undecided 0\nstate 0 ";
    answers_write(&rt, rt.alloc(), command, front, WITH_INSIDE)
}

const NO_PLAN: &[Answer<'static>] = &[
    (
        "Pmax=? [ F<=3 \"goal\" ]",
        "WrongKind",
        Status::ModelRefused,
    ),
    ("Pmax=? [ X \"goal\" ]", "WrongKind", Status::ModelRefused),
    (
        "Pmax=? [ F P>=0.5 [ F \"goal\" ] ]",
        "WrongKind",
        Status::ModelRefused,
    ),
];

#[test]
fn certificates_and_values_are_of_unbounded_paths(rt: HostRuntime) -> Result<(), Fail> {
    let planned = Row {
        numbers: PLAN,
        ..OF_COIN_LOOP
    };
    let front = "refused question line 0 ";
    answers_write(
        &rt,
        rt.alloc(),
        Command::Solve(planned, None),
        front,
        NO_PLAN,
    )?;
    let begun = Command::Solve(OF_COIN_LOOP, Some("0.3\n"));
    answers_write(&rt, rt.alloc(), begun, front, NO_PLAN)
}

// In Israeli and Jalfon's ring of three processes (1990), a scheduler moves tokens, and a coin decides where to.
const RING: &[Case<'static>] = &[Case {
    command: Command::Solve(
        Row {
            tra: "7 12 21\n0 0 1 0.5\n0 0 3 0.5\n1 0 0 0.5\n1 0 3 0.5\n2 0 1 0.5\n2 0 5 0.5\n2 1 0 0.5\n2 1 4 0.5\n3 0 0 0.5\n3 0 1 0.5\n4 0 3 0.5\n4 0 5 0.5\n4 1 0 0.5\n4 1 2 0.5\n5 0 3 0.5\n5 0 4 0.5\n5 1 1 0.5\n5 1 2 0.5\n6 0 5 1\n6 1 4 1\n6 2 2 1\n",
            lab: "0=\"init\" 1=\"stable\"\n0: 1\n1: 1\n3: 1\n6: 0\n",
            own: None,
            formula: "Pmin=? [ F \"stable\" ]",
            numbers: &[],
        },
        None,
    ),
    text: "state 6 lower 1.000000000000000 upper 1.000000000000000 solved Bracket\n",
    status: Status::Fine,
}];

#[test]
fn the_ring_is_almost_surely_stable(rt: HostRuntime) -> Result<(), Fail> {
    all_write(&rt, rt.alloc(), RING)
}

const HALF_TWICE: &str =
    "state 0 lower 0.500000000000000 upper 0.500000000000000 solved Bracket\nstate 1 lower 0.500000000000000 upper 0.500000000000000 solved Bracket\n";

const GAMES: &[Case<'static>] = &[
    Case {
        command: Command::Solve(OF_TWO_PLAYERS, None),
        text: "state 0 lower 0.650000000000000 upper 0.650000000000000 solved True\n",
        status: Status::Fine,
    },
    Case {
        command: Command::Solve(OF_TO_AND_FRO, None),
        text: HALF_TWICE,
        status: Status::Fine,
    },
];

#[test]
fn games_of_two_players_are_solved(rt: HostRuntime) -> Result<(), Fail> {
    all_write(&rt, rt.alloc(), GAMES)
}

// State 0 tosses a coin until it falls on the goal, state 1. From state 2 there is no way to the goal.
const COIN: Row<'static> = Row {
    tra: "3 3 4\n0 0 0 0.5\n0 0 1 0.5\n1 0 1 1\n2 0 2 1\n",
    lab: "0=\"init\" 1=\"goal\"\n0: 0\n1: 0 1\n2: 0\n",
    ..OF_COIN_LOOP
};

const OF_COIN: &[Answer<'static>] = &[
    ("P>=1 [ F \"goal\" ]", "", Status::SomeFalse),
    ("P>0 [ F \"goal\" ]", "", Status::SomeFalse),
];

#[test]
fn almost_sure_states_have_1_and_those_of_the_zero_set_0(rt: HostRuntime) -> Result<(), Fail> {
    let lines =
        "state 0 lower 1.000000000000000 upper 1.000000000000000 solved True\nstate 1 lower 1.000000000000000 upper 1.000000000000000 solved True\nstate 2 lower 0.000000000000000 upper 0.000000000000000 solved False";
    let command = Command::Solve(COIN, None);
    answers_write(&rt, rt.alloc(), command, lines, OF_COIN)
}

const FROM_VALUES: &[Case<'static>] = &[
    Case {
        command: Command::Solve(OF_COIN_LOOP, Some("0.3\n2\n-1\n")),
        text: HALF,
        status: Status::Fine,
    },
    Case {
        command: Command::Solve(OF_COIN_LOOP, Some("1=1\n(0):(4,2)=0.3\n")),
        text: HALF,
        status: Status::Fine,
    },
    Case {
        command: Command::Solve(OF_COIN_LOOP, Some("0.3\n2\n")),
        text: "refused values line 0 LineCount\n",
        status: Status::ModelRefused,
    },
];

#[test]
fn values_to_begin_with_change_no_answer(rt: HostRuntime) -> Result<(), Fail> {
    all_write(&rt, rt.alloc(), FROM_VALUES)
}

// Three states lead round a ring, each to the next, and out of the ring. State 3 is the goal.
const RING_WITH_EXITS: Row<'static> = Row {
    tra: "5 5 9\n0 0 1 0.5\n0 0 3 0.4\n0 0 4 0.1\n1 0 2 0.5\n1 0 4 0.5\n2 0 0 0.8\n2 0 4 0.2\n3 0 3 1\n4 0 4 1\n",
    lab: GOAL_AT_3,
    ..OF_COIN_LOOP
};

// These are values of five states: all too low, all too high, no numbers, those of other states, and those of some
// states only.
const BEGUN: &[&str] = &[
    "0\n0\n0\n0\n0\n",
    "1\n1\n1\n1\n1\n",
    "nan\n-1\ninf\n0\n9\n",
    "0.4\n0.1\n0.3\n1\n0\n",
    "4=1\n2=0.7\n",
];

// If the row is solved from each of these values, it writes this text.
fn each_begun_writes<R: Threads + Sync>(
    rt: &R,
    alloc: Global,
    row: Row<'_>,
    text: &str,
) -> Result<(), Fail> {
    for values in BEGUN {
        prints(
            rt,
            alloc,
            Command::Solve(row, Some(values)),
            text,
            Status::Fine,
        )?;
    }
    Ok(())
}

// In both games states lead to each other, so the solver begins with the values.
#[test]
fn values_to_begin_with_change_no_component(rt: HostRuntime) -> Result<(), Fail> {
    let alloc = rt.alloc();
    each_begun_writes(&rt, alloc, OF_TO_AND_FRO, HALF_TWICE)?;
    let lines =
        "state 0 lower 0.500000000000000 upper 0.500000000000000 solved Bracket\nstate 1 lower 0.200000000000000 upper 0.200000000000000 solved Bracket\n";
    each_begun_writes(&rt, alloc, RING_WITH_EXITS, lines)
}

const ALWAYS: Row<'static> = Row {
    formula: "P>=0.5 [ G !\"goal\" ]",
    numbers: PLAN,
    ..OF_COIN_LOOP
};

const PLANNED_OF_TWO: Row<'static> = Row {
    numbers: PLAN,
    ..OF_TWO_PLAYERS
};

const PLANNED_TO_AND_FRO: Row<'static> = Row {
    numbers: PLAN,
    ..OF_TO_AND_FRO
};

const PLANNED: &[Audited<'static>] = &[
    (
        Command::Solve(ALWAYS, None),
        ALWAYS,
        "state 0 lower 0.500000000000000 upper 0.500000000000000 audited True\n",
        Status::Fine,
    ),
    (
        Command::Solve(PLANNED_OF_TWO, None),
        OF_TWO_PLAYERS,
        "state 0 lower 0.650000000000000 upper 0.650000000000000 audited True\n",
        Status::Fine,
    ),
    (
        Command::Solve(PLANNED_TO_AND_FRO, None),
        OF_TO_AND_FRO,
        "state 0 lower 0.500000000000000 upper 0.500000000000000 audited Bracket\nstate 1 lower 0.500000000000000 upper 0.500000000000000 audited Bracket\n",
        Status::Fine,
    ),
];

#[test]
fn what_is_solved_is_accepted_by_an_audit(rt: HostRuntime) -> Result<(), Fail> {
    printed_are_audited(&rt, rt.alloc(), PLANNED)
}

//! These tests are of thresholds, and of what the bounds say of them.

use crate::models::{GOAL_AT_2, TWO_PLAYERS};
use crate::tables::{Answer, all_write, answers_write};
use crate::{
    COIN_LOOP, Case, Command, MOST_OF_AGREEMENT, MOST_OF_COIN_LOOP, ONE_WORKER, Row, SECOND_OWNS_1,
    runs,
};
use game_outside::OpenGate;
use sample_games::expectations::{holds, same};
use std::alloc::Global;
use std::test::Fail;
use std::thread::Threads;
use stogame_app::Status;

const OF_ONE_HALF: &[Answer<'static>] = &[
    ("P<=0.5 [ F \"goal\" ]", "True", Status::Fine),
    ("P>0.5 [ F \"goal\" ]", "False", Status::SomeFalse),
    ("P>=0.5 [ F \"goal\" ]", "True", Status::Fine),
    ("P<0.5 [ F \"goal\" ]", "False", Status::SomeFalse),
];

#[test]
fn the_coin_loop_is_settled_where_a_bound_reaches_one_half(rt: HostRuntime) -> Result<(), Fail> {
    let front = "state 0 lower 0.500000000000000 upper 0.500000000000000 rounds 50 ";
    let command = Command::Check(MOST_OF_COIN_LOOP);
    answers_write(&rt, rt.alloc(), command, front, OF_ONE_HALF)
}

// States 0 and 2 are asked about.
const TWO_STATES: &str = "0=\"init\" 1=\"goal\"\n0: 0\n1: 1\n2: 0\n";

const ALONE: Row<'static> = Row {
    formula: "P>=0.4 [ F \"goal\" ]",
    ..MOST_OF_COIN_LOOP
};

const SETTLED: &[Case<'static>] = &[
    Case {
        command: Command::Check(ALONE),
        text: "state 0 lower 0.468750000000004 upper 0.503934372088832 rounds 4 True\n",
        status: Status::Fine,
    },
    Case {
        command: Command::Check(Row {
            lab: TWO_STATES,
            ..ALONE
        }),
        text: "state 0 lower 0.468750000000004 upper 0.503934372088832 rounds 4 True\nstate 2 lower 0.000000000000000 upper 0.000000000000000 rounds 4 False\n",
        status: Status::SomeFalse,
    },
];

#[test]
fn a_run_ends_where_all_initial_states_are_settled(rt: HostRuntime) -> Result<(), Fail> {
    all_write(&rt, rt.alloc(), SETTLED)
}

const OF_THREE_ROUNDS: &[Case<'static>] = &[Case {
    command: Command::Check(Row {
        tra: COIN_LOOP,
        lab: TWO_STATES,
        own: None,
        formula: "P<=0.4 [ F \"goal\" ]",
        numbers: &["--rounds", "3", "--workers", "1"],
    }),
    text: "state 0 lower 0.437500000000004 upper 0.507868744177664 rounds 3 False\nstate 2 lower 0.000000000000000 upper 0.000000000000000 rounds 3 True\n",
    status: Status::SomeFalse,
}];

#[test]
fn the_bounds_of_the_last_asked_round_count(rt: HostRuntime) -> Result<(), Fail> {
    all_write(&rt, rt.alloc(), OF_THREE_ROUNDS)
}

const OF_THE_SECOND: &[Case<'static>] = &[Case {
    command: Command::Check(Row {
        tra: TWO_PLAYERS,
        lab: GOAL_AT_2,
        own: Some(SECOND_OWNS_1),
        formula: "<<p2>> P>=0.6 [ F \"goal\" ]",
        numbers: ONE_WORKER,
    }),
    text: "state 0 lower 0.000000000000004 upper 0.500000000000000 rounds 1 False\n",
    status: Status::SomeFalse,
}];

#[test]
fn coalitions_are_answered(rt: HostRuntime) -> Result<(), Fail> {
    all_write(&rt, rt.alloc(), OF_THE_SECOND)
}

// This many workers find that the agreement is reached with probability at least eight tenths.
fn agree<R: Threads + Sync>(rt: &R, alloc: Global, workers: &str) -> Result<(), Fail> {
    let numbers = ["--workers", workers];
    let row = MOST_OF_AGREEMENT
        .asked("<<p1>> P>=0.8 [ \"ok\" U \"done\" ]")
        .with_numbers(&numbers);
    let (ended, written) = runs(rt, alloc, row, &OpenGate {})?;
    same(workers, ended, Status::Fine)?;
    holds(
        format_args!("{workers} workers say True"),
        written.ends_with(b" True\n"),
    )
}

#[test]
fn the_agreement_is_reached_with_eight_tenths(rt: HostRuntime) -> Result<(), Fail> {
    agree(&rt, rt.alloc(), "1")?;
    agree(&rt, rt.alloc(), "8")
}

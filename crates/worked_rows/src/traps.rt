//! These upper tables are lowered to the best exits of traps.

use crate::tables::{Audited, all_write, printed_are_audited};
use crate::{COIN_LOOP, Case, Command, GOAL_AT_1, Row};
use std::test::Fail;
use stogame_app::Status;

/// State 0 stays where it is, or tosses a coin between the goal, state 2, and a lost state. State 1 tosses until its
/// coin falls, so no small guess is inductive there.
pub const STAY_OR_COIN: &str =
    "4 5 8\n0 0 0 1\n0 1 2 0.5\n0 1 3 0.5\n1 0 1 0.5\n1 0 2 0.25\n1 0 3 0.25\n2 0 2 1\n3 0 3 1\n";

/// State 2 is the goal.
pub const GOAL_AT_2: &str = "0=\"init\" 1=\"goal\"\n0: 0\n2: 1\n";

/// Two players send each other to and fro. The first player, at state 0, may toss a coin instead, and the second
/// player, at state 1, may give the goal. State 2 tosses until its coin falls.
pub const TO_AND_FRO: &str =
    "5 7 10\n0 0 1 1\n0 1 3 0.5\n0 1 4 0.5\n1 0 0 1\n1 1 3 1\n2 0 2 0.5\n2 0 3 0.25\n2 0 4 0.25\n3 0 3 1\n4 0 4 1\n";

/// State 3 is the goal, and two states are initial.
pub const GOAL_AT_3: &str = "0=\"init\" 1=\"goal\"\n0: 0\n1: 0\n3: 1\n";

/// The second player owns state 1.
pub const SECOND_OWNS_1: &str = "0=\"p1\" 1=\"p2\"\n1: 1\n";

/// No round is made.
pub const NO_ROUNDS: &[&str] = &["--rounds", "0"];

/// No round is made, and the upper bounds of traps are lowered.
pub const TRAPS: &[&str] = &["--rounds", "0", "--traps"];

const TRAPS_AND_PLAN: &[&str] = &["--rounds", "0", "--traps", "--plan"];

const OF_STAY_OR_COIN: Row<'static> = Row {
    tra: STAY_OR_COIN,
    lab: GOAL_AT_2,
    own: None,
    formula: "Pmax=? [ F \"goal\" ]",
    numbers: NO_ROUNDS,
};

const OF_TO_AND_FRO: Row<'static> = Row {
    tra: TO_AND_FRO,
    lab: GOAL_AT_3,
    own: Some(SECOND_OWNS_1),
    formula: "<<p1>> Pmax=? [ F \"goal\" ]",
    numbers: NO_ROUNDS,
};

const BEST_EXIT: &[Case<'static>] = &[
    Case {
        command: Command::Check(OF_STAY_OR_COIN),
        text: "state 0 lower 0.000000000000004 upper 0.562949953421312 rounds 0 Bracket\n",
        status: Status::Fine,
    },
    Case {
        command: Command::Check(Row {
            numbers: TRAPS,
            ..OF_STAY_OR_COIN
        }),
        text: "state 0 lower 0.000000000000004 upper 0.500000000000000 rounds 0 Bracket\n",
        status: Status::Fine,
    },
];

#[test]
fn a_state_that_may_stay_has_its_best_exit(rt: HostRuntime) -> Result<(), Fail> {
    all_write(&rt, rt.alloc(), BEST_EXIT)
}

const BEST_EXIT_OF_THE_FIRST: &[Case<'static>] = &[
    Case {
        command: Command::Check(OF_TO_AND_FRO),
        text: "state 0 lower 0.000000000000004 upper 0.562949953421312 rounds 0 Bracket\nstate 1 lower 0.000000000000004 upper 0.562949953421312 rounds 0 Bracket\n",
        status: Status::Fine,
    },
    Case {
        command: Command::Check(Row {
            numbers: TRAPS,
            ..OF_TO_AND_FRO
        }),
        text: "state 0 lower 0.000000000000004 upper 0.500000000000000 rounds 0 Bracket\nstate 1 lower 0.000000000000004 upper 0.500000000000000 rounds 0 Bracket\n",
        status: Status::Fine,
    },
];

#[test]
fn two_players_have_the_best_exit_of_the_first(rt: HostRuntime) -> Result<(), Fail> {
    all_write(&rt, rt.alloc(), BEST_EXIT_OF_THE_FIRST)
}

const PLANNED: Row<'static> = Row {
    numbers: TRAPS_AND_PLAN,
    ..OF_STAY_OR_COIN
};

const PLANNED_OF_TWO: Row<'static> = Row {
    numbers: TRAPS_AND_PLAN,
    ..OF_TO_AND_FRO
};

const LOWERED: &[Audited<'static>] = &[
    (
        Command::Check(PLANNED),
        PLANNED,
        "state 0 lower 0.000000000000004 upper 0.500000000000000 audited Bracket\n",
        Status::Fine,
    ),
    (
        Command::Check(PLANNED_OF_TWO),
        PLANNED_OF_TWO,
        "state 0 lower 0.000000000000004 upper 0.500000000000000 audited Bracket\nstate 1 lower 0.000000000000004 upper 0.500000000000000 audited Bracket\n",
        Status::Fine,
    ),
];

#[test]
fn lowered_certificates_are_accepted(rt: HostRuntime) -> Result<(), Fail> {
    printed_are_audited(&rt, rt.alloc(), LOWERED)
}

// The coin loop has an exit at each toss, so it is no trap.
const NO_TRAP: &[Case<'static>] = &[Case {
    command: Command::Check(Row {
        tra: COIN_LOOP,
        lab: GOAL_AT_1,
        own: None,
        formula: "P>=0.3 [ F \"goal\" ]",
        numbers: TRAPS,
    }),
    text: "state 0 lower 0.000000000000004 upper 0.562949953421312 rounds 0 Undecided\n",
    status: Status::SomeUndecided,
}];

#[test]
fn where_there_is_no_trap_the_upper_table_stays(rt: HostRuntime) -> Result<(), Fail> {
    all_write(&rt, rt.alloc(), NO_TRAP)
}

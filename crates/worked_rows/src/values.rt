//! These are the values of models.

use crate::models::{FORK, GOAL_AT_2, TWO_PLAYERS};
use crate::tables::all_write;
use crate::{
    COIN_LOOP_REPORT, Case, Command, MOST_OF_AGREEMENT, MOST_OF_COIN_LOOP, ONE_WORKER, Row,
    SECOND_OWNS_1,
};
use std::test::Fail;
use stogame_app::Status;

const ONE_HALF: &[Case<'static>] = &[
    Case {
        command: Command::Check(MOST_OF_COIN_LOOP),
        text: COIN_LOOP_REPORT,
        status: Status::Fine,
    },
    Case {
        command: Command::Check(Row {
            lab: "0=\"init\" 1=\"goal\"\n1: 0 1\n",
            ..MOST_OF_COIN_LOOP
        }),
        text: "state 1 lower 1.000000000000000 upper 1.000000000000000 rounds 50 Bracket\n",
        status: Status::Fine,
    },
    Case {
        command: Command::Check(Row {
            lab: "0=\"init\" 1=\"goal\"\n2: 0\n0: 0\n1: 1\n",
            ..MOST_OF_COIN_LOOP
        }),
        text: "state 0 lower 0.500000000000000 upper 0.500000000000000 rounds 50 Bracket\nstate 2 lower 0.000000000000000 upper 0.000000000000000 rounds 50 Bracket\n",
        status: Status::Fine,
    },
];

#[test]
fn the_coin_loop_has_one_half(rt: HostRuntime) -> Result<(), Fail> {
    all_write(&rt, rt.alloc(), ONE_HALF)
}

const ZERO: &str = "state 0 lower 0.000000000000000 upper 0.000000000000000 rounds 1 Bracket\n";

const OF_VALUE_0: &[Case<'static>] = &[
    Case {
        command: Command::Check(Row {
            tra: "1 0 0\n",
            lab: "0=\"init\" 1=\"goal\"\n0: 0\n",
            ..MOST_OF_COIN_LOOP
        }),
        text: ZERO,
        status: Status::Fine,
    },
    Case {
        command: Command::Check(Row {
            tra: FORK,
            formula: "Pmin=? [ F \"goal\" ]",
            ..MOST_OF_COIN_LOOP
        }),
        text: ZERO,
        status: Status::Fine,
    },
];

#[test]
fn states_of_value_0_have_the_upper_bound_0(rt: HostRuntime) -> Result<(), Fail> {
    all_write(&rt, rt.alloc(), OF_VALUE_0)
}

// In these models state 0 goes to the goal, state 1, and to other states.
const THIRDS: &str =
    "4 4 6\n0 0 1 0.33333333333333331\n0 0 2 0.33333333333333331\n0 0 3 0.33333333333333331\n1 0 1 1\n2 0 2 1\n3 0 3 1\n";

const CHAIN: &str = "3 4\r\n0 1 0.3\r\n0 2 0.7\r\n1 1 1\r\n2 2 1\r\n\r\n\r\n";

const MIXED: &str =
    "3 4 8\n0 0 1 1e-05\n0 0 2 0.99999\n0 1 1 1/3\n0 1 2 1/3\n0 1 2 1/3\n0 1 0 0\n1 0 1 1\n2 0 2 1\n";

const ROUNDED: &str = "3 3 4\n0 0 1 0.5\n0 0 2 0.50001\n1 0 1 1\n2 0 2 1\n";

const FINE: &str =
    "3 3 4\n0 0 1 0.00000000000000000000001\n0 0 2 0.99999999999999999999999\n1 0 1 1\n2 0 2 1\n";

const WIDE: &str =
    "3 3 4\n0 0 1 0.333333333333333333333\n0 0 2 0.666666666666666666667\n1 0 1 1\n2 0 2 1\n";

const EXACT: &[Case<'static>] = &[
    Case {
        command: Command::Check(Row {
            tra: THIRDS,
            ..MOST_OF_COIN_LOOP
        }),
        text: "state 0 lower 0.333333333333333 upper 0.333333333333334 rounds 2 Bracket\n",
        status: Status::Fine,
    },
    Case {
        command: Command::Check(Row {
            tra: CHAIN,
            ..MOST_OF_COIN_LOOP
        }),
        text: "state 0 lower 0.300000000000000 upper 0.300000000000000 rounds 2 Bracket\n",
        status: Status::Fine,
    },
    Case {
        command: Command::Check(Row {
            tra: MIXED,
            ..MOST_OF_COIN_LOOP
        }),
        text: "state 0 lower 0.333333333333333 upper 0.333333333333334 rounds 2 Bracket\n",
        status: Status::Fine,
    },
    Case {
        command: Command::Check(Row {
            tra: MIXED,
            formula: "Pmin=? [ F \"goal\" ]",
            ..MOST_OF_COIN_LOOP
        }),
        text: "state 0 lower 0.000010000000000 upper 0.000010000000000 rounds 2 Bracket\n",
        status: Status::Fine,
    },
    Case {
        command: Command::Check(Row {
            tra: ROUNDED,
            ..MOST_OF_COIN_LOOP
        }),
        text: "state 0 lower 0.499995000049999 upper 0.499995000050000 rounds 2 Bracket\n",
        status: Status::Fine,
    },
    Case {
        command: Command::Check(Row {
            tra: FINE,
            ..MOST_OF_COIN_LOOP
        }),
        text: "state 0 lower 0.000000000000000 upper 0.000000000000001 rounds 2 Bracket\n",
        status: Status::Fine,
    },
    Case {
        command: Command::Check(Row {
            tra: WIDE,
            ..MOST_OF_COIN_LOOP
        }),
        text: "state 0 lower 0.333333333333333 upper 0.333333333333334 rounds 2 Bracket\n",
        status: Status::Fine,
    },
];

#[test]
fn decimals_and_fractions_are_exact(rt: HostRuntime) -> Result<(), Fail> {
    all_write(&rt, rt.alloc(), EXACT)
}

const OF_PLAYERS: &[Case<'static>] = &[
    Case {
        command: Command::Check(Row {
            tra: TWO_PLAYERS,
            lab: GOAL_AT_2,
            own: Some(SECOND_OWNS_1),
            formula: "<<p1>> Pmax=? [ F \"goal\" ]",
            numbers: ONE_WORKER,
        }),
        text: "state 0 lower 0.650000000000000 upper 0.650000000000000 rounds 3 Bracket\n",
        status: Status::Fine,
    },
    Case {
        command: Command::Check(MOST_OF_AGREEMENT),
        text: "state 0 lower 0.839999999999999 upper 0.840000000000000 rounds 24 Bracket\n",
        status: Status::Fine,
    },
];

#[test]
fn coalitions_choose_at_the_states_of_their_players(rt: HostRuntime) -> Result<(), Fail> {
    all_write(&rt, rt.alloc(), OF_PLAYERS)
}

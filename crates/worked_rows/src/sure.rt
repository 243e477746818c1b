//! From these states the goal is reached almost surely.

use crate::models::FORK;
use crate::tables::all_write;
use crate::{Case, Command, MOST_OF_AGREEMENT, MOST_OF_COIN_LOOP, Row};
use std::test::Fail;
use stogame_app::Status;

// A coin is tossed until it falls on the goal.
const COIN: &str = "3 3 4\n0 0 0 0.5\n0 0 1 0.5\n1 0 1 1\n2 0 2 1\n";

// State 0 may wait, or toss a coin that may fall on the trap.
const WAIT_OR_COIN: &str = "3 4 5\n0 0 0 1\n0 1 1 0.5\n0 1 2 0.5\n1 0 1 1\n2 0 2 1\n";

const OF_COIN: Row<'static> = Row {
    tra: COIN,
    ..MOST_OF_COIN_LOOP
};

const OF_FORK: Row<'static> = Row {
    tra: FORK,
    ..MOST_OF_COIN_LOOP
};

const OF_WAIT_OR_COIN: Row<'static> = Row {
    tra: WAIT_OR_COIN,
    ..MOST_OF_COIN_LOOP
};

const SURE_STATES: &[Case<'static>] = &[
    Case {
        command: Command::Sure(MOST_OF_COIN_LOOP),
        text: "sure 1 of 3\n1\n",
        status: Status::SomeFalse,
    },
    Case {
        command: Command::Sure(OF_COIN),
        text: "sure 2 of 3\n0\n1\n",
        status: Status::Fine,
    },
    Case {
        command: Command::Sure(OF_FORK),
        text: "sure 2 of 3\n0\n1\n",
        status: Status::Fine,
    },
    Case {
        command: Command::Sure(Row {
            formula: "Pmin=? [ F \"goal\" ]",
            ..OF_FORK
        }),
        text: "sure 1 of 3\n1\n",
        status: Status::SomeFalse,
    },
    Case {
        command: Command::Sure(OF_WAIT_OR_COIN),
        text: "sure 1 of 3\n1\n",
        status: Status::SomeFalse,
    },
    // Only the side of the threshold counts: what has to hold for every strategy is asked of the worst one.
    Case {
        command: Command::Sure(Row {
            formula: "P<0.2 [ F \"goal\" ]",
            ..OF_FORK
        }),
        text: "sure 2 of 3\n0\n1\n",
        status: Status::Fine,
    },
    Case {
        command: Command::Sure(Row {
            formula: "P>0.2 [ F \"goal\" ]",
            ..OF_FORK
        }),
        text: "sure 1 of 3\n1\n",
        status: Status::SomeFalse,
    },
    Case {
        command: Command::Sure(Row {
            formula: "Pmax=? [ F \"none\" ]",
            ..OF_FORK
        }),
        text: "refused question line 0 UnknownLabel none\n",
        status: Status::ModelRefused,
    },
    Case {
        command: Command::Sure(Row {
            formula: "Pmax=? [ F<=2 \"goal\" ]",
            ..OF_FORK
        }),
        text: "refused question line 0 WrongKind\n",
        status: Status::ModelRefused,
    },
    Case {
        command: Command::Sure(Row {
            formula: "Pmax=? [ G \"goal\" ]",
            ..OF_FORK
        }),
        text: "refused question line 0 WrongKind\n",
        status: Status::ModelRefused,
    },
];

#[test]
fn sure_states_are_listed(rt: HostRuntime) -> Result<(), Fail> {
    all_write(&rt, rt.alloc(), SURE_STATES)
}

const SURE_OF_AGREEMENT: &[Case<'static>] = &[Case {
    command: Command::Sure(MOST_OF_AGREEMENT),
    text: "sure 5 of 12\n4\n6\n7\n8\n11\n",
    status: Status::SomeFalse,
}];

#[test]
fn sure_states_of_a_game_are_listed(rt: HostRuntime) -> Result<(), Fail> {
    all_write(&rt, rt.alloc(), SURE_OF_AGREEMENT)
}

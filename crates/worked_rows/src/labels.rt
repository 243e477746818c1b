//! These label files, owner files and questions are refused.

use crate::models::{GOAL_AT_2, TWO_PLAYERS};
use crate::tables::all_write;
use crate::{Case, Command, MOST_OF_COIN_LOOP, Row};
use std::test::Fail;
use stogame_app::Status;

const HEADERS: &[Case<'static>] = &[
    Case {
        command: Command::Check(Row {
            lab: "\n0: 0\n",
            ..MOST_OF_COIN_LOOP
        }),
        text: "refused lab line 1 NoHeader\n",
        status: Status::ModelRefused,
    },
    Case {
        command: Command::Check(Row {
            lab: "0=init 1=\"goal\"\n0: 0\n",
            ..MOST_OF_COIN_LOOP
        }),
        text: "refused lab line 1 BadHeader\n",
        status: Status::ModelRefused,
    },
    Case {
        command: Command::Check(Row {
            lab: "0=\"init\" 0=\"goal\"\n0: 0\n",
            ..MOST_OF_COIN_LOOP
        }),
        text: "refused lab line 1 DoubleIndex\n",
        status: Status::ModelRefused,
    },
    Case {
        command: Command::Check(Row {
            lab: "0=\"init\" 1=\"init\"\n0: 0\n",
            ..MOST_OF_COIN_LOOP
        }),
        text: "refused lab line 1 DoubleName\n",
        status: Status::ModelRefused,
    },
    Case {
        command: Command::Check(Row {
            lab: "0=\"init\" 1000000=\"goal\"\n0: 0\n",
            ..MOST_OF_COIN_LOOP
        }),
        text: "refused lab line 1 OverLimit\n",
        status: Status::ModelRefused,
    },
];

#[test]
fn label_headers_are_refused(rt: HostRuntime) -> Result<(), Fail> {
    all_write(&rt, rt.alloc(), HEADERS)
}

const LINES: &[Case<'static>] = &[
    Case {
        command: Command::Check(Row {
            lab: "0=\"init\" 1=\"goal\"\n0 0\n",
            ..MOST_OF_COIN_LOOP
        }),
        text: "refused lab line 2 BadField\n",
        status: Status::ModelRefused,
    },
    Case {
        command: Command::Check(Row {
            lab: "0=\"init\" 1=\"goal\"\n0: 0\n\n1: 1\n",
            ..MOST_OF_COIN_LOOP
        }),
        text: "refused lab line 3 BadField\n",
        status: Status::ModelRefused,
    },
    Case {
        command: Command::Check(Row {
            lab: "0=\"init\" 1=\"goal\"\n0: 0\n3: 1\n",
            ..MOST_OF_COIN_LOOP
        }),
        text: "refused lab line 3 StateOutOfRange\n",
        status: Status::ModelRefused,
    },
    Case {
        command: Command::Check(Row {
            lab: "0=\"init\" 1=\"goal\"\n0: 0\n1: 7\n",
            ..MOST_OF_COIN_LOOP
        }),
        text: "refused lab line 3 UnknownIndex\n",
        status: Status::ModelRefused,
    },
];

#[test]
fn label_lines_are_refused(rt: HostRuntime) -> Result<(), Fail> {
    all_write(&rt, rt.alloc(), LINES)
}

const TWO_OWNERS: &[Case<'static>] = &[Case {
    command: Command::Check(Row {
        tra: TWO_PLAYERS,
        lab: GOAL_AT_2,
        own: Some("0=\"p1\" 1=\"p2\"\n1: 0\n1: 1\n"),
        ..MOST_OF_COIN_LOOP
    }),
    text: "refused own line 3 TwoOwners state 1\n",
    status: Status::ModelRefused,
}];

#[test]
fn two_owners_are_refused(rt: HostRuntime) -> Result<(), Fail> {
    all_write(&rt, rt.alloc(), TWO_OWNERS)
}

const QUESTIONS: &[Case<'static>] = &[
    Case {
        command: Command::Check(Row {
            formula: "Pmax=? [ F \"gaol\" ]",
            ..MOST_OF_COIN_LOOP
        }),
        text: "refused question line 0 UnknownLabel gaol\n",
        status: Status::ModelRefused,
    },
    Case {
        command: Command::Check(Row {
            formula: "<<q>> Pmax=? [ F \"goal\" ]",
            ..MOST_OF_COIN_LOOP
        }),
        text: "refused question line 0 UnknownPlayer q\n",
        status: Status::ModelRefused,
    },
    Case {
        command: Command::Check(Row {
            formula: "<<q>> P>=0.5 [ F \"goal\" ]",
            ..MOST_OF_COIN_LOOP
        }),
        text: "refused question line 0 UnknownPlayer q\n",
        status: Status::ModelRefused,
    },
    Case {
        command: Command::Check(Row {
            lab: "0=\"init\" 1=\"goal\"\n1: 1\n",
            ..MOST_OF_COIN_LOOP
        }),
        text: "refused question line 0 NoInit\n",
        status: Status::ModelRefused,
    },
];

#[test]
fn questions_are_refused(rt: HostRuntime) -> Result<(), Fail> {
    all_write(&rt, rt.alloc(), QUESTIONS)
}

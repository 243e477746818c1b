//! These are commands with what they write.

use crate::commands::Command;
use crate::models::{
    AGREEMENT, AGREEMENT_LABELS, AGREEMENT_OWNERS, COIN_LOOP, COIN_LOOP_REPORT, GOAL_AT_1,
    OF_THREE_STATES, USAGE,
};
use crate::printed_plans::{
    FIRST_OF_TWO_PLAYERS, LOOP_OR_COIN_PLAN, MOST_OF_LOOP_OR_COIN, TWO_PLAYERS_PLAN,
};
use crate::rows::{ONE_WORKER, Row};
use stogame_app::Status;

/// A case has a command, what it writes, and how it ends if no call fails.
#[derive(Clone, Copy)]
pub struct Case<'a> {
    pub command: Command<'a>,
    pub text: &'a str,
    pub status: Status,
}

/// The coin loop is asked for the greatest probability.
pub const MOST_OF_COIN_LOOP: Row<'static> = Row {
    tra: COIN_LOOP,
    lab: GOAL_AT_1,
    own: None,
    formula: "Pmax=? [ F \"goal\" ]",
    numbers: ONE_WORKER,
};

/// The agreement protocol is asked for the greatest probability of the first player.
pub const MOST_OF_AGREEMENT: Row<'static> = Row {
    tra: AGREEMENT,
    lab: AGREEMENT_LABELS,
    own: Some(AGREEMENT_OWNERS),
    formula: "<<p1>> Pmax=? [ \"ok\" U \"done\" ]",
    numbers: ONE_WORKER,
};

/// The coin loop is checked.
pub const CHECK_OF_COIN_LOOP: Case<'static> = Case {
    command: Command::Check(MOST_OF_COIN_LOOP),
    text: COIN_LOOP_REPORT,
    status: Status::Fine,
};

/// The agreement protocol is checked.
pub const CHECK_OF_AGREEMENT: Case<'static> = Case {
    command: Command::Check(MOST_OF_AGREEMENT),
    text: "state 0 lower 0.839999999999999 upper 0.840000000000000 rounds 24 Bracket\n",
    status: Status::Fine,
};

/// The loop or coin is checked, with its certificate.
pub const PLAN_OF_LOOP_OR_COIN: Case<'static> = Case {
    command: Command::Check(MOST_OF_LOOP_OR_COIN),
    text: LOOP_OR_COIN_PLAN,
    status: Status::Fine,
};

/// The certificate of the loop or coin is audited.
pub const AUDIT_OF_LOOP_OR_COIN: Case<'static> = Case {
    command: Command::Audit(MOST_OF_LOOP_OR_COIN, LOOP_OR_COIN_PLAN),
    text: "state 0 lower 0.500000000000000 upper 0.500000000000000 audited Bracket\n",
    status: Status::Fine,
};

/// The game of two players is checked, with its certificate.
pub const PLAN_OF_TWO_PLAYERS: Case<'static> = Case {
    command: Command::Check(FIRST_OF_TWO_PLAYERS),
    text: TWO_PLAYERS_PLAN,
    status: Status::Fine,
};

/// The certificate of the game of two players is audited.
pub const AUDIT_OF_TWO_PLAYERS: Case<'static> = Case {
    command: Command::Audit(FIRST_OF_TWO_PLAYERS, TWO_PLAYERS_PLAN),
    text: "state 0 lower 0.650000000000000 upper 0.650000000000000 audited True\n",
    status: Status::Fine,
};

/// The coin loop is checked with a state out of range.
pub const STATE_OUT_OF_RANGE: Case<'static> = Case {
    command: Command::Check(Row {
        tra: "3 3 5\n0 0 0 0.5\n0 0 1 0.25\n0 0 3 0.25\n1 0 1 1\n2 0 2 1\n",
        ..MOST_OF_COIN_LOOP
    }),
    text: "refused tra line 4 StateOutOfRange\n",
    status: Status::ModelRefused,
};

/// The coin loop is checked with its lines out of order, so that they are read twice.
pub const COIN_LOOP_OUT_OF_ORDER: Case<'static> = Case {
    command: Command::Check(Row {
        tra: "3 3 5\n2 0 2 1\n0 0 2 0.25\n1 0 1 1\n0 0 0 0.5\n0 0 1 0.25\n",
        ..MOST_OF_COIN_LOOP
    }),
    text: COIN_LOOP_REPORT,
    status: Status::Fine,
};

/// A text of another version is audited.
pub const OTHER_VERSION: Case<'static> = Case {
    command: Command::Audit(MOST_OF_LOOP_OR_COIN, "certificate 9 3\n"),
    text: "refused cert line 1 Version\n",
    status: Status::CertificateRefused,
};

/// A seed draws a game of three states.
pub const DRAWN_GAME: Case<'static> = Case {
    command: Command::Words(&["make", "1", "3"]),
    text: OF_THREE_STATES,
    status: Status::Fine,
};

/// These words denote no command.
pub const NO_COMMAND: Case<'static> = Case {
    command: Command::Words(&["make", "1"]),
    text: USAGE,
    status: Status::Usage,
};

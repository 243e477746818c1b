//! The program wrote these certificates when its values had 12 decimals. They still mean what they meant then.

use crate::tables::all_write;
use crate::{Case, Command, FIRST_OF_TWO_PLAYERS, MOST_OF_COIN_LOOP, MOST_OF_LOOP_OR_COIN};
use std::test::Fail;
use stogame_app::Status;

// This certificate is of the loop or coin.
const OLD_LOOP_OR_COIN_PLAN: &str =
    "state 0 lower 0.500000000000 upper 0.500000000000 rounds 2 Bracket\nformula Pmax=? [ F \"goal\" ]\ncertificate 1 3\n0 0.500000000000 1 1 0.500000000000 -\n1 1.000000000000 - 0 1.000000000000 -\n2 0.000000000000 - 0 0.000000000000 -\n";

// This certificate is of the coin loop, whose value is met from below only in the limit.
const OLD_COIN_LOOP_PLAN: &str =
    "state 0 lower 0.499999999999 upper 0.500000000000 rounds 40 Bracket\nformula Pmax=? [ F \"goal\" ]\ncertificate 1 3\n0 0.499999999999 0 1 0.500000000000 -\n1 1.000000000000 - 0 1.000000000000 -\n2 0.000000000000 - 0 0.000000000000 -\n";

// This certificate is of the game of two players.
const OLD_TWO_PLAYERS_PLAN: &str =
    "state 0 lower 0.650000000000 upper 0.650000000000 rounds 1 True\nformula <<p1>> P>=3/5 [ F \"goal\" ]\ncertificate 1 4\n0 0.650000000000 1 1 0.650000000000 -\n1 0.200000000000 - 1 0.200000000000 1\n2 1.000000000000 - 0 1.000000000000 -\n3 0.000000000000 - 0 0.000000000000 -\n";

const ACCEPTED: &[Case<'static>] = &[
    Case {
        command: Command::Audit(MOST_OF_LOOP_OR_COIN, OLD_LOOP_OR_COIN_PLAN),
        text: "state 0 lower 0.500000000000000 upper 0.500000000000000 audited Bracket\n",
        status: Status::Fine,
    },
    Case {
        command: Command::Audit(MOST_OF_COIN_LOOP, OLD_COIN_LOOP_PLAN),
        text: "state 0 lower 0.499999999999000 upper 0.500000000000000 audited Bracket\n",
        status: Status::Fine,
    },
    Case {
        command: Command::Audit(FIRST_OF_TWO_PLAYERS, OLD_TWO_PLAYERS_PLAN),
        text: "state 0 lower 0.650000000000000 upper 0.650000000000000 audited True\n",
        status: Status::Fine,
    },
];

#[test]
fn old_certificates_are_accepted(rt: HostRuntime) -> Result<(), Fail> {
    all_write(&rt, rt.alloc(), ACCEPTED)
}

const TOO_HIGH: &[Case<'static>] = &[Case {
    command: Command::Audit(
        MOST_OF_LOOP_OR_COIN,
        "certificate 1 3\n0 0.500000000001 1 1 0.500000000001 -\n1 1.000000000000 - 0 1.000000000000 -\n2 0.000000000000 - 0 0.000000000000 -\n",
    ),
    text: "refused cert line 0 Short state 0 choice 1\n",
    status: Status::CertificateRefused,
}];

#[test]
fn one_old_unit_too_many_is_refused(rt: HostRuntime) -> Result<(), Fail> {
    all_write(&rt, rt.alloc(), TOO_HIGH)
}

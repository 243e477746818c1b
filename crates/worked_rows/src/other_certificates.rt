//! These certificates were written for another formula or another model. Each is refused, or is also right there.

use crate::models::FORK;
use crate::printed_plans::MOST_OF_COIN_LOOP_WITH_PLAN;
use crate::tables::{Audited, all_write, printed_are_audited};
use crate::{Case, Command, FIRST_OF_TWO_PLAYERS, MOST_OF_LOOP_OR_COIN, Row};
use std::test::Fail;
use stogame_app::Status;

const LEAST: &str = "Pmin=? [ F \"goal\" ]";

// These models are asked for the least probability of reaching state 1, with the certificate.
const LEAST_OF_COIN_LOOP: Row<'static> = Row {
    formula: LEAST,
    ..MOST_OF_COIN_LOOP_WITH_PLAN
};

const LEAST_OF_LOOP_OR_COIN: Row<'static> = Row {
    formula: LEAST,
    ..MOST_OF_LOOP_OR_COIN
};

// The fork is asked for the greatest and for the least probability.
const MOST_OF_FORK: Row<'static> = Row {
    tra: FORK,
    ..MOST_OF_LOOP_OR_COIN
};

const LEAST_OF_FORK: Row<'static> = Row {
    formula: LEAST,
    ..MOST_OF_FORK
};

const NOT_FROM_THE_START: Row<'static> = Row {
    formula: "Pmax=? [ !\"init\" U \"goal\" ]",
    ..MOST_OF_FORK
};

const OF_ANOTHER_FORMULA: &[Audited<'static>] = &[
    (
        Command::Check(MOST_OF_FORK),
        LEAST_OF_FORK,
        "refused cert line 0 Reply state 0\n",
        Status::CertificateRefused,
    ),
    (
        Command::Check(LEAST_OF_FORK),
        MOST_OF_FORK,
        "refused cert line 0 Above state 0 choice 0\n",
        Status::CertificateRefused,
    ),
    (
        Command::Check(MOST_OF_COIN_LOOP_WITH_PLAN),
        LEAST_OF_COIN_LOOP,
        "refused cert line 0 Reply state 0\n",
        Status::CertificateRefused,
    ),
    (
        Command::Check(LEAST_OF_COIN_LOOP),
        MOST_OF_COIN_LOOP_WITH_PLAN,
        "refused cert line 0 Choice state 0\n",
        Status::CertificateRefused,
    ),
    (
        Command::Check(MOST_OF_FORK),
        NOT_FROM_THE_START,
        "refused cert line 0 Value state 0\n",
        Status::CertificateRefused,
    ),
];

#[test]
fn a_certificate_of_the_most_is_none_of_the_least(rt: HostRuntime) -> Result<(), Fail> {
    printed_are_audited(&rt, rt.alloc(), OF_ANOTHER_FORMULA)
}

const OF_ANOTHER_MODEL: &[Audited<'static>] = &[
    (
        Command::Check(MOST_OF_COIN_LOOP_WITH_PLAN),
        MOST_OF_LOOP_OR_COIN,
        "refused cert line 0 NoStep state 0 choice 0\n",
        Status::CertificateRefused,
    ),
    (
        Command::Check(MOST_OF_LOOP_OR_COIN),
        MOST_OF_COIN_LOOP_WITH_PLAN,
        "refused cert line 0 Choice state 0\n",
        Status::CertificateRefused,
    ),
    (
        Command::Check(MOST_OF_LOOP_OR_COIN),
        MOST_OF_FORK,
        "refused cert line 0 Above state 0 choice 0\n",
        Status::CertificateRefused,
    ),
    (
        Command::Check(LEAST_OF_LOOP_OR_COIN),
        LEAST_OF_COIN_LOOP,
        "refused cert line 0 NoReply state 0\n",
        Status::CertificateRefused,
    ),
    (
        Command::Check(LEAST_OF_FORK),
        LEAST_OF_LOOP_OR_COIN,
        "refused cert line 0 Reply state 0\n",
        Status::CertificateRefused,
    ),
    (
        Command::Check(FIRST_OF_TWO_PLAYERS),
        MOST_OF_COIN_LOOP_WITH_PLAN,
        "refused cert line 3 StateCount\n",
        Status::CertificateRefused,
    ),
];

#[test]
fn a_certificate_of_another_model_is_refused(rt: HostRuntime) -> Result<(), Fail> {
    printed_are_audited(&rt, rt.alloc(), OF_ANOTHER_MODEL)
}

// These bounds are so loose that they are right for two models.
const LOOSE: &str =
    "certificate 2 3\n0 0.000000000000000 - 0 0.562949953421312 -\n1 1.000000000000000 - 0 1.000000000000000 -\n2 0.000000000000000 - 0 0.000000000000000 -\n";

const OF_TWO_MODELS: &[Case<'static>] = &[
    Case {
        command: Command::Audit(MOST_OF_COIN_LOOP_WITH_PLAN, LOOSE),
        text: "state 0 lower 0.000000000000000 upper 0.562949953421312 audited Bracket\n",
        status: Status::Fine,
    },
    Case {
        command: Command::Audit(MOST_OF_LOOP_OR_COIN, LOOSE),
        text: "state 0 lower 0.000000000000000 upper 0.562949953421312 audited Bracket\n",
        status: Status::Fine,
    },
];

const RIGHT_ELSEWHERE: &[Audited<'static>] = &[
    (
        Command::Check(FIRST_OF_TWO_PLAYERS),
        Row {
            formula: "<<p1>> P>=0.7 [ F \"goal\" ]",
            ..FIRST_OF_TWO_PLAYERS
        },
        "state 0 lower 0.650000000000000 upper 0.650000000000000 audited False\n",
        Status::SomeFalse,
    ),
    (
        Command::Check(FIRST_OF_TWO_PLAYERS),
        Row {
            formula: "<<p1>> P>0.65 [ F \"goal\" ]",
            ..FIRST_OF_TWO_PLAYERS
        },
        "state 0 lower 0.650000000000000 upper 0.650000000000000 audited False\n",
        Status::SomeFalse,
    ),
    (
        Command::Check(FIRST_OF_TWO_PLAYERS),
        Row {
            formula: "<<p1>> Pmax=? [ F \"goal\" ]",
            ..FIRST_OF_TWO_PLAYERS
        },
        "state 0 lower 0.650000000000000 upper 0.650000000000000 audited Bracket\n",
        Status::Fine,
    ),
];

#[test]
fn a_certificate_that_is_right_elsewhere_is_accepted(rt: HostRuntime) -> Result<(), Fail> {
    all_write(&rt, rt.alloc(), OF_TWO_MODELS)?;
    printed_are_audited(&rt, rt.alloc(), RIGHT_ELSEWHERE)
}

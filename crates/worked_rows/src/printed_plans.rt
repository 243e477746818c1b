//! These are rows with a certificate, and certificates as they are printed.

use crate::models::{COIN_LOOP, GOAL_AT_1, GOAL_AT_2, LOOP_OR_COIN, SECOND_OWNS_1, TWO_PLAYERS};
use crate::rows::Row;

/// The words ask for one worker, and for the certificate.
pub const PLAN: &[&str] = &["--workers", "1", "--plan"];

/// The loop or coin is asked for the greatest probability, with its certificate.
pub const MOST_OF_LOOP_OR_COIN: Row<'static> = Row {
    tra: LOOP_OR_COIN,
    lab: GOAL_AT_1,
    own: None,
    formula: "Pmax=? [ F \"goal\" ]",
    numbers: PLAN,
};

/// The game of two players is asked for the first player's threshold, with its certificate.
pub const FIRST_OF_TWO_PLAYERS: Row<'static> = Row {
    tra: TWO_PLAYERS,
    lab: GOAL_AT_2,
    own: Some(SECOND_OWNS_1),
    formula: "<<p1>> P>=0.6 [ F \"goal\" ]",
    numbers: PLAN,
};

/// This is printed of the loop or coin.
pub const LOOP_OR_COIN_PLAN: &str =
    "state 0 lower 0.500000000000000 upper 0.500000000000000 rounds 2 Bracket\nformula Pmax=? [ F \"goal\" ]\ncertificate 2 3\n0 0.500000000000000 1 1 0.500000000000000 -\n1 1.000000000000000 - 0 1.000000000000000 -\n2 0.000000000000000 - 0 0.000000000000000 -\n";

/// This is printed of the first player's threshold.
pub const TWO_PLAYERS_PLAN: &str =
    "state 0 lower 0.650000000000000 upper 0.650000000000000 rounds 1 True\nformula <<p1>> P>=3/5 [ F \"goal\" ]\ncertificate 2 4\n0 0.650000000000000 1 1 0.650000000000000 -\n1 0.200000000000000 - 1 0.200000000000000 1\n2 1.000000000000000 - 0 1.000000000000000 -\n3 0.000000000000000 - 0 0.000000000000000 -\n";

/// The coin loop is asked for the greatest probability, with its certificate.
pub const MOST_OF_COIN_LOOP_WITH_PLAN: Row<'static> = Row {
    tra: COIN_LOOP,
    lab: GOAL_AT_1,
    own: None,
    formula: "Pmax=? [ F \"goal\" ]",
    numbers: PLAN,
};

//! These tests are of certificates as they are printed.

use crate::printed_plans::{LOOP_OR_COIN_PLAN, MOST_OF_COIN_LOOP_WITH_PLAN};
use crate::tables::all_write;
use crate::{Case, Command, PLAN_OF_LOOP_OR_COIN, PLAN_OF_TWO_PLAYERS};
use plan_text::{Plan, read_plan};
use sample_games::expectations::same;
use std::alloc::Global;
use std::test::Fail;
use stogame_app::Status;

// One half is met only in the limit: no number of rounds reaches it from below, and the ranks prove it.
const IN_THE_LIMIT: &[Case<'static>] = &[Case {
    command: Command::Check(MOST_OF_COIN_LOOP_WITH_PLAN),
    text: "state 0 lower 0.500000000000000 upper 0.500000000000000 rounds 50 Bracket\nformula Pmax=? [ F \"goal\" ]\ncertificate 2 3\n0 0.500000000000000 0 1 0.500000000000000 -\n1 1.000000000000000 - 0 1.000000000000000 -\n2 0.000000000000000 - 0 0.000000000000000 -\n",
    status: Status::Fine,
}];

#[test]
fn a_value_that_is_met_in_the_limit_has_its_certificate(rt: HostRuntime) -> Result<(), Fail> {
    all_write(&rt, rt.alloc(), IN_THE_LIMIT)
}

#[test]
fn a_plan_leaves_the_loop(rt: HostRuntime) -> Result<(), Fail> {
    all_write(&rt, rt.alloc(), &[PLAN_OF_LOOP_OR_COIN])
}

// The plan has the tables of the loop or coin, its choices and its ranks.
fn leaves_the_loop(plan: &Plan) -> Result<(), Fail> {
    let table = [500_000_000_000_000, 1_000_000_000_000_000, 0];
    same("the lower table", plan.lower.as_slice(), table.as_slice())?;
    same("the upper table", plan.upper.as_slice(), table.as_slice())?;
    let choices = [Some(1), None, None];
    same("the choices", plan.choices.as_slice(), choices.as_slice())?;
    same("the ranks", plan.ranks.as_slice(), [1, 0, 0].as_slice())?;
    let replies = [None, None, None];
    same("the replies", plan.replies.as_slice(), replies.as_slice())
}

fn is_read_back(alloc: Global) -> Result<(), Fail> {
    match read_plan(alloc, LOOP_OR_COIN_PLAN.as_bytes(), 3) {
        Ok(plan) => leaves_the_loop(&plan),
        Err(_) => Err(Fail::new("the certificate is refused")),
    }
}

#[test]
fn a_printed_plan_is_read_back(rt: HostRuntime) -> Result<(), Fail> {
    is_read_back(rt.alloc())
}

#[test]
fn both_players_have_their_choices(rt: HostRuntime) -> Result<(), Fail> {
    all_write(&rt, rt.alloc(), &[PLAN_OF_TWO_PLAYERS])
}

//! These are worked components.

ghost use Rattle.std.specs.Prelude.{◌≡◌, IfOk, length};
ghost use Rattle.components.specs.Division.{states_of};

use components::{Components, KeepsAll};
use game_model::{Game, Side};
use predecessors::ChoiceFlags;
use sample_games::expectations::{holds, same};
use sample_games::{coin_loop, game_of, question_of};
use std::alloc::Global;
use std::test::Fail;

/// Two states lead to each other and to a third state, and a fourth state leads to these.
fn way_to_a_cycle(alloc: Global) -> Result<Game, Fail>
    ensures { IfOk result (λ game. length game ≡ 4) }
{
    game_of(
        alloc,
        &[
            &[&[(1, 1), (3, 1)]],
            &[&[(2, 1)], &[(3, 1)]],
            &[&[(1, 1)]],
            &[&[(3, 1)]],
        ],
    )
}

#[test]
fn a_cycle_stands_behind_its_exit(rt: HostRuntime) -> Result<(), Fail> {
    check_way_to_a_cycle(rt.alloc(), &[], &[3, 1, 2, 0])
}

#[test]
fn members_stand_in_the_order_that_is_handed_in(rt: HostRuntime) -> Result<(), Fail> {
    check_way_to_a_cycle(rt.alloc(), &[2, 9, 2], &[3, 2, 1, 0])
}

/// With this order of states, the components of the way to a cycle have these members, one component after another.
fn check_way_to_a_cycle(alloc: Global, order: &[u32], members: &[u32]) -> Result<(), Fail> {
    let game = way_to_a_cycle(alloc)?;
    check(&game, alloc, order, &[2, 1, 1, 0], members)
}

#[test]
fn states_that_stay_are_components(rt: HostRuntime) -> Result<(), Fail> {
    let game = coin_loop(rt.alloc())?;
    check(&game, rt.alloc(), &[], &[2, 0, 1], &[1, 2, 0])
}

/// Over all choices each state has this component, and the components have these members, one component after another.
fn check(
    game: &Game,
    alloc: Global,
    order: &[u32],
    component: &[u32],
    members: &[u32],
) -> Result<(), Fail> {
    let question = question_of(alloc, game, Side::Max, 0)?;
    let found = Components::of_question(alloc, &question, &KeepsAll {}, order)?;
    have_numbers(alloc, &found, game.states(), component)?;
    have_members(alloc, &found, members)
}

/// The states have these components.
fn have_numbers(
    alloc: Global,
    found: &Components,
    states: u32,
    component: &[u32],
) -> Result<(), Fail>
    requires { states ≡ states_of found.now }
{
    let mut numbers = Vec::new(alloc);
    for state in 0..states {
        numbers.push(found.component_of(state))?;
    }
    same("components", numbers.as_slice(), component)
}

/// The components have these members, one component after another.
fn have_members(alloc: Global, found: &Components, members: &[u32]) -> Result<(), Fail> {
    let mut all = Vec::new(alloc);
    for number in 0..found.count() {
        all.extend_from_slice(found.members(number))?;
    }
    same("members", all.as_slice(), members)
}

#[test]
fn choices_that_are_not_kept_lead_nowhere(rt: HostRuntime) -> Result<(), Fail> {
    let alloc = rt.alloc();
    let game = way_to_a_cycle(alloc)?;
    let question = question_of(alloc, &game, Side::Max, 3)?;
    // All choices are kept except the one from state 1 to state 2.
    let kept = ChoiceFlags::of_game(
        alloc,
        &game,
        |state: u32, choice: u32| state != 1 || choice != 0,
    )?;
    let found = Components::of_question(alloc, &question, &kept, &[])?;
    same("components", found.count(), 4)?;
    holds(
        "1 stands before 2",
        found.component_of(1) < found.component_of(2),
    )
}

//! These tests draw games: they test the generator, a game worked out by hand, and the size of a large game.

ghost use Rattle.std.specs.Prelude.{◌<◌, ◌≤◌, length};
ghost use Rattle.drawn_game.specs.Limits.{least_states, most_seed};
ghost use Rattle.game_model.specs.Game.{choices_of};
ghost use Rattle.game_model.specs.Limits.{most_states};

use drawn_game::{Drawn, Draws, draw_game};
use game_model::{Game, Side};
use sample_games::expectations::same;
use std::alloc::{AllocError, Global};
use std::test::Fail;

#[test]
fn the_generator_gives_the_known_draw() -> Result<(), Fail> {
    // The C++ standard gives the 10,000th draw of `minstd_rand`, whose seed is 1.
    let mut draws = Draws::from_seed(1);
    for _draw in 1..10_000 {
        draws.draw();
    }
    same("draw", draws.draw(), 399_268_537)
}

// Writes a line for each state: its side, and for each choice the total and the edges.
fn text_of(alloc: Global, drawn: &Drawn) -> Result<String, AllocError> {
    let mut text = String::new(alloc);
    for state in 0..drawn.game().states() {
        add_state_text(alloc, drawn, state, &mut text)?;
    }
    Ok(text)
}

// Adds the line of a state.
fn add_state_text(
    alloc: Global,
    drawn: &Drawn,
    state: u32,
    text: &mut String,
) -> Result<(), AllocError>
    requires { state < length drawn.now.game }
{
    drawn.invariant();
    let game = drawn.game();
    text.push_str(side_text(drawn.sides()[state as usize]))?;
    for choice in 0..game.choices_of(state) {
        add_choice_text(alloc, game, state, choice, text)?;
    }
    text.push('\n')
}

fn side_text(side: Side) -> &'static str {
    match side {
        Side::Max => "Max",
        Side::Min => "Min",
    }
}

// Adds the total of a choice and its edges.
fn add_choice_text(
    alloc: Global,
    game: &Game,
    state: u32,
    choice: u32,
    text: &mut String,
) -> Result<(), AllocError>
    requires state { state < length game.now }
    requires choice { choice < length (choices_of game.now state) }
{
    add_total_text(alloc, game.total(state, choice), text)?;
    for place in 0..game.edge_count(state, choice) {
        let edge = game.edge(state, choice, place);
        add_edge_text(alloc, edge.to as usize, edge.weight, text)?;
    }
    text.push(';')
}

fn add_total_text(alloc: Global, total: u128, text: &mut String) -> Result<(), AllocError> {
    text.push_str(format!(in alloc; " {total}")?.as_str())
}

fn add_edge_text(
    alloc: Global,
    to: usize,
    weight: u128,
    text: &mut String,
) -> Result<(), AllocError> {
    text.push_str(format!(in alloc; " {to}:{weight}")?.as_str())
}

// Writes the text of the game that is drawn.
fn drawn_text(alloc: Global, seed: u32, states: u32) -> Result<String, Fail>
    requires seed { (1 ≤ seed) × (seed ≤ most_seed) }
    requires states { (least_states ≤ states) × (states ≤ most_states) }
{
    let drawn = draw_game(alloc, seed, states)?;
    Ok(text_of(alloc, &drawn)?)
}

#[test]
fn the_worked_row_is_drawn(rt: HostRuntime) -> Result<(), Fail> {
    let text = drawn_text(rt.alloc(), 1, 3)?;
    same(
        "text",
        text.as_str(),
        "Min 17 1:8 2:9;\nMax 1 1:1;\nMax 1 2:1;\n",
    )
}

#[test]
fn many_states_are_drawn(rt: HostRuntime) -> Result<(), Fail> {
    // The numbers are those of a plain reading of the rules in another language.
    check_sizes(rt.alloc(), 1, 100_000, (200_100, 600_562))
}

/// The drawn game has this many states, and this many choices and edges in all.
fn check_sizes(alloc: Global, seed: u32, states: u32, wanted: (u64, u64)) -> Result<(), Fail>
    requires seed { (1 ≤ seed) × (seed ≤ most_seed) }
    requires states { (least_states ≤ states) × (states ≤ most_states) }
{
    let drawn = draw_game(alloc, seed, states)?;
    let game = drawn.game();
    let count = game.states();
    same(
        "states, choices, edges",
        (count, game.choices_below(count), game.edges_below(count)),
        (states, wanted.0, wanted.1),
    )
}

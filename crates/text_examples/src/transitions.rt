//! Texts are read as games.

use game_model::Game;
use sample_games::expectations::same;
use std::alloc::{AllocError, Global};
use std::test::Fail;
use text_lines::MOST_BYTES;
use tra_reader::{TraCause, TraFault, read_tra};

const COIN_LOOP: &[u8] = b"3 3 5\n0 0 0 0.5\n0 0 1 0.25\n0 0 2 0.25\n1 0 1 1\n2 0 2 1\n";

// Each text is given with the first choice of its game.
const CHOICES: &[(&[u8], &str)] = &[
    (COIN_LOOP, "4 0:2 1:1 2:1"),
    (
        b"3 4\r\n0 1 0.3\r\n0 2 0.7 a\r\n1 1 1\r\n2 2 1\r\n\r\n \r\n",
        "10 1:3 2:7",
    ),
    (
        b"2 2 5\n1 0 1 1 b\n0 0 1 1/3 a\n0 0 0 0 a\n0 0 1 1/3 a\n0 0 0 1/3 a",
        "3 0:1 1:2",
    ),
    (b"2 1 1\n1 0 0 1\n", "1 0:1"),
    (b"1 0 0", "1 0:1"),
];

// Writes the total of choice 0 of state 0, and its edges with their weights.
fn first_choice(alloc: Global, game: &Game) -> Result<String, AllocError> {
    game.invariant();
    let mut text = format!(in alloc; "{}", game.total(0, 0))?;
    for place in 0..game.edge_count(0, 0) {
        let edge = game.edge(0, 0, place);
        text.push_str(format!(in alloc; " {}:{}", edge.to, edge.weight)?.as_str())?;
    }
    Ok(text)
}

// Reads the game of a text.
fn game_of(alloc: Global, text: &[u8]) -> Result<Game, Fail> {
    if text.len() > MOST_BYTES {
        return Err(Fail::new("too long"));
    }
    Ok(read_tra(alloc, text)?)
}

// Writes the first choice of the game of a text.
fn choice_in(alloc: Global, text: &[u8]) -> Result<String, Fail> {
    let game = game_of(alloc, text)?;
    Ok(first_choice(alloc, &game)?)
}

#[test]
fn choices_are_read(rt: HostRuntime) -> Result<(), Fail> {
    for (text, wanted) in CHOICES {
        same("choice", choice_in(rt.alloc(), text)?.as_str(), *wanted)?;
    }
    Ok(())
}

fn fault_of(alloc: Global, text: &[u8]) -> Option<TraFault> {
    if text.len() > MOST_BYTES {
        return None;
    }
    read_tra(alloc, text).err()
}

#[test]
fn a_fault_of_shuffled_lines_has_its_line(rt: HostRuntime) -> Result<(), Fail> {
    let text = b"2 2 3\n0 0 0 0.5 a\n1 0 1 1 b\n0 0 1 0.5 b\n";
    let clash = TraFault {
        line: 4,
        cause: TraCause::ActionClash {
            state: 0,
            choice: 0,
        },
    };
    same("fault", fault_of(rt.alloc(), text), Some(clash))
}

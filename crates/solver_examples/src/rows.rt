//! These local games are made of rows: nodes, their choices, and where these lead.

use float_games::{Draft, FloatGame, UNIT};
use std::test::Fail;

/// A choice leads this way.
#[derive(Clone, Copy)]
pub(crate) enum Way {
    /// It leads to this node, with this weight.
    To(u32, f64),
    /// It leads out of the game, with this weight, and gives this share of the unit.
    Out(f64, f64),
}

/// Returns the game of a draft.
pub(crate) fn finished(draft: Draft) -> Result<FloatGame, Fail> {
    Ok(draft.finish().ok_or("no game")?)
}

/// Adds a node of this side with these choices.
pub(crate) fn add_node(draft: &mut Draft, maximises: bool, choices: &[&[Way]]) -> Result<(), Fail> {
    for ways in choices {
        add_choice(draft, ways)?;
    }
    draft.end_node(maximises)?;
    Ok(())
}

/// Adds a choice that leads these ways.
fn add_choice(draft: &mut Draft, ways: &[Way]) -> Result<(), Fail> {
    for way in ways {
        add_way(draft, *way)?;
    }
    let _is_in = draft.end_choice(0)?;
    Ok(())
}

/// Adds one way to the choice that is being made.
fn add_way(draft: &mut Draft, way: Way) -> Result<(), Fail> {
    match way {
        Way::To(node, weight) => draft.add_edge(node, weight)?,
        Way::Out(weight, share) => draft.add_exit(weight, share * UNIT),
    }
    Ok(())
}

// Two parties sign a contract.
use super::Model;
use crate::draft::Draft;
use game_model::Game;
use std::alloc::Global;

/// The protocol has this number of stages.
const STAGES: u32 = 200;

/// In this state a party has the advantage.
const ADVANTAGE: u32 = STAGES;

/// In this state no party has the advantage.
const FAIR: u32 = STAGES + 1;

/// The parties release secrets in turn. At each stage a party releases the next secret, which succeeds with probability
/// 0.9999, or stops. The last stage gives the advantage: a release with probability 0.9999, and a stop with probability
/// 0.5. A stop at an earlier stage is fair. The weights are per ten thousand. The goal is the advantage.
pub fn contract(alloc: Global) -> Option<Model> {
    let mut goal = vec![in alloc; false; FAIR as usize + 1].ok()?;
    goal[ADVANTAGE as usize] = true;
    Some(Model {
        game: protocol(alloc)?,
        goal,
    })
}

// Makes the game of the stages.
fn protocol(alloc: Global) -> Option<Game> {
    let mut draft = Draft::new(alloc, STAGES + 2);
    for stage in 0..STAGES - 1 {
        draft.two(alloc, &[(stage + 1, 9_999), (FAIR, 1)], &[(FAIR, 10_000)])?;
    }
    let last = [(ADVANTAGE, 9_999), (FAIR, 1)];
    draft.two(alloc, &last, &[(ADVANTAGE, 5_000), (FAIR, 5_000)])?;
    draft.one(alloc, &[(ADVANTAGE, 10_000)])?;
    draft.one(alloc, &[(FAIR, 10_000)])?;
    draft.game(alloc)
}

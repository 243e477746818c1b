//! This module has what proves that states are not finite.

use game_model::Marks;

/// These are the finite states of a question of rewards, and what proves that no other state is finite.
#[derive(Clone, Copy)]
pub struct AwayPlan<'a> {
    /// These states are finite.
    pub finite: &'a Marks,
    /// The maximiser plays these choices at the other states.
    pub choices: &'a [Option<u32>],
    /// The other states have these ranks.
    pub ranks: &'a [u32],
}

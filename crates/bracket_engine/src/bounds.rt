//! This module has the bracket that a run gives.

use plan_text::Plan;

/// A bracket has a plan of a question, whose tables lie on both sides of the values, and tells of the run that it comes
/// from.
#[derive(Drop)]
pub struct Bracket {
    /// The lower table is the lower guess of the base: k-step values come as near to it as one likes, for each state.
    /// The maximiser has a choice for each of its states that is neither goal nor dead and has a positive lower bound.
    /// The ranks and the choices prove the lower bounds. Each entry of the upper table is at least each k-step value of
    /// its state. The minimiser has a reply for each of its states that is neither goal nor dead, and holds the
    /// maximiser to the upper bounds with them.
    pub plan: Plan,
    /// The rounds reach this table from below: for some k, each entry is at most the k-step value of its state.
    pub base: Vec<u64>,
    /// This many rounds were completed on the question and on the swapped question.
    pub rounds: u32,
    /// This says whether the run is settled: no state's down value is above its entry, in the base and in the table of
    /// swapped values, which are lower bounds of the swapped question.
    pub stable: bool,
}

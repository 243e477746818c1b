//! A game is made from a draft.

ghost use Rattle.std.specs.Prelude.{◌≡◌, ◌+◌, ◌≤◌, IfOk, IfSome, OnOk, if◌then◌else◌};

use crate::game::{FloatGame, Lists, NO_MARK};
use game_outside::OutOfMemory;
use std::alloc::Global;

/// A draft has the nodes that have ended, the choices so far of the next node, and the sums of the next choice so far:
/// of its weights, of the weights that leave, and of these times their values, less what the choice costs.
///
/// The edges of a choice come first, and then its end. The choices of a node come first, and then its end. An edge back
/// to its own node is left out, and the rest is scaled up.
#[derive(Drop)]
pub struct Draft {
    lists: Lists,
    begin: usize,
    total: f64,
    left: f64,
    given: f64,
}

impl Draft {
    ghost use Rattle.float_games.specs.Nodes.{nodes_of, choices_of, ended_nodes, ended_choices};

    /// Makes an empty draft, with room for this many nodes, choices and edges. The only error of this and the other
    /// calls is that memory ran out. More than 2^32 - 1 choices or edges are the same error.
    pub fn new(
        alloc: Global,
        nodes: usize,
        choices: usize,
        edges: usize,
    ) -> Result<Draft, OutOfMemory>
        ensures nodes { IfOk result (λ d. ended_nodes d ≡ 0) }
        ensures choices { IfOk result (λ d. ended_choices d ≡ 0) }
    {
        let mut choice_starts = Vec::with_capacity(alloc, nodes.saturating_add(1))?;
        choice_starts.push(0)?;
        let mut edge_starts = Vec::with_capacity(alloc, choices.saturating_add(1))?;
        edge_starts.push(0)?;
        Ok(Draft {
            lists: Lists {
                choice_starts,
                edge_starts,
                to: Vec::with_capacity(alloc, edges)?,
                share: Vec::with_capacity(alloc, edges)?,
                gives: Vec::with_capacity(alloc, choices)?,
                leaves: Vec::with_capacity(alloc, choices)?,
                marks: Vec::with_capacity(alloc, choices)?,
                maximises: Vec::with_capacity(alloc, nodes)?,
            },
            begin: 0,
            total: 0.0,
            left: 0.0,
            given: 0.0,
        })
    }

    /// Returns how many choices have ended, which is the number of the next one.
    pub fn choices(&self) -> usize
        ensures { result ≡ ended_choices self.now }
    {
        self.lists.gives.len()
    }

    /// Adds an edge of the present choice to a node, with its weight. An edge to the present node is left out.
    pub fn add_edge(&mut self, to: u32, weight: f64) -> Result<(), OutOfMemory>
        ensures nodes { ended_nodes self.new ≡ ended_nodes self.old }
        ensures choices { ended_choices self.new ≡ ended_choices self.old }
    {
        if to as usize == self.lists.maximises.len() {
            return Ok(());
        }
        self.total += weight;
        self.lists.to.push(to)?;
        self.lists.share.push(weight)?;
        Ok(())
    }

    /// Adds an exit: the present choice leaves with this weight, and then gives this value in units.
    pub fn add_exit(&mut self, weight: f64, value: f64)
        ensures nodes { ended_nodes self.new ≡ ended_nodes self.old }
        ensures choices { ended_choices self.new ≡ ended_choices self.old }
    {
        self.total += weight;
        self.left += weight;
        self.given += weight * value;
    }

    /// Adds a cost: each time that the present choice is taken, it gives this many units less. The total is the sum of
    /// all its weights, those of edges to its own node among them.
    pub fn add_cost(&mut self, total: f64, cost: f64)
        ensures nodes { ended_nodes self.new ≡ ended_nodes self.old }
        ensures choices { ended_choices self.new ≡ ended_choices self.old }
    {
        self.given -= total * cost;
    }

    /// Ends the present choice: its weights become shares. The caller knows the choice by its mark, such as its place
    /// among the choices of its state. A choice that leads only to its own node is left out. The answer says whether
    /// the choice is in the game.
    pub fn end_choice(&mut self, mark: u32) -> Result<bool, OutOfMemory>
        ensures nodes { ended_nodes self.new ≡ ended_nodes self.old }
        ensures one { IfOk result (λ b. ended_choices self.new ≡ ended_choices self.old + (if b then 1 else 0)) }
    {
        let total = self.total;
        let is_in = 0.0 < total;
        if is_in {
            divide_from(&mut self.lists.share, self.begin, total);
            self.lists.gives.push(self.given / total)?;
            self.lists.leaves.push(self.left / total)?;
            self.lists.marks.push(mark)?;
            self.lists
                .edge_starts
                .push(number_of(self.lists.to.len())?)?;
        }
        self.begin = self.lists.to.len();
        self.total = 0.0;
        self.left = 0.0;
        self.given = 0.0;
        Ok(is_in)
    }

    /// Ends the present node, which this side owns. If it has no choice, it gets one that leaves with the value 0 and
    /// has no mark.
    pub fn end_node(&mut self, maximises: bool) -> Result<(), OutOfMemory>
        ensures one { OnOk result (ended_nodes self.new ≡ ended_nodes self.old + 1) }
        ensures kept { OnOk result (ended_choices self.old ≤ ended_choices self.new) }
        ensures few { OnOk result (ended_choices self.new ≤ ended_choices self.old + 1) }
    {
        if self.lists.choice_starts.last().copied() == Some(number_of(self.choices())?) {
            self.add_exit(1.0, 0.0);
            let _is_in = self.end_choice(NO_MARK)?;
        }
        let end = number_of(self.choices())?;
        self.lists.choice_starts.push(end)?;
        self.lists.maximises.push(maximises)?;
        Ok(())
    }

    /// Makes the game of the nodes that have ended. There is none if an edge leads to no node, or if there are 2^31
    /// nodes or more.
    pub fn finish(self) -> Option<FloatGame>
        ensures nodes { IfSome result (λ g. nodes_of g ≡ ended_nodes self) }
        ensures choices { IfSome result (λ g. choices_of g ≡ ended_choices self) }
    {
        FloatGame::checked(self.lists)
    }
}

/// Divides the entries from this place on.
fn divide_from(shares: &mut [f64], begin: usize, total: f64) {
    for place in begin..shares.len() {
        shares[place] /= total;
    }
}

/// Returns a number that fits 32 bits, or an error.
fn number_of(count: usize) -> Result<u32, OutOfMemory>
    ensures { IfOk result (λ n. n ≡ count) }
{
    if count > 4_294_967_295 {
        return Err(OutOfMemory {});
    }
    Ok(count as u32)
}

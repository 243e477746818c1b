//! A game is kept in flat lists.

ghost use Rattle.std.specs.Prelude.{◌≡◌, ◌+◌, ◌^◌, ◌<◌, ◌≤◌, ◌↔◌, ◌&&◌, true, false, EachIndex, IfOk, IfSome, IsTrue};
ghost use Rattle.float_games.specs.Owners.{is_among};
ghost use Rattle.std.specs.Prelude.{slice_index, vec_len};

use game_outside::OutOfMemory;
use std::alloc::Global;

/// A game of nodes, choices and edges is kept in flat lists. The choices of a node are those from its entry in
/// `choice_starts` up to the next entry. The edges of a choice are those from its entry in `edge_starts` up to the next
/// entry. A choice leaves with a share of probability, and its edges have the rest. It gives the sum of the values, in
/// units, to which it leaves, each times its share. Its mark says whose choice it is.
#[derive(Drop)]
pub struct FloatGame {
    pub(crate) choice_starts: Vec<u32>,
    pub(crate) edge_starts: Vec<u32>,
    pub(crate) to: Vec<u32>,
    pub(crate) share: Vec<f64>,
    pub(crate) gives: Vec<f64>,
    pub(crate) leaves: Vec<f64>,
    pub(crate) marks: Vec<u32>,
    pub(crate) maximises: Vec<bool>,
    pub(crate) both: bool,
    ghost few: { vec_len maximises < 2 ^ 31 },
    ghost nodes: { vec_len choice_starts ≡ vec_len maximises + 1 },
    ghost some: { vec_len maximises ≤ vec_len gives },
    ghost choices: { EachIndex choice_starts.items (λ k. slice_index choice_starts.items k ≤ vec_len gives) },
    ghost starts: { vec_len edge_starts ≡ vec_len gives + 1 },
    ghost left: { vec_len leaves ≡ vec_len gives },
    ghost marked: { vec_len marks ≡ vec_len gives },
    ghost edges: { EachIndex edge_starts.items (λ k. slice_index edge_starts.items k ≤ vec_len to) },
    ghost shares: { vec_len share ≡ vec_len to },
    ghost sides: { both ≡ (is_among true maximises.items && is_among false maximises.items) },
    ghost inside: { EachIndex to.items (λ k. slice_index to.items k < vec_len maximises) },
}

/// These are the lists of a game, which need not fit each other.
#[derive(Drop)]
pub(crate) struct Lists {
    pub choice_starts: Vec<u32>,
    pub edge_starts: Vec<u32>,
    pub to: Vec<u32>,
    pub share: Vec<f64>,
    pub gives: Vec<f64>,
    pub leaves: Vec<f64>,
    pub marks: Vec<u32>,
    pub maximises: Vec<bool>,
}

/// This mark says that a choice has none.
pub const NO_MARK: u32 = 4_294_967_295;

/// A game has fewer nodes.
const FEW: usize = 2_147_483_648;

impl FloatGame {
    ghost use Rattle.float_games.specs.Nodes.{nodes_of, choices_of, edges_of, mark_of, owner_of, has_both};

    /// Makes the game of these lists, if they fit each other and each index in them is in range.
    pub(crate) fn checked(lists: Lists) -> Option<FloatGame>
        ensures nodes { IfSome result (λ g. nodes_of g ≡ vec_len lists.maximises) }
        ensures choices { IfSome result (λ g. choices_of g ≡ vec_len lists.gives) }
    {
        let nodes = lists.maximises.len();
        let choices = lists.gives.len();
        let edges = lists.to.len();
        if nodes >= FEW
            || choices < nodes
            || lists.choice_starts.len().checked_sub(1) != Some(nodes)
        {
            return None;
        }
        if lists.edge_starts.len().checked_sub(1) != Some(choices) {
            return None;
        }
        if lists.leaves.len() != choices || lists.marks.len() != choices {
            return None;
        }
        if lists.share.len() != edges {
            return None;
        }
        if !are_at_most(&lists.choice_starts, choices) || !are_at_most(&lists.edge_starts, edges) {
            return None;
        }
        if !are_below(&lists.to, nodes) {
            return None;
        }
        let both = has(&lists.maximises, true) && has(&lists.maximises, false);
        Some(FloatGame {
            choice_starts: lists.choice_starts,
            edge_starts: lists.edge_starts,
            to: lists.to,
            share: lists.share,
            gives: lists.gives,
            leaves: lists.leaves,
            marks: lists.marks,
            maximises: lists.maximises,
            both,
        })
    }

    /// Returns how many nodes there are.
    pub fn nodes(&self) -> usize
        ensures value { result ≡ nodes_of self.now }
        ensures few { result < 2 ^ 31 }
    {
        self.maximises.len()
    }

    /// Returns how many choices there are.
    pub fn choices(&self) -> usize
        ensures { result ≡ choices_of self.now }
    {
        self.gives.len()
    }

    /// Returns how many edges there are.
    pub fn edges(&self) -> usize
        ensures { result ≡ edges_of self.now }
    {
        self.to.len()
    }

    /// Returns the mark of a choice, or [`NO_MARK`] if it is no choice of the game, or was added for a node that had
    /// none.
    pub fn mark(&self, choice: u32) -> u32
        ensures { result ≡ mark_of self.now choice }
    {
        self.marks.get(choice as usize).copied().unwrap_or(NO_MARK)
    }

    /// Returns whether both sides own nodes.
    pub fn has_both_sides(&self) -> bool
        ensures { result ≡ has_both self.now }
    {
        self.both
    }

    /// Returns whether the maximiser owns a node.
    pub fn maximises(&self, node: usize) -> bool
        requires { node < nodes_of self.now }
        ensures { owner_of self.now node ≡ Some result }
    {
        self.maximises[node]
    }

    /// Returns the policy of the first choices.
    pub fn first_policy(&self, alloc: Global) -> Result<Vec<u32>, OutOfMemory>
        ensures { IfOk result (λ p. vec_len p ≡ nodes_of self.now) }
    {
        let mut policy = Vec::with_capacity(alloc, self.maximises.len())?;
        for node in 0..self.maximises.len() {
            policy.push(self.choice_starts[node])?;
        }
        Ok(policy)
    }
}

/// Returns whether some entry is this one.
fn has(entries: &[bool], wanted: bool) -> bool
    ensures { result ≡ is_among wanted entries.now }
{
    entries.iter().any(|entry| *entry == wanted)
}

/// Returns whether each entry is at most this bound.
fn are_at_most(entries: &[u32], bound: usize) -> bool
    ensures { IsTrue result ↔ EachIndex entries.now (λ k. slice_index entries.now k ≤ bound) }
{
    entries.iter().all(|entry| *entry as usize <= bound)
}

/// Returns whether each entry is below this bound.
fn are_below(entries: &[u32], bound: usize) -> bool
    ensures { IsTrue result ↔ EachIndex entries.now (λ k. slice_index entries.now k < bound) }
{
    entries.iter().all(|entry| (*entry as usize) < bound)
}

//! This module puts edges in the order of their successors, and adds up the edges to one successor.

ghost use Rattle.std.specs.Prelude.{◌≡◌, ◌<◌, ◌≤◌, ◌+◌, ◌^◌, ◌++◌, ◌∷◌, [], ℕ, List, All, OnOk, IfOk, IsTrue};
ghost use Rattle.game_model.specs.declared.game.Edge.{Edge};
ghost use Rattle.game_model.specs.Game.{IsRising, no_edge, total_of, weight_to};
ghost use Rattle.distributions.specs.Parts.{gathered, keep_edge};
ghost use Rattle.distributions.specs.inside.Merging.{merged_from, StandFrom};
ghost use Rattle.game_model.specs.Rising.{RiseFrom};

use game_model::Edge;
use std::alloc::{AllocError, Global};

// Returns whether the successors of the edges rise, and none has weight 0.
fn is_gathered(edges: &[Edge]) -> bool
    ensures { IsTrue result → RiseFrom 0 edges.now }
{
    let mut least = 0;
    for edge in edges {
        if u64::from(edge.to) < least || edge.weight == 0 {
            return false;
        }
        least = u64::from(edge.to) + 1;
    }
    true
}

// Returns whether the edges are in the order of their successors.
fn is_ordered(edges: &[Edge]) -> bool
    ensures { IsTrue result → StandFrom 0 edges.now }
{
    let mut least = 0;
    for edge in edges {
        if edge.to < least {
            return false;
        }
        least = edge.to;
    }
    true
}

// Puts the edges in the order of their successors.
fn put_in_order(edges: &mut Vec<Edge>) -> Result<(), AllocError>
    ensures standing { OnOk result (StandFrom 0 edges.new.items) }
    ensures weights { OnOk result ((to : ℕ) → weight_to edges.new.items to ≡ weight_to edges.old.items to) }
    ensures total { OnOk result (total_of edges.new.items ≡ total_of edges.old.items) }
{
    if is_ordered(edges) {
        return Ok(());
    }
    edges.sort_by_key(|edge| edge.to)?;
    Ok(())
}

// Appends an edge, unless its weight is 0.
fn keep(edges: &mut Vec<Edge>, edge: Edge) -> Result<(), AllocError>
    ensures { OnOk result (edges.new.items ≡ edges.old.items ++ keep_edge edge.to edge.weight []) }
{
    if edge.weight > 0 {
        edges.push(edge)?;
    }
    Ok(())
}

// Adds an edge to the sum of the edges to one successor, or keeps that sum and begins a new one.
fn add_edge(merged: &mut Vec<Edge>, sum: Edge, edge: Edge) -> Result<Edge, AllocError>
    requires { sum.weight + edge.weight < 2 ^ 128 }
    ensures value { IfOk result (λ new. (rest : List Edge) → merged.new.items ++ merged_from new rest ≡ merged.old.items
        ++ merged_from sum (edge ∷ rest)) }
    ensures small { IfOk result (λ new. new.weight ≤ sum.weight + edge.weight) }
{
    if edge.to == sum.to {
        return Ok(Edge {
            to: sum.to,
            weight: sum.weight + edge.weight,
        });
    }
    keep(merged, sum)?;
    Ok(edge)
}

// Adds up neighbouring edges to one successor.
fn merge(alloc: Global, edges: &[Edge]) -> Result<Vec<Edge>, AllocError>
    requires { total_of edges.now < 2 ^ 128 }
    ensures { IfOk result (λ new. new.items ≡ merged_from no_edge edges.now) }
{
    let mut merged = Vec::new(alloc);
    let mut sum = Edge { to: 0, weight: 0 };
    for edge in edges {
        sum = add_edge(&mut merged, sum, *edge)?;
    }
    keep(&mut merged, sum)?;
    Ok(merged)
}

/// Puts the edges in the order of their successors. The edges to one successor are added up, and none has weight 0.
pub fn gather(alloc: Global, edges: &mut Vec<Edge>) -> Result<(), AllocError>
    requires { total_of edges.old.items < 2 ^ 128 }
    ensures value { OnOk result (edges.new.items ≡ gathered edges.old.items) }
    ensures total { OnOk result (total_of edges.new.items ≡ total_of edges.old.items) }
    ensures rising { OnOk result (IsRising edges.new.items) }
    ensures weighty { OnOk result (All (λ e. 1 ≤ e.weight) edges.new.items) }
{
    if is_gathered(edges) {
        return Ok(());
    }
    put_in_order(edges)?;
    if is_gathered(edges) {
        return Ok(());
    }
    let merged = merge(alloc, edges)?;
    *edges = merged;
    Ok(())
}

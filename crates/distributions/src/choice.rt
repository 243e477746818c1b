//! This module makes the distribution of a choice.

ghost use Rattle.std.specs.Prelude.{◌≡◌, ◌<◌, ◌≤◌, ◌*◌, ◌/◌, ◌^◌, ◌∷◌, [], IfOk, OnOk, Ok, All, length};
ghost use Rattle.std.specs.Option.{IfSome};
ghost use Prim.Native.Nat.{◌∣◌};
ghost use Rattle.game_model.specs.Game.{IsDistribution, IsRising, total_of};
ghost use Rattle.fractions.specs.Limits.{finest, most_value};
ghost use Rattle.fractions.specs.Fraction.{IsFraction};
ghost use Rattle.game_outside.specs.Answers.{AnswersOrWants};
ghost use Rattle.distributions.specs.Limits.{most_parts};
ghost use Rattle.distributions.specs.Parts.{choice_said, denominator_said, edge_of_part, weighted, sum_said, with_total, IsOutOfMemory};

use crate::gather::gather;
use crate::limits::TOLERANCE;
use fractions::{Frac, MOST_NARROW, least_common_multiple};
use game_model::{Choice, Edge};
use std::alloc::{AllocError, Global};

/// A part of a choice has a successor and its probability.
#[derive(Clone, Copy, Debug, PartialEq, Eq)]
pub struct Part {
    pub to: u32,
    pub share: Frac,
}

/// This says why parts make no choice: memory ran out, or the first reason in this order.
#[derive(Clone, Copy, Debug, PartialEq, Eq)]
pub enum ChoiceFault {
    OutOfMemory,
    /// The least common denominator passes 10^23: `first` is that of the parts before, and `second` is the denominator
    /// with which it passes 10^23.
    TooFine { first: u128, second: u128 },
    /// The sum of the weights misses the common denominator by more than one part in 100,000.
    BadSum { sum: u128, denominator: u128 },
}

/// Tells a proof which facts hold for every part. It does nothing.
pub fn shares_are_fractions(parts: &[Part])
    ensures { All (λ part. IsFraction part.share) parts.now }
{
    for part in parts {
        part.share.invariant();
    }
}

// Returns the least common multiple of the denominators.
#[tactic(auto, using(crate::proofs::Multiples::lcm_some))]
fn common_denominator(parts: &[Part]) -> Result<u128, ChoiceFault>
    ensures value { result ≡ denominator_said 1 parts.now }
    ensures positive { IfOk result (λ common. 1 ≤ common) }
    ensures fine { IfOk result (λ common. common ≤ finest) }
{
    let mut common = 1;
    for part in parts {
        let den = part.share.den();
        match least_common_multiple(common, den) {
            Some(multiple) => common = multiple,
            None => {
                return Err(ChoiceFault::TooFine {
                    first: common,
                    second: den,
                });
            }
        }
    }
    Ok(common)
}

// Returns how often a denominator goes into a common denominator.
fn factor_of(common: u128, den: u128) -> u128
    requires { 1 ≤ den }
    ensures { result ≡ common / den }
{
    if common == den {
        return 1;
    }
    if common <= MOST_NARROW && den <= MOST_NARROW {
        return u128::from(common as u64 / den as u64);
    }
    common / den
}

// Returns the edge of a part: its successor and its weight.
#[tactic(auto, using(crate::proofs::Multiples::share_weight, crate::proofs::Multiples::share_small))]
fn edge_of(common: u128, part: &Part) -> Edge
    requires divided { part.now.share.den ∣ common }
    requires fine { common ≤ finest }
    ensures value { result ≡ edge_of_part common part.now }
    ensures small { result.weight ≤ most_value * finest }
{
    let share = &part.share;
    Edge {
        to: part.to,
        weight: share.num() * factor_of(common, share.den()),
    }
}

// Puts the edges of the parts, one for each part, in place of those of a list.
fn weigh(edges: &mut Vec<Edge>, common: u128, parts: &[Part]) -> Result<(), AllocError>
    requires divided { All (λ part. part.share.den ∣ common) parts.now }
    requires fine { common ≤ finest }
    ensures value { OnOk result (edges.new.items ≡ weighted common parts.now) }
    ensures small { OnOk result (All (λ e. e.weight ≤ most_value * finest) edges.new.items) }
{
    edges.clear();
    for part in parts {
        edges.push(edge_of(common, part))?;
    }
    Ok(())
}

// Returns the total of these edges, if the sum of their weights is near the common denominator.
fn near_total(common: u128, edges: &[Edge]) -> Result<u128, ChoiceFault>
    requires positive { 1 ≤ common }
    requires fine { common ≤ finest }
    requires rising { IsRising edges.now }
    requires weighty { All (λ e. 1 ≤ e.weight) edges.now }
    requires small { total_of edges.now < 2 ^ 110 }
    ensures said { AnswersOrWants IsOutOfMemory (with_total edges.now) result (sum_said common edges.now) }
    ensures kept { IfOk result (λ total. IsDistribution (with_total edges.now total)) }
{
    let sum: u128 = edges.iter().map(|edge| edge.weight).sum();
    if sum.abs_diff(common) * TOLERANCE > common {
        return Err(ChoiceFault::BadSum {
            sum,
            denominator: common,
        });
    }
    Ok(sum)
}

// Returns the edge of a choice if its only part has the probability 1.
fn sure_edge(parts: &[Part]) -> Option<Edge>
    ensures said { IfSome result (λ edge. choice_said parts.now ≡ Ok (with_total (edge ∷ []) 1)) }
    ensures weight { IfSome result (λ edge. edge.weight ≡ 1) }
{
    let [part] = parts else {
        return None;
    };
    if part.share.num() != 1 || part.share.den() != 1 {
        return None;
    }
    Some(Edge {
        to: part.to,
        weight: 1,
    })
}

// Puts the edges of the choice with these parts in place of those of a list, and returns their total.
fn fill(alloc: Global, edges: &mut Vec<Edge>, parts: &[Part]) -> Result<u128, ChoiceFault>
    requires { length parts.now ≤ most_parts }
    ensures said { AnswersOrWants IsOutOfMemory (with_total edges.new.items) result (choice_said parts.now) }
    ensures kept { IfOk result (λ total. IsDistribution (with_total edges.new.items total)) }
{
    shares_are_fractions(parts);
    let common = match common_denominator(parts) {
        Ok(common) => common,
        Err(fault) => return Err(fault),
    };
    let Ok(()) = weigh(edges, common, parts) else {
        return Err(ChoiceFault::OutOfMemory);
    };
    let Ok(()) = gather(alloc, edges) else {
        return Err(ChoiceFault::OutOfMemory);
    };
    near_total(common, edges)
}

/// Puts the edges of the choice with these parts in place of those of a list, and returns their total, or the first
/// reason why the parts make no choice, as `make_choice` does. So one list serves choice after choice.
pub fn fill_choice(
    alloc: Global,
    edges: &mut Vec<Edge>,
    parts: &[Part],
) -> Result<u128, ChoiceFault>
    requires { length parts.now ≤ most_parts }
    ensures said { AnswersOrWants IsOutOfMemory (with_total edges.new.items) result (choice_said parts.now) }
    ensures kept { IfOk result (λ total. IsDistribution (with_total edges.new.items total)) }
{
    if let Some(edge) = sure_edge(parts) {
        edges.clear();
        let Ok(()) = edges.push(edge) else {
            return Err(ChoiceFault::OutOfMemory);
        };
        return Ok(1);
    }
    fill(alloc, edges, parts)
}

/// Returns the choice with these parts, or the first reason why they make none. The weight of a successor is the sum of
/// its parts over the common denominator. If the sum of the weights is near that denominator, the choice is divided by
/// their sum. The answer is the choice that the parts denote: `laws::said_is_denoted`.
pub fn make_choice(alloc: Global, parts: &[Part]) -> Result<Choice, ChoiceFault>
    requires { length parts.now ≤ most_parts }
    ensures { AnswersOrWants IsOutOfMemory (λ c. c) result (choice_said parts.now) }
{
    let mut edges = Vec::new(alloc);
    let _total = fill_choice(alloc, &mut edges, parts)?;
    Ok(Choice::of_edges(edges))
}

//! This module sums a choice over the lower and over the upper bounds, in one walk over its edges.

ghost use Rattle.std.specs.Prelude.{◌≡◌, ◌*◌, ◌^◌, ◌<◌, ◌≤◌, length, slice_index, All};
ghost use Rattle.game_model.specs.Game.{choice_among};
ghost use Rattle.game_model.specs.Limits.{unit, total_bound};
ghost use Rattle.game_model.specs.Rounded.{down_value, up_value};
ghost use Rattle.fixed_bellman.specs.Bounds.{lowers, uppers, AreUnits};
ghost use Rattle.fixed_bellman.specs.Quotients.{rounded_down, rounded_up};
ghost use Rattle.fixed_bellman.specs.Sums.{edges_of, weight_of_all, AreSums};

use crate::bounds::Bounds;
use crate::quotient::{MOST_NARROW, Quotient};
use game_model::Row;

/// Returns the values of a choice of a row over the lower and over the upper bounds, before they are rounded.
#[inline(always)]
pub fn quotients(row: &Row<'_>, choice: u32, table: &[Bounds]) -> (Quotient, Quotient)
    requires choice { choice < length row.now }
    requires inside { All (λ e. e.to < length table.now) (choice_among row.now choice).edges }
    requires units { All AreUnits table.now }
    ensures down { rounded_down result.0 ≡ down_value (slice_index (lowers table.now)) (choice_among row.now choice) }
    ensures up { rounded_up result.1 ≡ up_value (slice_index (uppers table.now)) (choice_among row.now choice) }
{
    row.invariant();
    let total = row.total(choice);
    let (lower, upper) = sums_of(row, choice, total, table);
    (Quotient::new(lower, total), Quotient::new(upper, total))
}

/// Returns the weighted sums of a choice, in the least width that its total allows.
#[inline(always)]
fn sums_of(row: &Row<'_>, choice: u32, total: u128, table: &[Bounds]) -> (u128, u128)
    requires choice { choice < length row.now }
    requires total { total ≡ (choice_among row.now choice).total }
    requires inside { All (λ e. e.to < length table.now) (choice_among row.now choice).edges }
    requires units { All AreUnits table.now }
    ensures { AreSums (choice_among row.now choice).edges table.now result.0 result.1 }
{
    row.invariant();
    if total >= 18_446_744_073_709_551_616 {
        return wide_sums(&row.again(), choice, table);
    }
    let successors = row.successors(choice);
    let weights = row.narrow_weights(choice);
    if total <= MOST_NARROW {
        let (lower, upper) = narrow_sums(successors, weights, table);
        return (u128::from(lower), u128::from(upper));
    }
    middle_sums(successors, weights, table)
}

/// Returns the weighted sums if products and sums fit 64 bits.
fn narrow_sums(successors: &[u32], weights: &[u64], table: &[Bounds]) -> (u64, u64)
    requires many { length weights.now ≡ length successors.now }
    requires inside { All (λ t. t < length table.now) successors.now }
    requires units { All AreUnits table.now }
    requires narrow { weight_of_all successors.now weights.now * unit < 2 ^ 64 }
    ensures { AreSums (edges_of successors.now weights.now) table.now result.0 result.1 }
{
    let mut lower: u64 = 0;
    let mut upper: u64 = 0;
    for (place, successor) in successors.iter().enumerate() {
        let bounds = table[*successor as usize];
        lower += weights[place] * bounds.lower;
        upper += weights[place] * bounds.upper;
    }
    (lower, upper)
}

/// Returns the weighted sums if weights fit 64 bits: each product is of two numbers of 64 bits.
fn middle_sums(successors: &[u32], weights: &[u64], table: &[Bounds]) -> (u128, u128)
    requires many { length weights.now ≡ length successors.now }
    requires inside { All (λ t. t < length table.now) successors.now }
    requires units { All AreUnits table.now }
    requires small { weight_of_all successors.now weights.now < total_bound }
    ensures { AreSums (edges_of successors.now weights.now) table.now result.0 result.1 }
{
    let mut lower: u128 = 0;
    let mut upper: u128 = 0;
    for (place, successor) in successors.iter().enumerate() {
        let bounds = table[*successor as usize];
        lower += u128::from(weights[place]) * u128::from(bounds.lower);
        upper += u128::from(weights[place]) * u128::from(bounds.upper);
    }
    (lower, upper)
}

/// Returns the weighted sums of a choice of any total.
#[inline(never)]
fn wide_sums(row: &Row<'_>, choice: u32, table: &[Bounds]) -> (u128, u128)
    requires choice { choice < length row.now }
    requires inside { All (λ e. e.to < length table.now) (choice_among row.now choice).edges }
    requires units { All AreUnits table.now }
    ensures { AreSums (choice_among row.now choice).edges table.now result.0 result.1 }
{
    row.invariant();
    let mut lower: u128 = 0;
    let mut upper: u128 = 0;
    for place in 0..row.edge_count(choice) {
        let edge = row.edge(choice, place);
        let bounds = table[edge.to as usize];
        lower += edge.weight * u128::from(bounds.lower);
        upper += edge.weight * u128::from(bounds.upper);
    }
    (lower, upper)
}

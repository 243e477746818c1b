//! This module takes the weighted sum of a choice, by the width that its total needs.

ghost use Rattle.std.specs.Prelude.{◌≡◌, ◌*◌, ◌^◌, ◌<◌, ◌≤◌, length, slice_index, All};
ghost use Rattle.game_model.specs.Game.{choice_among};
ghost use Rattle.game_model.specs.Limits.{unit, total_bound};
ghost use Rattle.game_model.specs.Rounded.{down_value, up_value};
ghost use Rattle.fixed_bellman.specs.Quotients.{rounded_down, rounded_up, IsBetween};
ghost use Rattle.fixed_bellman.specs.Sums.{edges_of, weight_of_all, IsSumBetween};

use crate::quotient::{MOST_NARROW, Quotient};
use crate::values::{Entries, Values};
use game_model::Row;

/// Returns the value of a choice of a row over values that may rise while they are read, before it is rounded.
#[inline(always)]
pub fn quotient<V: Values>(row: &Row<'_>, choice: u32, values: &V, pass: &mut V::Pass) -> Quotient
    requires choice { choice < length row.now }
    requires fits { All (λ e. V.fits values.now pass.old e.to) (choice_among row.now choice).edges }
    ensures onward { V.onward values.now pass.old pass.new }
    ensures between { IsBetween result (V.seen values.now pass.old) (V.seen values.now pass.new)
        (choice_among row.now choice) }
{
    row.invariant();
    let total = row.total(choice);
    let sum = sum_of(row, choice, total, values, pass);
    Quotient::new(sum, total)
}

/// Returns the value of a choice of a row over a table, before it is rounded.
#[inline(always)]
pub fn table_quotient(row: &Row<'_>, choice: u32, table: &[u64]) -> Quotient
    requires choice { choice < length row.now }
    requires inside { All (λ e. e.to < length table.now) (choice_among row.now choice).edges }
    requires units { All (λ v. v ≤ unit) table.now }
    ensures down { rounded_down result ≡ down_value (slice_index table.now) (choice_among row.now choice) }
    ensures up { rounded_up result ≡ up_value (slice_index table.now) (choice_among row.now choice) }
{
    let entries = Entries::new(table);
    quotient(row, choice, &entries, &mut ())
}

/// Returns the weighted sum of a choice, in the least width that its total allows.
#[inline(always)]
fn sum_of<V: Values>(
    row: &Row<'_>,
    choice: u32,
    total: u128,
    values: &V,
    pass: &mut V::Pass,
) -> u128
    requires choice { choice < length row.now }
    requires total { total ≡ (choice_among row.now choice).total }
    requires fits { All (λ e. V.fits values.now pass.old e.to) (choice_among row.now choice).edges }
    ensures onward { V.onward values.now pass.old pass.new }
    ensures sum { IsSumBetween (choice_among row.now choice).edges (V.seen values.now pass.old)
        (V.seen values.now pass.new) result }
{
    row.invariant();
    if total >= 18_446_744_073_709_551_616 {
        return wide_sum(&row.again(), choice, values, pass);
    }
    let successors = row.successors(choice);
    let weights = row.narrow_weights(choice);
    if total <= MOST_NARROW {
        return u128::from(narrow_sum(successors, weights, values, pass));
    }
    middle_sum(successors, weights, values, pass)
}

/// Returns the weighted sum if products and sum fit 64 bits.
fn narrow_sum<V: Values>(successors: &[u32], weights: &[u64], values: &V, pass: &mut V::Pass) -> u64
    requires many { length weights.now ≡ length successors.now }
    requires fits { All (λ t. V.fits values.now pass.old t) successors.now }
    requires narrow { weight_of_all successors.now weights.now * unit < 2 ^ 64 }
    ensures onward { V.onward values.now pass.old pass.new }
    ensures sum { IsSumBetween (edges_of successors.now weights.now) (V.seen values.now pass.old)
        (V.seen values.now pass.new) result }
{
    let mut sum: u64 = 0;
    for (place, successor) in successors.iter().enumerate() {
        sum += weights[place] * values.value(pass, *successor);
    }
    sum
}

/// Returns the weighted sum if weights fit 64 bits: each product is of two numbers of 64 bits.
fn middle_sum<V: Values>(
    successors: &[u32],
    weights: &[u64],
    values: &V,
    pass: &mut V::Pass,
) -> u128
    requires many { length weights.now ≡ length successors.now }
    requires fits { All (λ t. V.fits values.now pass.old t) successors.now }
    requires small { weight_of_all successors.now weights.now < total_bound }
    ensures onward { V.onward values.now pass.old pass.new }
    ensures sum { IsSumBetween (edges_of successors.now weights.now) (V.seen values.now pass.old)
        (V.seen values.now pass.new) result }
{
    let mut sum: u128 = 0;
    for (place, successor) in successors.iter().enumerate() {
        sum += u128::from(weights[place]) * u128::from(values.value(pass, *successor));
    }
    sum
}

/// Returns the weighted sum of a choice of any total.
#[inline(never)]
fn wide_sum<V: Values>(row: &Row<'_>, choice: u32, values: &V, pass: &mut V::Pass) -> u128
    requires choice { choice < length row.now }
    requires fits { All (λ e. V.fits values.now pass.old e.to) (choice_among row.now choice).edges }
    ensures onward { V.onward values.now pass.old pass.new }
    ensures sum { IsSumBetween (choice_among row.now choice).edges (V.seen values.now pass.old)
        (V.seen values.now pass.new) result }
{
    row.invariant();
    let mut sum: u128 = 0;
    for place in 0..row.edge_count(choice) {
        let edge = row.edge(choice, place);
        sum += edge.weight * u128::from(values.value(pass, edge.to));
    }
    sum
}

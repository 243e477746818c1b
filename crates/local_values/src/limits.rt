//! This module says when values are near enough, and how much work is spent.

use float_games::Band;
use std::num::nearest_usize_to_f64;

/// Values are near enough if a sweep changes none by more than this. Floats near 10^15 are an eighth of a unit apart.
pub const ENOUGH: f64 = 0.3;

/// A policy is exchanged in sweeps for a gain of more than this.
pub const GAIN: f64 = 0.25;

/// An elimination takes at most this many products.
const MOST_PRODUCTS: f64 = 300_000_000.0;

/// A band has at most this many cells.
const MOST_CELLS: f64 = 30_000_000.0;

/// Returns how many products the elimination of a chain of this many nodes takes in a band.
pub(crate) fn products_of(nodes: usize, band: Band) -> f64 {
    nearest_usize_to_f64(nodes) * (f64::from(band.back) + 1.0) * (f64::from(band.forth) + 1.0)
}

/// An elimination that takes little takes at most this many products.
const FEW_PRODUCTS: f64 = 30_000_000.0;

/// Returns whether the elimination of a chain of this many nodes takes little.
pub(crate) fn is_soon_eliminated(nodes: usize, band: Band) -> bool {
    products_of(nodes, band) <= FEW_PRODUCTS && is_narrow(nodes, band)
}

/// Returns whether a band is narrow enough for an elimination.
pub(crate) fn is_narrow(nodes: usize, band: Band) -> bool {
    let width = f64::from(band.back) + f64::from(band.forth) + 1.0;
    products_of(nodes, band) <= MOST_PRODUCTS && nearest_usize_to_f64(nodes) * width <= MOST_CELLS
}

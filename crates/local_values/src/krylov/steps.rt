//! This module takes the steps, one after another.

ghost use Rattle.std.specs.Float.{◌≤ᶠ◌, float_zero};
ghost use Rattle.std.specs.Prelude.{◌≡◌, IfOk, OnErr, length};
ghost use Rattle.float_games.specs.Nodes.{nodes_in};

use crate::krylov::work::Work;
use crate::vectors::add_scaled;
use float_games::Chain;
use game_outside::OutOfMemory;
use std::alloc::Global;

/// This many steps pass between two looks at what is kept as the best so far.
const LOOK: u32 = 20;

/// The steps count as astray if a pass changes this many times as much as at first.
const ASTRAY: f64 = 1_000_000.0;

/// Brings values nearer to those of a chain, by at most `most` steps, until a pass changes none by more than `enough`.
/// Each value is then about the sum of its node, plus the values of its successors by their shares. Returns what a pass
/// still changes. The only error is that memory ran out.
pub fn approach(
    alloc: Global,
    chain: &Chain,
    sums: &[f64],
    values: &mut [f64],
    enough: f64,
    most: u32,
) -> Result<f64, OutOfMemory>
    requires sums { length sums.now ≡ nodes_in chain.now }
    requires values { length values.old ≡ nodes_in chain.now }
    ensures left { IfOk result (λ left. float_zero ≤ᶠ left) }
    ensures kept { OnErr result (values.new ≡ values.old) }
{
    let mut work = Work::begin(alloc, chain, sums, values)?;
    let first = work.left;
    let mut best = vec![in alloc; 0.0; chain.nodes()]?;
    let mut least = first;
    for count in 1..most.saturating_add(1) {
        if work.left <= enough || !work.step(chain, first * ASTRAY) {
            break;
        }
        if count % LOOK == 0 && work.left < least {
            least = work.left;
            best.copy_from_slice(&work.found);
        }
    }
    if work.left <= first {
        add_scaled(values, 1.0, &work.found);
        return Ok(work.left);
    }
    add_scaled(values, 1.0, &best);
    Ok(least)
}

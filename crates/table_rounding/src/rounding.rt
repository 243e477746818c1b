//! This module rounds values: they are settled in floating point, and repaired.

ghost use Rattle.std.specs.Prelude.{◌≡◌, ◌<◌, IfOk, length, vec_len};
ghost use Rattle.game_model.specs.Query.{states};
ghost use Rattle.float_games.specs.Nodes.{nodes_of};

use crate::input::Input;
use crate::repair::repair;
use crate::table::UnitTable;
use float_games::{Bound, whole_units};
use game_outside::OutOfMemory;
use std::alloc::Global;
use std::num::saturating_f64_to_u64;

/// A try may take this much work.
#[derive(Clone, Copy)]
pub struct Effort {
    /// Settling looks at no more choices than this.
    pub looks: u64,
    /// If this is set, it gives up when four sweeps do not halve what changes.
    pub is_hasty: bool,
}

/// A try has at most this many sweeps.
const SWEEPS: u64 = 1_000_000;

/// Values count as settled if at most one in this many nodes changes. The rest is repaired.
const FEW: usize = 2_000;

/// Tries to round values to entries of the component that hold. It returns false if that takes long, and the entries
/// are then anything.
pub(crate) fn try_values(
    alloc: Global,
    input: &Input<'_, '_>,
    values: &[f64],
    policy: &[u32],
    planned: &[u32],
    table: &mut UnitTable,
    effort: Effort,
) -> Result<bool, OutOfMemory>
    requires values { length values.now ≡ nodes_of input.now.game.now }
    requires policy { length policy.now ≡ nodes_of input.now.game.now }
    requires planned { length planned.now ≡ states input.now.question.now }
    requires many { length table.old ≡ states input.now.question.now }
    ensures { length table.new ≡ length table.old }
{
    let mut units = rounded(alloc, input.bound, values)?;
    if !settle(input, &mut units, policy, effort) {
        return Ok(false);
    }
    store(input, &units, table);
    let nodes = input.game.nodes() as u64;
    let share = if effort.is_hasty {
        nodes / 4
    } else {
        2 * nodes
    };
    repair(alloc, input, planned, table, 1_000 + share)
}

/// Returns the values as whole units, on the side of the bound.
fn rounded(alloc: Global, bound: Bound, values: &[f64]) -> Result<Vec<f64>, OutOfMemory>
    ensures { IfOk result (λ list. vec_len list ≡ length values.now) }
{
    let mut list = values.to_vec(alloc)?;
    for value in &mut list {
        *value = whole_units(bound, *value);
    }
    Ok(list)
}

/// Takes rounded steps until few values change. Returns false if that takes long.
fn settle(input: &Input<'_, '_>, units: &mut [f64], policy: &[u32], effort: Effort) -> bool
    requires units { length units.old ≡ nodes_of input.now.game.now }
    requires policy { length policy.now ≡ nodes_of input.now.game.now }
{
    let few = input.game.nodes() / FEW;
    let mut looked: u64 = 0;
    let mut before: Option<usize> = None;
    for sweep in 1..SWEEPS {
        let rounded = input.game.sweep_rounded(input.bound, units, policy);
        if rounded.changed <= few {
            return true;
        }
        looked = looked.saturating_add(rounded.looked);
        if looked > effort.looks {
            return false;
        }
        if effort.is_hasty && sweep % 4 == 0 {
            if before.is_some_and(|earlier| rounded.changed > earlier / 2) {
                return false;
            }
            before = Some(rounded.changed);
        }
    }
    false
}

/// Puts the units of nodes into the table, at the states of the component.
fn store(input: &Input<'_, '_>, units: &[f64], table: &mut UnitTable)
    requires many { length table.old ≡ states input.now.question.now }
    ensures { length table.new ≡ length table.old }
{
    let members = input.components.members(input.component);
    for place in 0..members.len() {
        let node = input.nodes.get(place).copied().unwrap_or(0);
        let value = units.get(node as usize).copied().unwrap_or(0.0);
        table.set(members[place], saturating_f64_to_u64(value));
    }
}

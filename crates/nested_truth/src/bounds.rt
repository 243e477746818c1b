//! This module has the bounds that are found.

ghost use Rattle.std.specs.Prelude.{◌≡◌, IfOk};
ghost use Rattle.bracket_engine.specs.Bracket.{complements_of};

use game_model::UNIT;
use game_outside::OutOfMemory;
use std::alloc::{AllocError, Global};
use verdicts::How;

/// Each state has a lower and an upper bound, in units. `how` says where the lower ones come from, and after they are
/// mirrored, where the upper ones do.
#[derive(Drop)]
pub struct Bounds {
    pub lower: Vec<u64>,
    pub upper: Vec<u64>,
    pub how: How,
}

impl Bounds {
    ghost use Rattle.formula_truth.specs.InnerRuns.{mirrored};
    ghost use Rattle.nested_truth.specs.Seen.{band_in};

    /// Returns 1 less the bounds, which bound the probability of the opposite.
    pub fn mirrored(&self, alloc: Global) -> Result<Bounds, OutOfMemory>
        ensures band { IfOk result (λ bounds. band_in bounds ≡ mirrored (band_in self.now)) }
        ensures how { IfOk result (λ bounds. bounds.how ≡ self.now.how) }
    {
        Ok(Bounds {
            lower: complements(alloc, &self.upper)?,
            upper: complements(alloc, &self.lower)?,
            how: self.how,
        })
    }
}

// Returns the unit less each value.
fn complements(alloc: Global, values: &[u64]) -> Result<Vec<u64>, AllocError>
    ensures { IfOk result (λ complements. complements.items ≡ complements_of values.now) }
{
    values
        .iter()
        .map(|value| UNIT.saturating_sub(*value))
        .collect(alloc)
}

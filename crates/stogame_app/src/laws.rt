//! This module has the laws of the run. Each function does nothing: its contract is the law.
//!
//! - [`closing`]: brackets of questions whose plays come to an end close at a known rate.
//! - [`horizons`]: printed bounds and verdicts hold of the values within k steps.
//! - [`saved`]: what `check` and `solve` write is no longer than a text may be, and an audit of the same question
//!   accepts it.
//!
//! This module itself says how a run ends, by its status.

pub mod closing;
pub mod horizons;
pub mod saved;

ghost use Rattle.std.specs.Prelude.{ℕ, List, Option};
ghost use Rattle.game_outside.specs.Outside.{Holding};
ghost use Rattle.output.specs.Status.{IsAnswer};
ghost use Rattle.output.specs.declared.status.Status.{Status};
ghost use Rattle.stogame_app.specs.Reports.{IsReportOfWords};
ghost use Rattle.stogame_app.specs.Run.{IsEnding, IsRefusalOfWords, Writes};
ghost use Rattle.stogame_app.specs.Status.{IsRefusal};

/// A run that ends with status 0, 1 or 2 has written the report of the command that its words denote. A run that ends
/// with status 4 or 8 has written the line of its refusal.
pub fn endings_are_told_by_their_status()
    ensures reports { (words : List (List ℕ)) (holding : Option Holding) (taken : ℕ) (old new : Option (List ℕ))
        (status : Status) → IsEnding words holding taken old new status
        → IsAnswer status → Writes old new (λ text. IsReportOfWords words holding taken text status) }
    ensures refusals { (words : List (List ℕ)) (holding : Option Holding) (taken : ℕ) (old new : Option (List ℕ))
        (status : Status) → IsEnding words holding taken old new status
        → IsRefusal status → Writes old new (λ text. IsRefusalOfWords words holding taken text status) }
{}

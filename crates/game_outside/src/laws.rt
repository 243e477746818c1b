//! This module has the laws of the outside. Each function does nothing: its contract is the law.

ghost use Rattle.std.specs.Prelude.{◌≡◌};
ghost use Rattle.game_outside.specs.Limits.{piece_size};

use crate::shelf::PIECE;

/// The limit of the code is the limit of the definitions.
pub fn limits()
    ensures { PIECE ≡ piece_size }
{}

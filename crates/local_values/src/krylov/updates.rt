//! This module has what a step does to the vectors.

ghost use Rattle.std.specs.Float.{◌≤ᶠ◌, float_zero};
ghost use Rattle.std.specs.Prelude.{◌≡◌, length};

use crate::vectors::greater;

/// A step leaves a residual with this greatest size of an entry and this product with the shadow.
#[derive(Clone, Copy)]
pub struct Left {
    pub greatest: f64,
    pub product: f64,
}

/// Moves the values found along the direction by alpha and along the residual by omega, and takes omega times `turned`
/// from the residual. Returns what is left of it.
pub(crate) fn advance(
    found: &mut [f64],
    residual: &mut [f64],
    direction: &[f64],
    turned: &[f64],
    shadow: &[f64],
    alpha: f64,
    omega: f64,
) -> Left
    requires residual { length residual.old ≡ length found.old }
    requires direction { length direction.now ≡ length found.old }
    requires turned { length turned.now ≡ length found.old }
    requires shadow { length shadow.now ≡ length found.old }
    ensures { float_zero ≤ᶠ result.greatest }
{
    let mut left = Left {
        greatest: 0.0,
        product: 0.0,
    };
    for node in 0..found.len() {
        let own = residual[node];
        let next = own - omega * turned[node];
        found[node] = (found[node] + alpha * direction[node]) + omega * own;
        residual[node] = next;
        left.greatest = greater(left.greatest, next);
        left.product += next * shadow[node];
    }
    left
}

/// Takes omega times `moved` from the direction, multiplies it by beta, and adds the residual.
pub(crate) fn redirect(
    direction: &mut [f64],
    moved: &[f64],
    residual: &[f64],
    omega: f64,
    beta: f64,
)
    requires moved { length moved.now ≡ length direction.old }
    requires residual { length residual.now ≡ length direction.old }
{
    for node in 0..direction.len() {
        direction[node] = beta * (direction[node] - omega * moved[node]) + residual[node];
    }
}

//! This module takes lists of floats as vectors. If two lists differ in length, the rest of the longer one is left out.

ghost use Rattle.std.specs.Float.{◌≤ᶠ◌, float_zero};
ghost use Rattle.std.specs.Prelude.{◌≡◌, length};

/// Returns the sum of the products.
pub(crate) fn product(a: &[f64], b: &[f64]) -> f64 {
    let mut sum = 0.0;
    for (x, y) in a.iter().zip(b) {
        sum += *x * *y;
    }
    sum
}

/// Returns the sums of the squares of a vector, and of its products with another.
pub(crate) fn square_and_product(a: &[f64], b: &[f64]) -> (f64, f64) {
    let mut squares = 0.0;
    let mut products = 0.0;
    for (x, y) in a.iter().zip(b) {
        squares += *x * *x;
        products += *x * *y;
    }
    (squares, products)
}

/// Returns the greatest size of an entry, which is infinite if an entry is no number.
pub(crate) fn greatest(list: &[f64]) -> f64
    ensures { float_zero ≤ᶠ result }
{
    let mut most = 0.0;
    for x in list {
        most = greater(most, *x);
    }
    most
}

/// Returns the greater one of this and the size of an entry, and infinity if that is no number.
pub(crate) fn greater(most: f64, x: f64) -> f64
    ensures { float_zero ≤ᶠ most → float_zero ≤ᶠ result }
{
    if x.abs() <= most {
        most
    } else if x.is_nan() {
        f64::INFINITY
    } else {
        x.abs()
    }
}

/// Adds a multiple of another vector.
pub(crate) fn add_scaled(target: &mut [f64], factor: f64, other: &[f64])
    requires { length target.old ≡ length other.now }
{
    for (x, y) in target.iter_mut().zip(other) {
        *x += factor * *y;
    }
}

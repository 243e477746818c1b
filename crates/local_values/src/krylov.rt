//! This module finds the values of a chain by steps in a Krylov space: BiCGSTAB (van der Vorst, Bi-CGSTAB: a fast and
//! smoothly converging variant of Bi-CG for the solution of nonsymmetric linear systems, 1992), for chains whose band
//! is too wide for an elimination.
//!
//! [`approach`] brings values nearer to those of a chain. It solves the equation that a pass in place (Gauss and
//! Seidel) changes nothing. So a pass is the preconditioner, and a step takes two of them.
//!
//! Nothing promises how near values come. If memory runs out, they stay as they were. If the steps go astray, they stay
//! so or become the best that were seen.

mod steps;
mod updates;
mod work;

pub use steps::approach;

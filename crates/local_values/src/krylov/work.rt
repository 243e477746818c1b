//! This module has the vectors of the steps.

ghost use Rattle.std.specs.Float.{◌≤ᶠ◌, float_zero};
ghost use Rattle.std.specs.Prelude.{◌≡◌, IfOk, length, vec_len};
ghost use Rattle.float_games.specs.Nodes.{nodes_in};

use crate::krylov::updates::{advance, redirect};
use crate::vectors::{add_scaled, greatest, product, square_and_product};
use float_games::Chain;
use game_outside::OutOfMemory;
use std::alloc::Global;

/// The steps keep these vectors, in the words of the method: what a pass would still change (the residual), the first
/// residual (the shadow), the current direction, what a pass takes from the direction and from the residual, and what
/// was found so far.
#[derive(Drop)]
pub struct Work {
    nodes: usize,
    residual: Vec<f64>,
    shadow: Vec<f64>,
    direction: Vec<f64>,
    moved: Vec<f64>,
    turned: Vec<f64>,
    pub found: Vec<f64>,
    rho: f64,
    pub left: f64,
    ghost residuals: { vec_len residual ≡ nodes },
    ghost shadows: { vec_len shadow ≡ nodes },
    ghost directions: { vec_len direction ≡ nodes },
    ghost moves: { vec_len moved ≡ nodes },
    ghost turns: { vec_len turned ≡ nodes },
    ghost founds: { vec_len found ≡ nodes },
    ghost lefts: { float_zero ≤ᶠ left },
}

impl Work {
    /// Returns the vectors before the first step, from sums and the initial values.
    pub(crate) fn begin(
        alloc: Global,
        chain: &Chain,
        sums: &[f64],
        values: &[f64],
    ) -> Result<Work, OutOfMemory>
        requires sums { length sums.now ≡ nodes_in chain.now }
        requires values { length values.now ≡ nodes_in chain.now }
        ensures { IfOk result (λ w. w.nodes ≡ nodes_in chain.now) }
    {
        let nodes = chain.nodes();
        let mut residual = values.to_vec(alloc)?;
        let _change = chain.pass(sums, &mut residual);
        add_scaled(&mut residual, -1.0, values);
        let shadow = residual.to_vec(alloc)?;
        let direction = residual.to_vec(alloc)?;
        let rho = product(&residual, &shadow);
        let left = greatest(&residual);
        Ok(Work {
            nodes,
            residual,
            shadow,
            direction,
            moved: vec![in alloc; 0.0; nodes]?,
            turned: vec![in alloc; 0.0; nodes]?,
            found: vec![in alloc; 0.0; nodes]?,
            rho,
            left,
        })
    }

    /// Takes one step. Returns false if it finds nothing more or goes astray.
    pub(crate) fn step(&mut self, chain: &Chain, most: f64) -> bool
        requires { self.old.nodes ≡ nodes_in chain.now }
        ensures { self.new.nodes ≡ self.old.nodes }
    {
        chain.taken_by_pass(&self.direction, &mut self.moved);
        let along = product(&self.shadow, &self.moved);
        if along == 0.0 || self.rho == 0.0 {
            return false;
        }
        let alpha = self.rho / along;
        let omega = self.turn(chain, alpha);
        let rho = self.move_found(alpha, omega);
        if !(self.left < most) || omega == 0.0 {
            return false;
        }
        self.find_direction(alpha, omega, rho);
        true
    }

    /// The residual loses alpha times what a pass takes from the direction. Returns omega: this multiple of what a pass
    /// takes from the residual is nearest to it.
    fn turn(&mut self, chain: &Chain, alpha: f64) -> f64
        requires { self.old.nodes ≡ nodes_in chain.now }
        ensures { self.new.nodes ≡ self.old.nodes }
    {
        add_scaled(&mut self.residual, -alpha, &self.moved);
        chain.taken_by_pass(&self.residual, &mut self.turned);
        let (size, same) = square_and_product(&self.turned, &self.residual);
        if size > 0.0 { same / size } else { 0.0 }
    }

    /// Moves the values found, and returns the next rho, which is the product of what is left with the shadow.
    fn move_found(&mut self, alpha: f64, omega: f64) -> f64
        ensures { self.new.nodes ≡ self.old.nodes }
    {
        let left = advance(
            &mut self.found,
            &mut self.residual,
            &self.direction,
            &self.turned,
            &self.shadow,
            alpha,
            omega,
        );
        self.left = left.greatest;
        left.product
    }

    /// Finds the next direction.
    fn find_direction(&mut self, alpha: f64, omega: f64, rho: f64)
        ensures { self.new.nodes ≡ self.old.nodes }
    {
        let beta = rho / self.rho * (alpha / omega);
        self.rho = rho;
        redirect(
            &mut self.direction,
            &self.moved,
            &self.residual,
            omega,
            beta,
        );
    }
}

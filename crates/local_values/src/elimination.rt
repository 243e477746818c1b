//! This module finds the values of a chain by elimination in a band, without a subtraction (Grassmann, Taksar and
//! Heyman, Regenerative analysis and steady state distributions for Markov chains, 1985).
//!
//! [`Factors::of_chain`] eliminates the nodes of a chain from the last to the first, and keeps what it did.
//! [`Factors::solve`] then gives the values for a list of sums, which say what each node gives by itself. So a chain is
//! eliminated once for as many sums as are asked: the units that it gives, the moves that it takes, or what values
//! miss.
//!
//! Nothing is subtracted, so each value has a small relative error however slowly the chain leaves. The time is the
//! number of nodes times how far edges lead back times how far they lead forth. The room is the number of nodes times
//! both together. None of this is part of the contract. Of values it promises only that one is 0 if the elimination
//! left nothing that leaves its row.

mod band;
mod factors;

pub use factors::Factors;

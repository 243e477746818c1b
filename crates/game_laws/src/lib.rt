//! This crate has laws of rounded steps and of sound bounds, for the crates that compute with tables of units.
//!
//! No function here does anything: a call tells a proof what its contract says. [`laws`] has each law for every
//! question and every table. [`tables`] has them for a program's own question and tables: what the law presumes is a
//! condition of the call, so a caller needs no proof of its own.
#![tactic(auto)]

pub mod laws;
pub mod tables;

//! These are the tests of `run` with an outside that fails, is late or comes in pieces, of how workers pass its gate,
//! and over texts that are refused, hostile or cut. Some of them call readers, or the real files and the real writer,
//! without `run`.
#![tactic(auto)]

#[cfg(test)]
mod hostile;
#[cfg(test)]
mod outside;

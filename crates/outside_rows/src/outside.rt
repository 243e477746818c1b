//! The outside fails, is late or comes in pieces, and workers pass its gate.

mod adapters;
mod all_workers;
mod commands;
mod failing_calls;
mod late_workers;
mod long_texts;
mod names_begun;
mod pieces;
mod random_cuts;
mod workers;

//! This crate holds what tests share: small games, games of a known shape, games that are drawn at random, the drafts
//! that they are made from, and [`expectations`], which are comparisons whose errors say what was found.
#![tactic(auto)]

mod asked_games;
mod draft;
pub mod expectations;
mod games;
mod questions;
mod random;
mod rings;
mod structured;

pub use asked_games::{agreement_game, agreement_question, coin_game, coin_question};
pub use draft::{Draft, game_of, question_with};
pub use games::{chain, coin_loop, four_states, goal_or_sink, one_state};
pub use questions::{question_of, question_with_dead, question_with_minimiser_at};
pub use random::{Draw, Shape, random_game};
pub use rings::ring_of_two;
pub use structured::Model;
pub use structured::contract::contract;
pub use structured::retransmission::retransmission;
pub use structured::robot::robot;
pub use structured::shared_coin::shared_coin;

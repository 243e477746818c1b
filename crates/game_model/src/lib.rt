//! This crate has games, reachability questions about them, and the values of these questions.
//!
//! A game is made of choices ([`Choice::of_edges`]), all at once by [`Game::from_choices`] or one after another by a
//! [`GameBuilder`]. [`Question::build`] asks with which probability a goal is reached. The definition of that value is
//! in `specs/Values.antt`: whole numerators over one common denominator, by backward recursion over the number of
//! steps. Programs never compute them: they compute with whole numbers of units, of which [`UNIT`] are probability 1,
//! and `specs/Rounded.antt` has the Bellman operator over them. `specs/Bounds.antt` says what a sound lower and a sound
//! upper table are, and [`laws`] has the laws of the values.
#![tactic(auto)]

mod builder;
mod game;
pub mod laws;
mod limits;
mod question;
mod row;

pub use builder::GameBuilder;
pub use game::{Choice, Edge, Game, Side};
pub use limits::{MOST_CHOICES, MOST_STATES, UNIT};
pub use question::{Marks, Question};
pub use row::Row;

/// Choices, games, questions and marks may be shared among threads.
fn shares_all(choice: &Choice, question: &Question, marks: &Marks) {
    shares(choice);
    shares(question.game());
    shares(question);
    shares(marks);
}

/// Only a type that threads may share is accepted here.
fn shares<T: Sync>(_value: &T) {}

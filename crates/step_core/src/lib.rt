//! This crate is the core of the race: words of a value and a choice, worlds of words and views, and the events that
//! change them.
//!
//! A word of a state holds a lower bound of its value, in units, and the choice that gave it. A view is what one worker
//! has seen of the words. [`World::start`] opens a world, and [`World::apply`] takes one event or refuses it.
//! `specs/Sound.antt` and `specs/Configuration.antt` say what holds for every world, after every list of events. Worlds
//! and events are the transition system of the words that threads share. This crate runs no threads.
#![tactic(auto)]

mod event;
pub mod laws;
mod opening;
mod view;
mod word;
mod world;

pub use event::{Event, Refused};
pub use opening::opening_words;
pub use word::{CHOICE_SPACE, choice_of, pack, value_of};
pub use world::World;

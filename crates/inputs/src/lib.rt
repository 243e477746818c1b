//! This crate reads the problem that the words of a command and the texts of a shelf ask, the certificate of an audit
//! of it, and values to begin with.
//!
//! [`load_model`] reads the transition file, the label file, the owner file and the formula, one after another, and
//! gives what they are ([`Loaded`]). [`pose_loaded`] poses the [`Problem`], if the command takes such [`Paths`]. Both
//! tell the first refusal, or that a text can't be read ([`End`]). [`load_game`], [`load_labels`], [`load_owners`] and
//! [`load_text`] read one text, for other kinds of problems. [`load_certificate`] reads a certificate of any
//! origin, and gives its plan if a question accepts it. [`load_values`] reads a file of values to begin with, if one is
//! named. The contracts of these functions speak by relations of the texts that a shelf holds, if it tells them
//! (`specs/Asks.antt`). What is read by cases is exactly what the texts ask ([`laws`]).
#![tactic(auto)]

mod certificate;
pub mod laws;
mod load;
mod model;
mod problem;
mod values;

pub use certificate::load_certificate;
pub use load::{End, load_game, load_labels, load_owners, load_text};
pub use model::{Loaded, load_model, pose_loaded};
pub use problem::{Paths, Problem};
pub use values::load_values;

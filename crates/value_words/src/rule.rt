//! This module has the rule of the words, and what each step tells.

use atomic_table::{Join, Play, Split, TableRule};
use std::collections::LinkedList;
use std::marker::{Brand, PhantomData};

/// Names the question of a table, only for contracts. Each call of a program picks one.
pub trait Posing {
    ghost use Rattle.game_model.specs.Query.{Query};

    ghost posed: { Query };
}

impl Posing for Brand {
    ghost use Rattle.value_words.specs.Rule.{no_question};

    ghost posed = { no_question };
}

/// A sight is what a pass has seen of each word, how many exchanges it has won, and how many of all parts it has. The
/// parts show that a pass is the only one. No value of this type is made.
pub struct Sight {
    pub live: bool,
    pub seen: LinkedList<u64>,
    pub won: u64,
    pub parts: u64,
}

/// This is the rule of the words of a question.
pub struct Rising<P: Posing> {
    posing: PhantomData<P>,
}

impl<P: Posing> TableRule<(), Sight, ()> for Rising<P> {
    ghost use Rattle.value_words.specs.Rule.{MeetsRule, opening_sight};

    ghost holds = { λ _. MeetsRule P.posed };

    ghost first = { λ _. opening_sight P.posed };
}

/// The step is a load.
pub struct Loading;

impl Play<(), Sight> for Loading {
    ghost use Rattle.value_words.specs.Rule.{Loaded};

    ghost then = { Loaded };
}

/// The step is an exchange, which is won or lost.
pub struct Exchanging;

impl Play<(), Sight> for Exchanging {
    ghost use Rattle.value_words.specs.Rule.{WonOrLost};

    ghost then = { WonOrLost };
}

/// The step is a split of a view, or a join of two.
pub struct Sharing;

impl Split<Sight> for Sharing {
    ghost use Rattle.value_words.specs.Rule.{halved, copied};

    ghost left = { halved };

    ghost right = { copied };
}

impl Join<Sight> for Sharing {
    ghost use Rattle.value_words.specs.Rule.{joined, spent};

    ghost both = { joined };

    ghost spent = { spent };
}

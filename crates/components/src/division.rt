//! This module divides the states of a question into components.

ghost use Rattle.std.specs.Prelude.{◌≡◌, ℕ, ◌+◌, ◌-◌, ◌<◌, IfOk, IsTrue, EachIndex, length, slice_index};
ghost use Rattle.game_model.specs.Query.{states};
ghost use Rattle.components.specs.Division.{states_of, begin, members_of, IsPartition};
ghost use Rattle.components.specs.Order.{IsPlayOrder};

use crate::keeps::Keeps;
use crate::lists::Lists;
use crate::order::is_play_order;
use crate::search::Search;
use game_model::Question;
use game_outside::OutOfMemory;
use std::alloc::Global;
use std::marker::Model;

/// The states of a question are divided into components, which are numbered from 0 in the order of play.
#[derive(Drop)]
pub struct Components {
    lists: Lists,
}

impl Model for Components {
    ghost use Rattle.components.specs.Division.{Division, IsPartition};
    ghost use Rattle.components.specs.OfLists.{division_of};

    ghost Value = { Division };

    ghost view = { λ c. division_of c.lists };

    ghost invariant = { λ c. IsPartition (division_of c.lists) };
}

impl Components {
    /// Finds the strongly connected components over the choices that are kept (Tarjan 1972). The members of each
    /// component follow the given order. States that this order lacks come behind them, by their numbers. The only
    /// error is that memory ran out.
    pub fn of_question<K: Keeps>(
        alloc: Global,
        question: &Question,
        kept: &K,
        order: &[u32],
    ) -> Result<Components, OutOfMemory>
        requires { K.fits kept.now question.now }
        ensures many { IfOk result (λ c. states_of c ≡ states question.now) }
        ensures order { IfOk result (λ c. IsPlayOrder question.now (K.kept kept.now question.now) c.component) }
    {
        let search = Search::of_question(alloc, question, kept)?;
        let lists = Lists::sorted(alloc, search, order)?;
        if lists.is_partition() && is_play_order(question, kept, &lists.component) {
            Ok(Components { lists })
        } else {
            let lists = Lists::whole(alloc, question.game().states())?;
            Ok(Components { lists })
        }
    }

    /// Tells a proof what holds for all components. It does nothing.
    pub fn invariant(&self)
        ensures { IsPartition self.now }
    {
        let _ = &self.lists;
    }

    /// Returns the number of components.
    pub fn count(&self) -> u32
        ensures { result + 1 ≡ length self.now.starts }
    {
        (self.lists.starts.len() - 1) as u32
    }

    /// Returns the number of a state's component.
    pub fn component_of(&self, state: u32) -> u32
        requires { state < states_of self.now }
        ensures value { result ≡ slice_index self.now.component state }
        ensures counted { result + 1 < length self.now.starts }
    {
        self.lists.component[state as usize]
    }

    /// Returns the place of a state among the members of its component.
    pub fn place_of(&self, state: u32) -> u32
        requires { state < states_of self.now }
        ensures { result ≡ slice_index self.now.places state - begin self.now (slice_index self.now.component state) }
    {
        let component = self.lists.component[state as usize];
        self.lists.places[state as usize] - self.lists.starts[component as usize]
    }

    /// Returns the states of a component.
    pub fn members(&self, component: u32) -> &[u32]
        requires { component + 1 < length self.now.starts }
        ensures list { result.now ≡ members_of self.now component }
        ensures states { EachIndex result.now (λ k. slice_index result.now k < states_of self.now) }
    {
        let begin = self.lists.starts[component as usize];
        let end = self.lists.starts[component as usize + 1];
        &self.lists.members[begin as usize..end as usize]
    }
}

/// Gives each state the number of its component, as [`Components::of_question`] finds it, without the lists of members.
/// Each number is below the number of states. The only error is that memory ran out.
pub fn component_numbers<K: Keeps>(
    alloc: Global,
    question: &Question,
    kept: &K,
) -> Result<Vec<u32>, OutOfMemory>
    requires { K.fits kept.now question.now }
    ensures many { IfOk result (λ l. length l.items ≡ states question.now) }
    ensures below { IfOk result (λ l. (s : ℕ) → s < states question.now → slice_index l.items s < states question.now) }
    ensures order { IfOk result (λ l. IsPlayOrder question.now (K.kept kept.now question.now) l.items) }
{
    let states = question.game().states();
    let search = Search::of_question(alloc, question, kept)?;
    if all_below(&search.component, states) && is_play_order(question, kept, &search.component) {
        return Ok(search.component);
    }
    zeros(alloc, states)
}

/// Returns whether all entries are below this number.
fn all_below(list: &[u32], bound: u32) -> bool
    ensures { IsTrue result → ((k : ℕ) → k < length list.now → slice_index list.now k < bound) }
{
    list.iter().all(|number| *number < bound)
}

/// Returns a list of this many zeros.
fn zeros(alloc: Global, count: u32) -> Result<Vec<u32>, OutOfMemory>
    ensures many { IfOk result (λ l. length l.items ≡ count) }
    ensures zero { IfOk result (λ l. (k : ℕ) → slice_index l.items k ≡ 0) }
{
    let list = vec![in alloc; 0u32; count as usize]?;
    Ok(list)
}

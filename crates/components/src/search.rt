//! This module has Tarjan's search, without recursion.

ghost use Rattle.std.specs.Prelude.{◌≡◌, ◌<◌, IfOk, IfSome, EachIndex, length, slice_index, vec_len};
ghost use Rattle.game_model.specs.Game.{choices_of};
ghost use Rattle.game_model.specs.Query.{states};

use crate::keeps::Keeps;
use game_model::Question;
use game_outside::OutOfMemory;
use std::alloc::Global;

/// This is the component and the place of a state that has none yet, and the entry of a place without a member.
pub const NONE: u32 = 4_294_967_295;

/// A state that has a component has this number, which is above those of the states that wait for theirs.
const CLOSED: u32 = 4_294_967_295;

/// A search knows this of a state that it has met. `low` is the least number of a state without a component to which it
/// is known to lead. `choice` and `place` give the next edge to follow.
#[derive(Clone, Copy)]
struct Seen {
    low: u32,
    choice: u32,
    place: u32,
}

/// A search under way has met `met` states and closed `count` components. The numbers give the order in which states
/// were met: a number is 0 until its state is met, and `CLOSED` once the state has a component. They are a list of
/// their own because they are all that is read for every edge. `path` leads to the current state. `waiting` has the
/// states that were met and have no component yet.
#[derive(Drop)]
pub struct Search {
    pub states: u32,
    met: u32,
    pub count: u32,
    numbers: Vec<u32>,
    seen: Vec<Seen>,
    pub component: Vec<u32>,
    path: Vec<u32>,
    waiting: Vec<u32>,
    ghost numbered: { vec_len numbers ≡ states },
    ghost all_seen: { vec_len seen ≡ states },
    ghost components: { vec_len component ≡ states },
    ghost path_inside: { EachIndex path.items (λ k. slice_index path.items k < states) },
    ghost waiting_inside: { EachIndex waiting.items (λ k. slice_index waiting.items k < states) },
}

impl Search {
    /// Makes a search that has met no state.
    fn new(alloc: Global, states: u32) -> Result<Search, OutOfMemory>
        ensures { IfOk result (λ s. s.states ≡ states) }
    {
        let unseen = Seen {
            low: 0,
            choice: 0,
            place: 0,
        };
        Ok(Search {
            states,
            met: 0,
            count: 0,
            numbers: vec![in alloc; 0u32; states as usize]?,
            seen: vec![in alloc; unseen; states as usize]?,
            component: vec![in alloc; NONE; states as usize]?,
            path: Vec::with_capacity(alloc, states as usize)?,
            waiting: Vec::with_capacity(alloc, states as usize)?,
        })
    }

    /// Returns whether a state was met.
    fn has_met(&self, state: u32) -> bool
        requires { state < self.now.states }
    {
        self.numbers[state as usize] != 0
    }

    /// Meets a state.
    fn enter(&mut self, state: u32) -> Result<(), OutOfMemory>
        requires { state < self.old.states }
        ensures { self.new.states ≡ self.old.states }
    {
        self.met = self.met.saturating_add(1);
        self.numbers[state as usize] = self.met;
        self.seen[state as usize] = Seen {
            low: self.met,
            choice: 0,
            place: 0,
        };
        self.path.push(state)?;
        self.waiting.push(state)?;
        Ok(())
    }

    /// Follows edges of the last state of the path up to one that leads to an unmet state, passes to its next choice or
    /// leaves it. It returns false if the path is empty.
    fn step<K: Keeps>(&mut self, question: &Question, kept: &K) -> Result<bool, OutOfMemory>
        requires fits { K.fits kept.now question.now }
        requires one { self.old.states ≡ states question.now }
        ensures { self.new.states ≡ self.old.states }
    {
        let Some(state) = self.path.last().copied() else {
            return Ok(false);
        };
        let seen = self.seen[state as usize];
        if seen.choice < question.game().choices_of(state) {
            self.look(question, kept, state, seen)?;
        } else {
            self.leave(state);
        }
        Ok(true)
    }

    /// Follows the next edges of a choice up to one that leads to an unmet state, and meets this state. If there is
    /// none, it passes to the next choice.
    fn look<K: Keeps>(
        &mut self,
        question: &Question,
        kept: &K,
        state: u32,
        seen: Seen,
    ) -> Result<(), OutOfMemory>
        requires fits { K.fits kept.now question.now }
        requires one { self.old.states ≡ states question.now }
        requires state { state < self.old.states }
        requires choice { seen.choice < length (choices_of question.now.game state) }
        ensures { self.new.states ≡ self.old.states }
    {
        question.invariant();
        if seen.place > 0 || kept.keeps(question, state, seen.choice) {
            let successors = question.game().successors(state, seen.choice);
            if let Some(place) = self.follow(state, successors, seen.place as usize) {
                let next = u32::try_from(place).unwrap_or(u32::MAX);
                self.seen[state as usize].place = next.saturating_add(1);
                return self.enter(successors[place]);
            }
        }
        let next = &mut self.seen[state as usize];
        next.choice = seen.choice + 1;
        next.place = 0;
        Ok(())
    }

    /// Returns the place of the first unmet one of these successors, from one place on. Those before it lower the low
    /// number of the state.
    fn follow(&mut self, state: u32, successors: &[u32], from: usize) -> Option<usize>
        requires state { state < self.old.states }
        requires inside { EachIndex successors.now (λ k. slice_index successors.now k < self.old.states) }
        ensures same { self.new.states ≡ self.old.states }
        ensures place { IfSome result (λ place. place < length successors.now) }
    {
        let mut low = self.seen[state as usize].low;
        for place in from..successors.len() {
            let number = self.numbers[successors[place] as usize];
            if number == 0 {
                self.seen[state as usize].low = low;
                return Some(place);
            }
            low = low.min(number);
        }
        self.seen[state as usize].low = low;
        None
    }

    /// Lowers the low number of a state.
    fn lower(&mut self, state: u32, number: u32)
        requires { state < self.old.states }
        ensures { self.new.states ≡ self.old.states }
    {
        let seen = &mut self.seen[state as usize];
        if number < seen.low {
            seen.low = number;
        }
    }

    /// Leaves the last state of the path. If it was met first of its component, the states that wait since then are the
    /// others.
    fn leave(&mut self, state: u32)
        requires { state < self.old.states }
        ensures { self.new.states ≡ self.old.states }
    {
        let seen = self.seen[state as usize];
        let _left = self.path.pop();
        if let Some(before) = self.path.last().copied() {
            self.lower(before, seen.low);
        }
        if seen.low == self.numbers[state as usize] {
            self.close(state);
        }
    }

    /// Makes a component of the states that wait, back to this one.
    fn close(&mut self, state: u32)
        ensures { self.new.states ≡ self.old.states }
    {
        while let Some(member) = self.waiting.pop() {
            self.component[member as usize] = self.count;
            self.numbers[member as usize] = CLOSED;
            if member == state {
                break;
            }
        }
        self.count = self.count.saturating_add(1);
    }

    /// Makes a component of a state that was not met and has no kept choice.
    fn close_alone(&mut self, state: u32)
        requires { state < self.old.states }
        ensures { self.new.states ≡ self.old.states }
    {
        self.component[state as usize] = self.count;
        self.numbers[state as usize] = CLOSED;
        self.count = self.count.saturating_add(1);
    }

    /// Meets all states to which this one leads, and closes their components, in at most this many steps.
    fn run<K: Keeps>(
        &mut self,
        question: &Question,
        kept: &K,
        state: u32,
        most: u64,
    ) -> Result<(), OutOfMemory>
        requires fits { K.fits kept.now question.now }
        requires one { self.old.states ≡ states question.now }
        requires state { state < self.old.states }
        ensures { self.new.states ≡ self.old.states }
    {
        self.enter(state)?;
        for _ in 0..most {
            if !self.step(question, kept)? {
                break;
            }
        }
        Ok(())
    }

    /// Gives each state the number of its component over the kept choices.
    pub fn of_question<K: Keeps>(
        alloc: Global,
        question: &Question,
        kept: &K,
    ) -> Result<Search, OutOfMemory>
        requires { K.fits kept.now question.now }
        ensures { IfOk result (λ s. s.states ≡ states question.now) }
    {
        let states = question.game().states();
        let mut search = Search::new(alloc, states)?;
        let most = most_steps(question);
        for state in 0..states {
            if search.has_met(state) {
                continue;
            }
            if keeps_any(question, kept, state) {
                search.run(question, kept, state, most)?;
            } else {
                search.close_alone(state);
            }
        }
        Ok(search)
    }
}

/// Returns whether some choice of a state is kept.
fn keeps_any<K: Keeps>(question: &Question, kept: &K, state: u32) -> bool
    requires fits { K.fits kept.now question.now }
    requires state { state < states question.now }
{
    (0..question.game().choices_of(state)).any(|choice| kept.keeps(question, state, choice))
}

/// Returns the most steps of a search: one for each edge, choice and state, and one to see that the path is empty.
fn most_steps(question: &Question) -> u64 {
    let game = question.game();
    let states = game.states();
    game.edges_below(states) + game.choices_below(states) + u64::from(states) + 1
}

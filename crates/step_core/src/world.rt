//! This module keeps worlds, and says what each event does to one.

ghost use Rattle.std.specs.Prelude.{◌≡◌, ◌≢◌, ◌<◌, ◌⊎◌, List, Bool, false, Some, None, is_some, slice_index, slice_set, option_map, IfOk, IfErr, OnOk, OnErr};
ghost use Rattle.game_model.specs.Query.{states};
ghost use Rattle.step_core.specs.Word.{choice_in, value_at};

use crate::event::{Event, Refused};
use crate::opening::opening_words;
use crate::view::View;
use crate::word::{choice_of, value_of};
use fixed_bellman::{down_choice, down_state};
use game_model::{Question, Side};
use game_outside::OutOfMemory;
use std::alloc::Global;
use std::marker::Model;
use std::mem;

/// A world has a question, a word for each state, and the views of those who change the words. Contracts see it as a
/// configuration of a transition system.
#[derive(Drop)]
pub struct World<'q> {
    alloc: Global,
    question: &'q Question<'q>,
    words: Vec<u64>,
    views: Vec<View>,
}

impl<'q> Model for World<'q> {
    ghost use Rattle.step_core.specs.Configuration.{Configuration, IsWorld};

    ghost Value = { Configuration };

    ghost view = { λ w. record { question = w.question.now; words = w.words.items; views = w.views.items } };

    ghost invariant = { λ w. IsWorld (record {
      question = w.question.now;
      words = w.words.items;
      views = w.views.items;
    }) };
}

impl<'q> World<'q> {
    ghost use Rattle.step_core.specs.Configuration.{Configuration, IsWorld, view_of, seen_by, opening_configuration};
    ghost use Rattle.step_core.specs.Events.{IsLive, Raises, Lawful, looked, after, unless_there, unless_raised, is_bad_choice, given_by, reasons, first_of, Answers, HasRoom};

    /// Makes the opening world: the words have the unit at goals and 0 elsewhere, and view 0 has seen them.
    pub fn start(alloc: Global, question: &'q Question<'q>) -> Result<World<'q>, OutOfMemory>
        ensures { IfOk result (λ w. w ≡ opening_configuration question.now) }
    {
        question.invariant();
        let words = opening_words(alloc, question)?;
        let view = View::of_words(alloc, words.as_slice())?;
        let mut views = Vec::new(alloc);
        let Ok(()) = views.push(view) else {
            return Err(OutOfMemory {});
        };
        Ok(World {
            alloc,
            question,
            words,
            views,
        })
    }

    /// Takes an event, or refuses it and stays as it was. An event that is not lawful is refused for the first reason
    /// that holds. Any event may be refused because memory ran out.
    pub fn apply(&mut self, event: Event) -> Result<(), Refused>
        requires { HasRoom self.old event }
        ensures answer { Answers result (first_of (reasons self.old event)) }
        ensures lawful { OnOk result (Lawful self.old event) }
        ensures taken { OnOk result (self.new ≡ after self.old event) }
        ensures unlawful { IfErr result (λ refused. (refused ≡ Refused.OutOfMemory) ⊎ (Lawful self.old event → ⊥)) }
        ensures refused { OnErr result (self.new ≡ self.old) }
    {
        self.invariant();
        match event {
            Event::Load { view, state } => self.load(view, state),
            Event::Won {
                view,
                state,
                from,
                to,
            } => self.win(view, state, from, to),
            Event::Lost { view, state } => self.lose(view, state),
            Event::Split { view } => self.split(view),
            Event::Join { view, other } => self.join(view, other),
        }
    }

    /// Returns the word of a state.
    pub fn word(&self, state: u32) -> u64
        requires { state < states self.now.question }
        ensures { result ≡ slice_index self.now.words state }
    {
        self.words[state as usize]
    }

    /// Returns the word that a view has seen at a state, or none if the view is not live.
    pub fn seen(&self, view: u32, state: u32) -> Option<u64>
        requires { state < states self.now.question }
        ensures { result ≡ option_map (λ seen. slice_index seen state) (view_of self.now view) }
    {
        if !self.is_live(view) {
            return None;
        }
        Some(self.views[view as usize].words()[state as usize])
    }

    // Tells a proof what every world keeps. It does nothing.
    fn invariant(&self)
        ensures { IsWorld self.now }
    {
        let _ = &self.words;
    }

    // Returns whether a view is live.
    fn is_live(&self, view: u32) -> bool
        ensures { result ≡ is_some (view_of self.now view) }
    {
        match self.views.get(view as usize) {
            Some(view) => view.is_live(),
            None => false,
        }
    }

    // Checks that the view is live and that there is such a state.
    fn named(&self, view: u32, state: u32) -> Result<(), Refused>
        ensures ok { OnOk result (IsLive self.now view × (state < states self.now.question)) }
        ensures err { IfErr result (λ refused. (others : List (Bool × Refused))
            → first_of (unless_there self.now view state others) ≡ Some refused) }
    {
        if !self.is_live(view) {
            return Err(Refused::NoView);
        }
        if state as usize >= self.words.len() {
            return Err(Refused::NoState);
        }
        Ok(())
    }

    // The view sees the word of the state.
    fn look(&mut self, view: u32, state: u32)
        requires live { IsLive self.old view }
        requires state { state < states self.old.question }
        ensures { self.new ≡ looked self.old view state }
    {
        let word = self.words[state as usize];
        self.views[view as usize].see(state as usize, word);
    }

    fn load(&mut self, view: u32, state: u32) -> Result<(), Refused>
        ensures answer { Answers result (first_of (reasons self.old (Event.Load view state))) }
        ensures taken { OnOk result (self.new ≡ after self.old (Event.Load view state)) }
        ensures refused { OnErr result (self.new ≡ self.old) }
    {
        self.named(view, state)?;
        self.look(view, state);
        Ok(())
    }

    fn lose(&mut self, view: u32, state: u32) -> Result<(), Refused>
        ensures answer { Answers result (first_of (reasons self.old (Event.Lost view state))) }
        ensures taken { OnOk result (self.new ≡ after self.old (Event.Lost view state)) }
        ensures refused { OnErr result (self.new ≡ self.old) }
    {
        self.named(view, state)?;
        let seen = self.views[view as usize].words()[state as usize];
        if self.words[state as usize] == seen {
            return Err(Refused::SameWord);
        }
        self.look(view, state);
        Ok(())
    }

    // Returns whether the choice of a word is out of range at a state.
    fn is_bad_choice(&self, state: u32, choice: u32) -> bool
        requires { state < states self.now.question }
        ensures { result ≡ is_bad_choice self.now.question state choice }
    {
        match self.question.side(state) {
            Side::Max => choice >= self.question.game().choices_of(state),
            Side::Min => choice != 0,
        }
    }

    // Checks that the word of a state may be exchanged in this way, whichever view does it.
    fn raises(&self, state: u32, from: u64, to: u64) -> Result<(), Refused>
        requires { state < states self.now.question }
        ensures choice { OnOk result (is_bad_choice self.now.question state (choice_in to) ≡ false) }
        ensures ok { OnOk result ((others : List (Bool × Refused))
            → first_of (unless_raised self.now state from to others) ≡ first_of others) }
        ensures err { IfErr result (λ refused. (others : List (Bool × Refused))
            → first_of (unless_raised self.now state from to others) ≡ Some refused) }
    {
        if self.question.is_goal(state) || self.question.is_dead(state) {
            return Err(Refused::FixedState);
        }
        if self.is_bad_choice(state, choice_of(to)) {
            return Err(Refused::BadChoice);
        }
        if self.words[state as usize] != from {
            return Err(Refused::NotFrom);
        }
        if value_of(to) <= value_of(from) {
            return Err(Refused::NotRaised);
        }
        Ok(())
    }

    // Returns what a choice gives over what a view has seen. At a state of the minimiser it is the least that any
    // choice gives.
    fn given(&self, view: u32, state: u32, choice: u32) -> Result<u64, OutOfMemory>
        requires live { IsLive self.now view }
        requires state { state < states self.now.question }
        requires choice { is_bad_choice self.now.question state choice ≡ false }
        ensures { IfOk result (λ value. value ≡ given_by self.now.question
            (value_at (seen_by self.now view)) state choice) }
    {
        let seen = self.views[view as usize].values(self.alloc)?;
        match self.question.side(state) {
            Side::Max => Ok(down_choice(self.question, state, choice, seen.as_slice())),
            Side::Min => Ok(down_state(self.question, state, seen.as_slice()).0),
        }
    }

    // The view has exchanged the word of the state.
    fn raise(&mut self, view: u32, state: u32, to: u64)
        requires { Raises self.old view state (slice_index self.old.words state) to }
        ensures { self.new ≡ looked (record self.old { words = slice_set self.old.words state to }) view state }
    {
        self.words[state as usize] = to;
        self.views[view as usize].see(state as usize, to);
    }

    fn win(&mut self, view: u32, state: u32, from: u64, to: u64) -> Result<(), Refused>
        ensures answer { Answers result (first_of (reasons self.old (Event.Won view state from to))) }
        ensures taken { OnOk result (self.new ≡ after self.old (Event.Won view state from to)) }
        ensures refused { OnErr result (self.new ≡ self.old) }
    {
        self.named(view, state)?;
        self.raises(state, from, to)?;
        let Ok(given) = self.given(view, state, choice_of(to)) else {
            return Err(Refused::OutOfMemory);
        };
        if given < value_of(to) {
            return Err(Refused::TooHigh);
        }
        self.raise(view, state, to);
        Ok(())
    }

    fn split(&mut self, view: u32) -> Result<(), Refused>
        ensures answer { Answers result (first_of (reasons self.old (Event.Split view))) }
        ensures taken { OnOk result (self.new ≡ after self.old (Event.Split view)) }
        ensures refused { OnErr result (self.new ≡ self.old) }
    {
        if !self.is_live(view) {
            return Err(Refused::NoView);
        }
        let seen = self.views[view as usize].words();
        let Ok(copy) = View::of_words(self.alloc, seen) else {
            return Err(Refused::OutOfMemory);
        };
        let Ok(()) = self.views.push(copy) else {
            return Err(Refused::OutOfMemory);
        };
        Ok(())
    }

    // The view takes in the other, which is spent.
    fn meet(&mut self, view: u32, other: u32)
        requires live { IsLive self.old view }
        requires other { IsLive self.old other }
        requires apart { view ≢ other }
        ensures { self.new ≡ after self.old (Event.Join view other) }
    {
        let taken = mem::replace(&mut self.views[other as usize], View::spent(self.alloc));
        self.views[view as usize].take_in(&taken);
    }

    fn join(&mut self, view: u32, other: u32) -> Result<(), Refused>
        ensures answer { Answers result (first_of (reasons self.old (Event.Join view other))) }
        ensures taken { OnOk result (self.new ≡ after self.old (Event.Join view other)) }
        ensures refused { OnErr result (self.new ≡ self.old) }
    {
        if !self.is_live(view) || !self.is_live(other) {
            return Err(Refused::NoView);
        }
        if view == other {
            return Err(Refused::SameView);
        }
        self.meet(view, other);
        Ok(())
    }
}

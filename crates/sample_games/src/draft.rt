//! This module makes games from lists of edges.

ghost use Rattle.std.specs.Prelude.{◌≡◌, ℕ, ◌+◌, ◌*◌, ◌<◌, ◌≤◌, All, IfOk, IfSome, length, slice_index_or, true, false};
ghost use Rattle.game_model.specs.Limits.{most_choices};
ghost use Rattle.std.specs.Bool.{OnTrue};

use game_model::{Choice, Edge, Game, MOST_STATES, Question, Side};
use std::alloc::Global;
use std::mem::replace;
use std::test::Fail;

/// A state of a draft has at most this many choices.
const MOST_CHOICES: usize = 8;

/// A choice of a draft has at most this many edges.
const MOST_EDGES: usize = 8;

/// A weight of a draft is at most this number.
const MOST_WEIGHT: u64 = 1_000_000_000_000_000_000;

/// A game is being made: it has the states that are made, and the choices so far of the next state.
#[derive(Drop)]
pub struct Draft {
    states: u32,
    all: Vec<Vec<Choice>>,
    next: Vec<Choice>,
    ghost chosen: { All (λ c. 0 < length c.items) all.items },
    ghost bounded: { All (λ c. length c.items ≤ most_choices) all.items },
    ghost inside: { All (λ c. All (λ m. All (λ e. e.to < states) m.edges) c.items) all.items },
    ghost few: { length next.items ≤ most_choices },
    ghost within: { All (λ m. All (λ e. e.to < states) m.edges) next.items },
}

impl Draft {
    /// Begins a game of this many states, of which none is made.
    pub fn new(alloc: Global, states: u32) -> Draft {
        Draft {
            states,
            all: Vec::new(alloc),
            next: Vec::new(alloc),
        }
    }

    /// Adds a choice to the next state.
    pub fn choice(&mut self, alloc: Global, edges: &[(u32, u64)]) -> Option<()> {
        if self.next.len() >= MOST_CHOICES {
            return None;
        }
        let made = choice(alloc, self.states, edges)?;
        self.next.push(made).ok()
    }

    /// Makes the next state, if it has a choice.
    pub fn end_state(&mut self, alloc: Global) -> Option<()> {
        if self.next.is_empty() {
            return None;
        }
        let made = replace(&mut self.next, Vec::new(alloc));
        self.all.push(made).ok()
    }

    /// Makes the next state with these choices.
    pub fn state(&mut self, alloc: Global, choices: &[&[(u32, u64)]]) -> Option<()> {
        for edges in choices {
            self.choice(alloc, edges)?;
        }
        self.end_state(alloc)
    }

    /// Makes the next state with one choice.
    pub fn one(&mut self, alloc: Global, edges: &[(u32, u64)]) -> Option<()> {
        self.choice(alloc, edges)?;
        self.end_state(alloc)
    }

    /// Makes the next state with two choices.
    pub fn two(
        &mut self,
        alloc: Global,
        first: &[(u32, u64)],
        second: &[(u32, u64)],
    ) -> Option<()> {
        self.choice(alloc, first)?;
        self.one(alloc, second)
    }

    /// Returns the game if all its states are made.
    pub fn game(self, alloc: Global) -> Option<Game> {
        let Draft {
            states,
            all,
            next: _,
        } = self;
        if states == 0 || states > MOST_STATES || all.len() != states as usize {
            return None;
        }
        Game::from_choices(alloc, all).ok()
    }

    /// Returns the game if it has this many states.
    pub(crate) fn game_with(self, alloc: Global, states: usize) -> Result<Game, Fail>
        ensures { IfOk result (λ game. length game ≡ states) }
    {
        match self.game(alloc) {
            Some(game) if game.states() as usize == states => Ok(game),
            _ => Err(Fail::new("no game of so many states")),
        }
    }
}

/// Makes the game of these states. Each state has these choices, and each choice has these successors, in rising order,
/// with these weights.
pub fn game_of(alloc: Global, states: &[&[&[(u32, u64)]]]) -> Result<Game, Fail>
    ensures { IfOk result (λ game. length game ≡ length states.now) }
{
    let Ok(count) = u32::try_from(states.len()) else {
        return Err(Fail::new("too many states"));
    };
    let mut draft = Draft::new(alloc, count);
    for choices in states {
        if draft.state(alloc, choices).is_none() {
            return Err(Fail::new("no state with these choices"));
        }
    }
    draft.game_with(alloc, states.len())
}

/// Sorts the edges of a choice by successor and joins the parts of one successor.
pub(crate) fn merged(alloc: Global, parts: &[(u32, u64)]) -> Option<Vec<(u32, u64)>> {
    let mut sorted = parts.to_vec(alloc).ok()?;
    sorted.sort().ok()?;
    let mut edges: Vec<(u32, u64)> = Vec::new(alloc);
    for (to, part) in &sorted {
        let weight = match edges.pop() {
            Some((last, weight)) if last == *to => weight.saturating_add(*part),
            Some(edge) => {
                edges.push(edge).ok()?;
                *part
            }
            None => *part,
        };
        edges.push((*to, weight)).ok()?;
    }
    Some(edges)
}

// Makes the choice with these edges, if there are some but not too many, and they rise.
fn choice(alloc: Global, states: u32, edges: &[(u32, u64)]) -> Option<Choice>
    ensures { IfSome result (λ m. All (λ e. e.to < states) m.edges) }
{
    let mut made = Vec::new(alloc);
    let mut least = 0;
    for (to, weight) in edges {
        if *to < least
            || *to >= states
            || *weight == 0
            || *weight > MOST_WEIGHT
            || made.len() == MOST_EDGES
        {
            return None;
        }
        let edge = Edge {
            to: *to,
            weight: u128::from(*weight),
        };
        let Ok(()) = made.push(edge) else {
            return None;
        };
        least = *to + 1;
    }
    if made.is_empty() {
        return None;
    }
    Some(Choice::of_edges(made))
}

/// Poses the question of these lists, if each has one entry per state and no state is both goal and dead.
pub(crate) fn question(
    game: &Game,
    sides: Vec<Side>,
    goal: Vec<bool>,
    dead: Vec<bool>,
) -> Option<Question<'_>> {
    let states = game.states() as usize;
    if sides.len() != states || goal.len() != states || dead.len() != states {
        return None;
    }
    if !are_apart(goal.as_slice(), dead.as_slice()) {
        return None;
    }
    Some(Question::build(game, sides, goal, dead))
}

/// Poses the question with these states of the minimiser, these goals and these dead states.
pub fn question_with<'g>(
    alloc: Global,
    game: &'g Game,
    minimiser: &[u32],
    goal: &[u32],
    dead: &[u32],
) -> Option<Question<'g>> {
    let mut lists = Lists::new(alloc);
    for state in 0..game.states() {
        let side = if minimiser.contains(&state) {
            Side::Min
        } else {
            Side::Max
        };
        lists.add(side, goal.contains(&state), dead.contains(&state))?;
    }
    lists.question(game)
}

/// These are the lists of a question that is being made state by state.
#[derive(Drop)]
pub(crate) struct Lists {
    sides: Vec<Side>,
    goals: Vec<bool>,
    deads: Vec<bool>,
}

impl Lists {
    /// Makes the lists of no states.
    pub(crate) fn new(alloc: Global) -> Lists {
        Lists {
            sides: Vec::new(alloc),
            goals: Vec::new(alloc),
            deads: Vec::new(alloc),
        }
    }

    /// Adds the next state.
    pub(crate) fn add(&mut self, side: Side, is_goal: bool, is_dead: bool) -> Option<()> {
        self.sides.push(side).ok()?;
        self.goals.push(is_goal).ok()?;
        self.deads.push(is_dead).ok()
    }

    /// Poses the question of these lists.
    pub(crate) fn question(self, game: &Game) -> Option<Question<'_>> {
        let Lists {
            sides,
            goals,
            deads,
        } = self;
        question(game, sides, goals, deads)
    }
}

// Returns whether no state is both goal and dead.
fn are_apart(goal: &[bool], dead: &[bool]) -> bool
    requires { length goal.now ≡ length dead.now }
    ensures { OnTrue result ((s : ℕ) → slice_index_or goal.now s false ≡ true
        → slice_index_or dead.now s false ≡ false) }
{
    for state in 0..goal.len() {
        if goal[state] && dead[state] {
            return false;
        }
    }
    true
}

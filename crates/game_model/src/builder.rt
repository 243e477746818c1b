//! This module builds a game, choice after choice, or from lists of choices.

ghost use Rattle.std.specs.Prelude.{◌≡◌, ◌+◌, ◌-◌, ◌/◌, ◌%◌, ◌^◌, ◌<◌, ◌≤◌, [], ◌∷◌, ◌++◌, length, map, All, IfOk, OnErr};
ghost use Rattle.game_model.specs.Game.{IsDistribution, total_of};
ghost use Rattle.game_model.specs.Limits.{most_states, most_choices};
ghost use Rattle.game_model.specs.Flat.{kept_total, last_of};
ghost use Rattle.game_model.specs.Draft.{no_states, between, with_choice, with_state};
ghost use Rattle.game_model.specs.Growing.{IsLonger, IsPadded, IsSameBelow, HasHighWords, IsPushed, IsStill};

use crate::game::{Choice, Edge, Game};
use game_outside::OutOfMemory;
use std::alloc::{AllocError, Global};
use std::marker::Model;

/// A builder holds the states that have ended, and the choices of the next state that have been added so far.
#[derive(Debug, Drop)]
pub struct GameBuilder {
    first_choice: Vec<u32>,
    first_edge: Vec<u32>,
    totals: Vec<u64>,
    to: Vec<u32>,
    low: Vec<u64>,
    high: Vec<u64>,
}

impl Model for GameBuilder {
    ghost use Rattle.game_model.specs.Draft.{Draft};

    ghost Value = { Draft };

    ghost use Rattle.game_model.specs.OfBuilder.{draft_of, IsBuilder};

    ghost view = { draft_of };

    ghost invariant = { IsBuilder };
}

impl GameBuilder {
    /// Returns an empty builder. This call and the others fail only if memory runs out; more than 2^32 - 1 choices or
    /// edges count as that.
    pub fn new(alloc: Global) -> Result<GameBuilder, OutOfMemory>
        ensures { IfOk result (λ b. b ≡ no_states) }
    {
        let mut first_choice = Vec::new(alloc);
        first_choice.push(0)?;
        let mut first_edge = Vec::new(alloc);
        first_edge.push(0)?;
        Ok(GameBuilder {
            first_choice,
            first_edge,
            totals: Vec::new(alloc),
            to: Vec::new(alloc),
            low: Vec::new(alloc),
            high: Vec::new(alloc),
        })
    }

    /// Adds a choice to the state that is being built.
    pub fn push_choice(&mut self, choice: &Choice) -> Result<(), OutOfMemory>
        ensures ok { IfOk result (λ _. self.new ≡ with_choice self.old choice.now) }
        ensures err { OnErr result (self.new ≡ self.old) }
    {
        choice.invariant();
        self.push_edges(choice.total(), choice.edges())
    }

    /// Adds the choice with this total and these edges to the state that is being built.
    pub fn push_edges(&mut self, total: u128, edges: &[Edge]) -> Result<(), OutOfMemory>
        requires { IsDistribution (record { total = total; edges = edges.now }) }
        ensures ok { IfOk result (λ _. self.new ≡ with_choice self.old (record { total = total; edges = edges.now })) }
        ensures err { OnErr result (self.new ≡ self.old) }
    {
        add_choice(
            &mut self.first_edge,
            &mut self.totals,
            &mut self.to,
            &mut self.low,
            &mut self.high,
            total,
            edges,
        )
    }

    /// Ends the state that is being built.
    pub fn end_state(&mut self) -> Result<(), OutOfMemory>
        ensures ok { IfOk result (λ _. self.new ≡ with_state self.old) }
        ensures err { OnErr result (self.new ≡ self.old) }
    {
        let end = self.first_edge.len() - 1;
        if end > 4_294_967_295 {
            return Err(OutOfMemory {});
        }
        self.first_choice.push(end as u32)?;
        Ok(())
    }

    /// Adds a state with these choices. The state that is being built has no choice yet.
    pub fn add_state(&mut self, choices: &[Choice]) -> Result<(), OutOfMemory>
        requires { self.old.under_way ≡ [] }
        ensures { IfOk result (λ _. self.new ≡ between (self.old.done ++ choices.now ∷ [])) }
    {
        for choice in choices {
            self.push_choice(choice)?;
        }
        self.end_state()
    }

    /// Returns the game of the states that have ended. A state that is being built is left out.
    pub fn finish(self) -> Game
        requires some { 0 < length self.done }
        requires few { length self.done ≤ most_states }
        requires chosen { All (λ c. 0 < length c) self.done }
        requires bounded { All (λ c. length c ≤ most_choices) self.done }
        requires inside { All (λ c. All (λ m. All (λ e. e.to < length self.done) m.edges) c) self.done }
        ensures { result ≡ self.done }
    {
        Game {
            first_choice: self.first_choice,
            first_edge: self.first_edge,
            totals: self.totals,
            to: self.to,
            low: self.low,
            high: self.high,
        }
    }
}

/// Appends the choice with this total and these edges. After an error the parts of the lists that are in use are as
/// before.
fn add_choice(
    first_edge: &mut Vec<u32>,
    totals: &mut Vec<u64>,
    to: &mut Vec<u32>,
    low: &mut Vec<u64>,
    high: &mut Vec<u64>,
    total: u128,
    edges: &[Edge],
) -> Result<(), OutOfMemory>
    requires some { 0 < length first_edge.old.items }
    requires totals { length first_edge.old.items ≤ length totals.old.items + 1 }
    requires to { last_of first_edge.old.items ≤ length to.old.items }
    requires low { last_of first_edge.old.items ≤ length low.old.items }
    requires total { total ≡ total_of edges.now }
    ensures ok { IfOk result (λ _. IsPushed first_edge.old.items totals.old.items to.old.items low.old.items
        high.old.items edges.now first_edge.new.items totals.new.items to.new.items low.new.items
        high.new.items) }
    ensures err { OnErr result (IsStill first_edge.old.items totals.old.items to.old.items low.old.items high.old.items
        first_edge.new.items totals.new.items to.new.items low.new.items high.new.items) }
{
    let count = first_edge.len() - 1;
    let begin = first_edge[count] as usize;
    totals.truncate(count);
    to.truncate(begin);
    low.truncate(begin);
    high.truncate(begin);
    add_high(high, begin, total, edges)?;
    add_edges(to, low, edges)?;
    totals.push(kept(total))?;
    if to.len() > 4_294_967_295 {
        return Err(OutOfMemory {});
    }
    first_edge.push(to.len() as u32)?;
    Ok(())
}

/// Returns the number that is kept for a total: the total if it fits 64 bits, else 0.
fn kept(total: u128) -> u64
    ensures { result ≡ kept_total total }
{
    if total < 18_446_744_073_709_551_616 {
        total as u64
    } else {
        0
    }
}

/// Appends edges, with the low words of their weights.
fn add_edges(to: &mut Vec<u32>, low: &mut Vec<u64>, edges: &[Edge]) -> Result<(), AllocError>
    ensures to { IfOk result (λ _. to.new.items ≡ to.old.items ++ map (λ e. e.to) edges.now) }
    ensures low { IfOk result (λ _. low.new.items ≡ low.old.items ++ map (λ e. e.weight % 2 ^ 64) edges.now) }
    ensures to_longer { IsLonger to.old.items to.new.items }
    ensures low_longer { IsLonger low.old.items low.new.items }
{
    for edge in edges {
        to.push(edge.to)?;
        low.push((edge.weight % 18_446_744_073_709_551_616) as u64)?;
    }
    Ok(())
}

/// Puts the high words of the weights at this place if the total is 2^64 or more.
fn add_high(
    high: &mut Vec<u64>,
    begin: usize,
    total: u128,
    edges: &[Edge],
) -> Result<(), AllocError>
    requires short { length high.old.items ≤ begin }
    requires total { total ≡ total_of edges.now }
    ensures below { IsSameBelow begin high.old.items high.new.items }
    ensures ok { IfOk result (λ _. HasHighWords begin edges.now high.new.items) }
{
    if total >= 18_446_744_073_709_551_616 {
        pad(high, begin)?;
        push_high(high, edges)?;
    }
    Ok(())
}

/// Appends zeros, up to this length.
fn pad(high: &mut Vec<u64>, begin: usize) -> Result<(), AllocError>
    requires { length high.old.items ≤ begin }
    ensures padded { IsPadded high.old.items high.new.items }
    ensures len { IfOk result (λ _. length high.new.items ≡ begin) }
{
    for _place in high.len()..begin {
        high.push(0)?;
    }
    Ok(())
}

/// Appends the high words of the weights.
fn push_high(high: &mut Vec<u64>, edges: &[Edge]) -> Result<(), AllocError>
    ensures items { IfOk result (λ _. high.new.items ≡ high.old.items ++ map (λ e. e.weight / 2 ^ 64) edges.now) }
    ensures longer { IsLonger high.old.items high.new.items }
{
    for edge in edges {
        high.push((edge.weight / 18_446_744_073_709_551_616) as u64)?;
    }
    Ok(())
}

impl Game {
    ghost use Rattle.game_model.specs.Made.{game_of};

    /// Returns the game with these choices at each state. It fails only if memory runs out.
    pub fn from_choices(alloc: Global, choices: Vec<Vec<Choice>>) -> Result<Game, OutOfMemory>
        requires some { 0 < length choices.items }
        requires few { length choices.items ≤ most_states }
        requires chosen { All (λ c. 0 < length c.items) choices.items }
        requires bounded { All (λ c. length c.items ≤ most_choices) choices.items }
        requires inside { All (λ c. All (λ m. All (λ e. e.to < length choices.items) m.edges) c.items) choices.items }
        ensures { IfOk result (λ game. game ≡ game_of choices) }
    {
        let mut builder = GameBuilder::new(alloc)?;
        for state in &choices {
            builder.add_state(state)?;
        }
        Ok(builder.finish())
    }
}

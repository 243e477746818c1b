//! This module says what has become of the finished choices of a game under way.

ghost use Rattle.std.specs.Prelude.{◌≡◌, ◌≤◌, IfOk, IfErr};
ghost use Rattle.game_model.specs.Limits.{most_choices};
ghost use Rattle.transition_lines.specs.Choices.{self_loop};
ghost use Rattle.tra_reader.specs.inside.GrowingGames.{IsBuilt, IsChoiceFault, EndsChoice, EndsState, CrowdsState, NotesGap, ended, after_fault};

use distributions::laws::said_is_denoted;
use distributions::{ChoiceFault, Part, fill_choice, shares_are_fractions};
use game_model::{Choice, Edge, GameBuilder, MOST_CHOICES};
use std::alloc::{AllocError, Global};
use transition_lines::{MOST_LINES, TraFault};

/// The build state says what has become of the finished choices.
#[derive(Drop)]
pub enum BuildState {
    /// They are in the builder.
    Builds(GameBuilder),
    /// The first choice that is no distribution has this fault. No more choices are built.
    Faulty(TraFault),
    /// This is the first state with more choices than a state may have. No more choices are built.
    Crowded { state: u32 },
    /// This is the first choice that is missing before one that is there.
    Gap { state: u32, choice: u32 },
    /// Memory ran out.
    OutOfMemory,
}

impl BuildState {
    /// Finishes the choice of this state with these parts. The list of edges is room to make it in.
    pub fn push(
        &mut self,
        alloc: Global,
        room: &mut Vec<Edge>,
        parts: &[Part],
        state: u32,
        choice: u32,
    )
        ensures { EndsChoice parts.now state choice self.old self.new }
    {
        if let BuildState::Builds(builder) = self {
            if let Err(fault) = build(alloc, builder, room, parts) {
                *self = after_fault(state, choice, fault);
            }
        }
    }

    /// Ends the state, which has this many choices.
    pub fn end_state(&mut self, alloc: Global, state: u32, choices: u32)
        ensures { EndsState state choices self.old self.new }
    {
        if choices > MOST_CHOICES {
            self.note_crowded(state);
            return;
        }
        self.end_few(alloc, state, choices);
    }

    // Notes that the state has more choices than a state may have.
    fn note_crowded(&mut self, state: u32)
        ensures { CrowdsState state self.old self.new }
    {
        match self {
            BuildState::Builds(_) | BuildState::Faulty(_) => *self = BuildState::Crowded { state },
            BuildState::Gap { .. } | BuildState::Crowded { .. } | BuildState::OutOfMemory => {}
        }
    }

    // Ends the state, which has this many choices, and not too many.
    fn end_few(&mut self, alloc: Global, state: u32, choices: u32)
        requires { choices ≤ most_choices }
        ensures { EndsState state choices self.old self.new }
    {
        if let BuildState::Builds(builder) = self {
            if end(alloc, builder, state, choices).is_err() {
                *self = BuildState::OutOfMemory;
            }
        }
    }

    /// Notes that this choice is missing before one that is there.
    pub fn note_gap(&mut self, state: u32, choice: u32)
        ensures { NotesGap state choice self.old self.new }
    {
        match self {
            BuildState::Builds(_) | BuildState::Faulty(_) | BuildState::Crowded { .. } => {
                *self = BuildState::Gap { state, choice };
            }
            BuildState::Gap { .. } | BuildState::OutOfMemory => {}
        }
    }
}

// Puts the choice with these parts behind the others. More parts than a text has lines count as if memory ran out.
fn build(
    alloc: Global,
    builder: &mut GameBuilder,
    room: &mut Vec<Edge>,
    parts: &[Part],
) -> Result<(), ChoiceFault>
    ensures ok { IfOk result (λ _. IsBuilt parts.now builder.old builder.new) }
    ensures err { IfErr result (IsChoiceFault parts.now) }
{
    if parts.len() > MOST_LINES as usize {
        return Err(ChoiceFault::OutOfMemory);
    }
    shares_are_fractions(parts);
    said_is_denoted();
    let total = fill_choice(alloc, room, parts)?;
    if builder.push_edges(total, room).is_err() {
        return Err(ChoiceFault::OutOfMemory);
    }
    Ok(())
}

// Returns the build state after a choice with this fault.
fn after_fault(state: u32, choice: u32, fault: ChoiceFault) -> BuildState
    ensures { result ≡ after_fault state choice fault }
{
    match fault {
        ChoiceFault::OutOfMemory => BuildState::OutOfMemory,
        _ => BuildState::Faulty(TraFault::of_choice(state, choice, fault)),
    }
}

// Ends the state, which has this many choices. If it has none, it gets a move to itself.
fn end(alloc: Global, builder: &mut GameBuilder, state: u32, choices: u32) -> Result<(), AllocError>
    ensures { IfOk result (λ _. builder.new ≡ ended state choices builder.old) }
{
    if choices == 0 {
        let choice = stay(alloc, state)?;
        if builder.push_choice(&choice).is_err() {
            return Err(AllocError {});
        }
    }
    if builder.end_state().is_err() {
        return Err(AllocError {});
    }
    Ok(())
}

// Makes a move of weight 1 to the state itself.
fn stay(alloc: Global, state: u32) -> Result<Choice, AllocError>
    ensures { IfOk result (λ c. c ≡ self_loop state) }
{
    let mut edges = Vec::new(alloc);
    edges.push(Edge {
        to: state,
        weight: 1,
    })?;
    Ok(Choice::of_edges(edges))
}

//! Two races run in turn: rounds on the words of a question, and on those of the swapped question.

ghost use Rattle.std.specs.Prelude.{◌≡◌, IfOk};
ghost use Rattle.game_model.specs.Dual.{IsZeroSet};
ghost use Rattle.verdicts.specs.Stop.{bound_of, IsStopRule};
ghost use Rattle.marked_rounds.specs.Rounds.{IsRacing};
ghost use Rattle.bracket_engine.specs.inside.Race.{AreOver, HaveRaced};

use crate::rounds::Rounds;
use crate::stopping::SettlingGuess;
use game_model::Question;
use game_outside::{Gate, OutOfMemory};
use marked_rounds::{Runner, close, one_round, open};
use std::alloc::Global;
use std::thread::Threads;
use upper_guess::Witnesses;
use value_words::{Posing, Words};

/// These are the closed words of two races, and how their rounds ended.
#[derive(Drop)]
pub struct Raced {
    /// These are the words of the question.
    pub words: Words,
    /// These are the words of the swapped question.
    pub swapped_words: Words,
    /// This many rounds were completed on each.
    pub rounds: u32,
    /// This says whether the last round changed nothing on either.
    pub quiet: bool,
    /// This is the guess that settled the threshold, if one did.
    pub kept: Option<SettlingGuess>,
}

/// The words of these two races are not closed yet, but their rounds have ended.
#[derive(Drop)]
pub struct Racers<'q, 's, P: Posing, C: Posing> {
    pub lower: Runner<'q, P>,
    pub swapped: Runner<'s, C>,
    pub rounds: u32,
    pub quiet: bool,
    pub kept: Option<SettlingGuess>,
}

/// Makes at most `rounds.most` rounds on the words of both questions. The rounds end early after one that changed
/// nothing on either, which shows that the words of both are settled, or when a guess settles the threshold at each
/// initial state.
pub fn race<
    R: Threads + Sync,
    P: Posing + Send + Sync,
    C: Posing + Send + Sync,
    F: Fn(u64, u64) -> bool,
    G: Gate + Sync,
>(alloc: Global, rounds: &Rounds<'_, R, F, G>, swapped: &Question<'_>) -> Result<Raced, OutOfMemory>
    requires rule { IsStopRule F.Fn rounds.now.ending.now.rule.now }
    requires zero { IsZeroSet rounds.now.ending.now.question.now rounds.now.ending.now.zero.now }
    requires posed { rounds.now.ending.now.question.now ≡ P.posed }
    requires swapped_posed { swapped.now ≡ C.posed }
    requires game { C.posed.game ≡ P.posed.game }
    ensures { IfOk result (AreOver P.posed C.posed rounds.now.ending.now.zero.now
        (bound_of rounds.now.ending.now.rule.now) rounds.now.ending.now.initial.now rounds.now.most) }
{
    let lower = open::<P>(alloc, rounds.ending.question)?;
    let swapped = open::<C>(alloc, swapped)?;
    let racers = run_rounds(alloc, rounds, lower, swapped)?;
    let words = close(alloc, racers.lower)?;
    let swapped_words = close(alloc, racers.swapped)?;
    Ok(Raced {
        words,
        swapped_words,
        rounds: racers.rounds,
        quiet: racers.quiet,
        kept: racers.kept,
    })
}

// Makes at most `rounds.most` rounds on both, until one changes nothing on either or a guess settles the threshold.
fn run_rounds<
    'q,
    's,
    R: Threads + Sync,
    P: Posing + Send + Sync,
    C: Posing + Send + Sync,
    F: Fn(u64, u64) -> bool,
    G: Gate + Sync,
>(
    alloc: Global,
    rounds: &Rounds<'_, R, F, G>,
    mut lower: Runner<'q, P>,
    mut swapped: Runner<'s, C>,
) -> Result<Racers<'q, 's, P, C>, OutOfMemory>
    requires rule { IsStopRule F.Fn rounds.now.ending.now.rule.now }
    requires zero { IsZeroSet rounds.now.ending.now.question.now rounds.now.ending.now.zero.now }
    requires posed { rounds.now.ending.now.question.now ≡ P.posed }
    requires game { C.posed.game ≡ P.posed.game }
    requires lower { IsRacing P.posed 0 lower.pass lower.dirty }
    requires swapped { IsRacing C.posed 0 swapped.pass swapped.dirty }
    ensures { IfOk result (λ racers. HaveRaced P.posed C.posed rounds.now.ending.now.zero.now
        (bound_of rounds.now.ending.now.rule.now) rounds.now.ending.now.initial.now rounds.now.most racers) }
{
    let rt = rounds.parallel.rt;
    let lists = rounds.ending.predecessors;
    let mut witnesses = Witnesses::none();
    for turn in 0..rounds.most {
        let (next, changed) = one_round(rt, lists, lower, rounds.workers, rounds.gate);
        lower = next;
        let (next, swapped_changed) = one_round(rt, lists, swapped, rounds.workers, rounds.gate);
        swapped = next;
        if !changed && !swapped_changed {
            return Ok(Racers {
                lower,
                swapped,
                rounds: turn + 1,
                quiet: true,
                kept: None,
            });
        }
        let kept = rounds.ending.asked_after(
            rounds.parallel,
            alloc,
            turn + 1,
            &lower.dirty.read,
            &swapped.dirty.read,
            &mut witnesses,
        )?;
        if kept.is_some() {
            return Ok(Racers {
                lower,
                swapped,
                rounds: turn + 1,
                quiet: false,
                kept,
            });
        }
    }
    Ok(Racers {
        lower,
        swapped,
        rounds: rounds.most,
        quiet: false,
        kept: None,
    })
}

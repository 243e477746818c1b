//! This module makes what `make` says of a game that a seed draws.
//!
//! [`drawn_report`] writes one line on the bracket of its question: the number of states of value 0, and the sums of
//! the lower and the upper table if the run is settled. A law in `laws.rt` says that two settled runs of the same game
//! have the same line.

ghost use Rattle.std.specs.Prelude.{◌≡◌, ◌<◌, ◌^◌, IfOk, count_by};
ghost use Rattle.std.specs.String.{string_bytes};
ghost use Rattle.command_words.specs.Words.{IsMakeInRange, make_of};
ghost use Rattle.reports.specs.Made.{IsMade, ending, status_made, sum_of, summary_text};
ghost use Rattle.output.specs.Status.{IsAnswer};

use bracket_engine::{Bracket, bracket_for};
use command_words::MakeWords;
use drawn_game::draw_game;
use formula_reader::Bound;
use game_model::Marks;
use game_outside::{Gate, OutOfMemory};
use output::{Answer, Status};
use predecessors::Predecessors;
use std::alloc::{AllocError, Global};
use std::thread::Threads;

/// Computes the bracket of the drawn question and summarises it. The only error is that memory ran out.
pub fn drawn_report<R: Threads + Sync, G: Gate + Sync>(
    rt: &R,
    alloc: Global,
    make: &MakeWords,
    gate: &G,
) -> Result<Answer, OutOfMemory>
    requires { IsMakeInRange (make_of make.now) }
    ensures made { IfOk result (λ answer. IsMade make.now.seed make.now.states make.now.rounds answer.text.items
        answer.status) }
    ensures answer { IfOk result (λ answer. IsAnswer answer.status) }
{
    let drawn = draw_game(alloc, make.seed, make.states)?;
    drawn.invariant();
    let question = drawn.question(alloc)?;
    question.invariant();
    let predecessors = Predecessors::of_game(alloc, question.game())?;
    let found = bracket_for(
        rt,
        alloc,
        &question,
        &predecessors,
        Bound::AskMax,
        &[0],
        make.rounds,
        make.workers,
        gate,
    )?;
    write_summary(alloc, make, &found.zero, &found.bracket)
}

// Writes the summary line of a bracket, with its status.
fn write_summary(
    alloc: Global,
    make: &MakeWords,
    zero: &Marks,
    found: &Bracket,
) -> Result<Answer, OutOfMemory>
    requires fits { (sum_of found.now.plan.lower.items < 2 ^ 128) × (sum_of found.now.plan.upper.items < 2 ^ 128) }
    ensures text { IfOk result (λ answer. answer.text.items ≡ summary_text make.now.seed make.now.states
        (count_by (λ marked. marked) zero.now) found.now.stable found.now.plan.lower.items found.now.plan.upper.items) }
    ensures status { IfOk result (λ answer. answer.status ≡ status_made found.now.stable) }
    ensures answer { IfOk result (λ answer. IsAnswer answer.status) }
{
    let seed = make.seed;
    let states = make.states;
    let count = zero.count();
    let end = ending(alloc, found)?;
    let line = format!(in alloc; "model seed {seed} states {states} zero {count}{end}")?;
    Ok(Answer {
        text: line.into_bytes(),
        status: status_made(found.stable),
    })
}

// Writes the sums of the lower and the upper table if the run is settled.
fn ending(alloc: Global, found: &Bracket) -> Result<String, AllocError>
    requires fits { (sum_of found.now.plan.lower.items < 2 ^ 128) × (sum_of found.now.plan.upper.items < 2 ^ 128) }
    ensures { IfOk result (λ end. string_bytes end ≡ ending found.now.stable found.now.plan.lower.items
        found.now.plan.upper.items) }
{
    if found.stable {
        let lower = sum_of(&found.plan.lower);
        let upper = sum_of(&found.plan.upper);
        format!(in alloc; " lower {lower} upper {upper} settled\n")
    } else {
        String::from_str(alloc, " unsettled\n")
    }
}

// Sums a table, in units. The sum over all states is at most 10^21.
fn sum_of(table: &[u64]) -> u128
    requires { sum_of table.now < 2 ^ 128 }
    ensures { result ≡ sum_of table.now }
{
    table.iter().map(|entry| u128::from(*entry)).sum()
}

// The status is `Fine` if the run is settled, and else `SomeUndecided`.
fn status_made(stable: bool) -> Status
    ensures status { result ≡ status_made stable }
    ensures answer { IsAnswer result }
{
    if stable {
        Status::Fine
    } else {
        Status::SomeUndecided
    }
}

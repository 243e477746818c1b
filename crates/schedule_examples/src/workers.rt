//! Threads race over the agreement protocol, and workers share it.

ghost use Rattle.std.specs.Prelude.{◌≡◌, ◌≤◌, length};
ghost use Rattle.game_model.specs.Query.{states};
ghost use Rattle.value_words.specs.Passes.{IsOf, Grew};

use game_model::{Game, Question, UNIT};
use game_outside::HoldGate;
use predecessors::Predecessors;
use round_workers::{first_state, round, worker_of};
use sample_games::expectations::{holds, same};
use sample_games::{agreement_game, agreement_question};
use std::alloc::Global;
use std::marker::Brand;
use std::mem::size_of;
use std::test::Fail;
use std::thread::{Threads, join};
use step_core::value_of;
use value_words::{Pass, Posing, ValueTable, Words};

#[test]
fn a_pass_has_no_bytes() -> Result<(), Fail> {
    same("bytes", size_of::<Pass<Brand>>(), 0)
}

// Updates all states three times.
fn sweeps<P: Posing>(table: &ValueTable<'_, P>, mut pass: Pass<P>, count: u32) -> Pass<P>
    requires pass { IsOf table.now pass }
    requires count { count ≤ states P.posed }
    ensures { Grew pass result }
{
    for _turn in 0..3 {
        for state in 0..count {
            table.update(&mut pass, state);
        }
    }
    pass
}

// Runs two threads with a pass each. It returns the final words, and writes the values that the met pass has read.
fn two_threads<P: Posing + Send + Sync, R: Threads + Sync>(
    rt: &R,
    alloc: Global,
    question: &Question<'_>,
    seen: &mut [u64],
) -> Option<Words>
    requires posed { question.now ≡ P.posed }
    requires seen { length seen.old ≡ states P.posed }
{
    let (table, mut pass) = ValueTable::<P>::start(alloc, question).ok()?;
    let count = question.game().states();
    let other = table.split(&mut pass);
    let (mut pass, other) = join(
        rt,
        || -> Pass<P>
            requires { IsOf table pass × (count ≤ states P.posed) }
            ensures { Grew pass result }
        { sweeps(&table, pass, count) },
        || -> Pass<P>
            requires { IsOf table other × (count ≤ states P.posed) }
            ensures { Grew other result }
        { sweeps(&table, other, count) },
    );
    table.meet(&mut pass, other);
    table.read_into(&mut pass, seen);
    table.close(alloc, pass).ok()
}

// The value that was read at a state is not above the final one.
fn is_read(state: usize, word: u64, value: u64) -> Result<(), Fail> {
    holds(format_args!("read at {state}"), value_of(word) >= value)
}

// No value that was read is above the final one.
fn are_read(words: &[u64], seen: &[u64]) -> Result<(), Fail> {
    same("entries", (words.len(), seen.len()), (12, 12))?;
    for (state, (word, value)) in words.iter().zip(seen.iter()).enumerate() {
        is_read(state, *word, *value)?;
    }
    Ok(())
}

// Three sweeps reach what one thread reaches: state 3 leads to state 4, and state 4 to the goal.
fn are_reached(seen: &[u64]) -> Result<(), Fail> {
    let third = seen.get(3).copied().unwrap_or(0);
    same(
        "seen",
        (seen.get(11), seen.get(4), seen.get(10), third >= UNIT / 2),
        (Some(&UNIT), Some(&UNIT), Some(&0), true),
    )
}

// Two threads read no value above the final one, and reach what one thread reaches.
fn race_reaches_the_values<R: Threads + Sync>(
    rt: &R,
    alloc: Global,
    question: &Question<'_>,
) -> Result<(), Fail> {
    question.invariant();
    let mut seen = vec![in alloc; 0u64; question.game().states() as usize]?;
    let words = two_threads::<Brand, _>(rt, alloc, question, &mut seen).ok_or("memory")?;
    are_read(words.as_slice(), &seen)?;
    are_reached(&seen)
}

#[test]
fn two_threads_race_over_the_agreement_protocol(rt: HostRuntime) -> Result<(), Fail> {
    let alloc = rt.alloc();
    let game = agreement_game(alloc).ok_or("the game")?;
    let question = agreement_question(alloc, &game).ok_or("the question")?;
    race_reaches_the_values(&rt, alloc, &question)
}

// Makes this many rounds of two workers over all states, from the opening table on. It returns the final words.
fn rounds_over<P: Posing + Send + Sync, R: Threads + Sync>(
    rt: &R,
    alloc: Global,
    question: &Question<'_>,
    predecessors: &Predecessors,
    marks: &[bool],
    more: &mut [bool],
    count: u32,
    gate: &HoldGate,
) -> Option<Words>
    requires posed { question.now ≡ P.posed }
    requires predecessors { length predecessors.now ≡ states P.posed }
    requires marks { length marks.now ≡ states P.posed }
    requires more { length more.old ≡ states P.posed }
{
    let (table, pass) = ValueTable::<P>::start(alloc, question).ok()?;
    let pass = repeat(rt, &table, predecessors, pass, marks, more, count, gate);
    table.close(alloc, pass).ok()
}

// Makes the rounds with all states marked.
fn rounds<R: Threads + Sync>(
    rt: &R,
    alloc: Global,
    question: &Question<'_>,
    count: u32,
    gate: &HoldGate,
) -> Option<Words> {
    question.invariant();
    let states = question.game().states() as usize;
    let predecessors = Predecessors::of_game(alloc, question.game()).ok()?;
    let marks = vec![in alloc; true; states].ok()?;
    let mut more = vec![in alloc; false; states].ok()?;
    rounds_over::<Brand, _>(
        rt,
        alloc,
        question,
        &predecessors,
        &marks,
        &mut more,
        count,
        gate,
    )
}

fn repeat<P: Posing + Send + Sync, R: Threads + Sync>(
    rt: &R,
    table: &ValueTable<'_, P>,
    predecessors: &Predecessors,
    mut pass: Pass<P>,
    marks: &[bool],
    more: &mut [bool],
    count: u32,
    gate: &HoldGate,
) -> Pass<P>
    requires pass { IsOf table.now pass }
    requires predecessors { length predecessors.now ≡ states P.posed }
    requires marks { length marks.now ≡ states P.posed }
    requires more { length more.old ≡ states P.posed }
    ensures { Grew pass result }
{
    for _turn in 0..count {
        pass = round(rt, table, predecessors, pass, marks, more, true, 2, gate).pass;
    }
    pass
}

// The first states of the agreement protocol have these values.
const VALUES: &[u64] = &[
    839_999_999_999_999,
    699_999_999_999_999,
    899_999_999_999_999,
    919_999_999_999_999,
];

// There are twelve words, and the first ones have these values.
fn have_the_values(words: &[u64]) -> Result<(), Fail> {
    same("words", words.len(), 12)?;
    for (state, (word, value)) in words.iter().zip(VALUES.iter()).enumerate() {
        same(state, value_of(*word), *value)?;
    }
    Ok(())
}

// Two workers of a question work at once, and reach its values.
fn rounds_reach_the_values<R: Threads + Sync>(
    rt: &R,
    alloc: Global,
    question: &Question<'_>,
) -> Result<(), Fail> {
    let gate = HoldGate::new();
    let words = rounds(rt, alloc, question, 100, &gate).ok_or("memory")?;
    holds("both work at once", !gate.gave_up())?;
    have_the_values(words.as_slice())
}

#[test]
fn two_workers_work_at_once_and_reach_the_values(rt: HostRuntime) -> Result<(), Fail> {
    let alloc = rt.alloc();
    let game = agreement_game(alloc).ok_or("the game")?;
    let question = agreement_question(alloc, &game).ok_or("the question")?;
    rounds_reach_the_values(&rt, alloc, &question)
}

// Two workers share a game by edges in this way.
fn are_shared(game: &Game) -> Result<(), Fail> {
    same("states", game.states(), 12)?;
    same("edges", game.edges_below(12), 20)?;
    same("the second share", first_state(game, 2, 1), 4)?;
    for (state, worker) in [(0, 0), (3, 0), (4, 1), (11, 1)] {
        same(state, worker_of(game, 2, state), worker)?;
    }
    Ok(())
}

#[test]
fn two_workers_share_the_agreement_protocol_by_edges(rt: HostRuntime) -> Result<(), Fail> {
    are_shared(&agreement_game(rt.alloc()).ok_or("the game")?)
}

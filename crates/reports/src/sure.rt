//! This module makes what `sure` says of a question: how many states reach a goal almost surely, and which.
//!
//! [`sure_report`] makes the text, `sure C of N` and a line for each of the C states, and says whether all initial
//! states are among them.

ghost use Rattle.std.specs.Prelude.{◌≡◌, ◌<◌, ◌++◌, [], All, IfOk, OnOk, length, if◌then◌else◌};
ghost use Rattle.std.specs.List.{list_all};
ghost use Rattle.game_model.specs.Query.{states};
ghost use Rattle.reports.specs.Sure.{IsSure, head_line, is_marked, marked_lines, state_line};

use almost_sure::almost_sure;
use game_model::{Marks, Question};
use game_outside::OutOfMemory;
use plan_text::{append, append_number};
use std::alloc::Global;

/// This is what `sure` says of a question.
#[derive(Drop)]
pub struct SureReport {
    /// This is the text of the report.
    pub text: Vec<u8>,
    /// This says whether every initial state is listed.
    pub all: bool,
}

/// Lists the states from which a goal is reached almost surely, as text. The only error is that memory ran out.
pub fn sure_report(
    alloc: Global,
    question: &Question,
    initial: &[u32],
) -> Result<SureReport, OutOfMemory>
    requires { All (λ s. s < states question.now) initial.now }
    ensures { IfOk result (λ report. IsSure question.now initial.now report.text.items report.all) }
{
    let marks = almost_sure(alloc, question)?;
    let mut text = Vec::new(alloc);
    append_head(&mut text, &marks, question.game().states())?;
    append_marked(&mut text, &marks, question.game().states())?;
    Ok(SureReport {
        text,
        all: all_marked(&marks, initial),
    })
}

// Appends the line `sure C of N`.
fn append_head(text: &mut Vec<u8>, marks: &Marks, states: u32) -> Result<(), OutOfMemory>
    requires { length marks.now ≡ states }
    ensures { OnOk result (text.new.items ≡ text.old.items ++ head_line marks.now) }
{
    append(text, b"sure ")?;
    append_number(text, marks.count())?;
    append(text, b" of ")?;
    append_number(text, states)?;
    append(text, b"\n")
}

// Appends a line for each marked state.
fn append_marked(text: &mut Vec<u8>, marks: &Marks, states: u32) -> Result<(), OutOfMemory>
    requires { length marks.now ≡ states }
    ensures { OnOk result (text.new.items ≡ text.old.items ++ marked_lines marks.now) }
{
    for state in 0..states {
        append_if_marked(text, marks, state)?;
    }
    Ok(())
}

// Appends the line of a state if it is marked.
fn append_if_marked(text: &mut Vec<u8>, marks: &Marks, state: u32) -> Result<(), OutOfMemory>
    requires { state < length marks.now }
    ensures { OnOk result (text.new.items ≡ text.old.items ++
        (if is_marked marks.now state then state_line state else [])) }
{
    if !marks.has(state) {
        return Ok(());
    }
    append_number(text, state)?;
    append(text, b"\n")
}

// Returns whether all of these states are marked.
fn all_marked(marks: &Marks, initial: &[u32]) -> bool
    requires { All (λ s. s < length marks.now) initial.now }
    ensures { result ≡ list_all (is_marked marks.now) initial.now }
{
    initial.iter().all(|state| marks.has(*state))
}

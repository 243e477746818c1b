//! This module finds where state formulas hold, and which of their labels are unknown.

ghost use Rattle.std.specs.Prelude.{◌≡◌, IfOk, option_copied};
ghost use Rattle.label_lines.specs.Labels.{holds_at};
ghost use Rattle.formula_reader.specs.Formula.{state_of, tree_of};
ghost use Rattle.formula_sets.specs.Truth.{holds, labels_in, unknown_label};
ghost use Rattle.formula_sets.specs.Posing.{at_states, formula_labels};

use crate::marks::{intersect, negate, unite};
use formula_reader::{Formula, StateFormula};
use game_outside::Name;
use label_reader::Labels;
use std::alloc::{AllocError, Global};

/// Returns the same mark for each of `states` states.
#[tactic(auto, using(crate::proofs::Marked::filled))]
pub fn same_marks(alloc: Global, mark: bool, states: u32) -> Result<Vec<bool>, AllocError>
    ensures { IfOk result (λ v. v.items ≡ at_states (λ s. mark) states) }
{
    vec![in alloc; mark; states as usize]
}

/// Marks where the label with this name holds, one mark for each of `states` states. If there is no such label, it
/// holds nowhere.
pub fn marks_of_label(
    alloc: Global,
    labels: &Labels,
    name: &Name,
    states: u32,
) -> Result<Vec<bool>, AllocError>
    requires { labels.now.states ≡ states }
    ensures { IfOk result (λ v. v.items ≡ at_states (holds_at labels.now name.now) states) }
{
    labels.invariant();
    let mut marks = Vec::with_capacity(alloc, states as usize)?;
    marks.extend_from_slice(labels.marks(name.as_bytes()))?;
    marks.resize(states as usize, false)?;
    Ok(marks)
}

/// Marks where a state formula holds, one mark for each of `states` states. A formula inside holds nowhere, because
/// labels say nothing of it.
pub fn marks_of(
    alloc: Global,
    labels: &Labels,
    formula: &StateFormula,
    states: u32,
) -> Result<Vec<bool>, AllocError>
    requires { labels.now.states ≡ states }
    ensures { IfOk result (λ v. v.items ≡ at_states (holds labels.now (state_of formula.now)) states) }
{
    match formula {
        StateFormula::True => same_marks(alloc, true, states),
        StateFormula::False | StateFormula::Inner(_) => same_marks(alloc, false, states),
        StateFormula::Label(name) => marks_of_label(alloc, labels, name, states),
        StateFormula::Not(x) => {
            let mut marks = marks_of(alloc, labels, x, states)?;
            negate(&mut marks);
            Ok(marks)
        }
        StateFormula::And(x, y) => {
            let mut marks = marks_of(alloc, labels, x, states)?;
            let others = marks_of(alloc, labels, y, states)?;
            intersect(&mut marks, &others);
            Ok(marks)
        }
        StateFormula::Or(x, y) => {
            let mut marks = marks_of(alloc, labels, x, states)?;
            let others = marks_of(alloc, labels, y, states)?;
            unite(&mut marks, &others);
            Ok(marks)
        }
        StateFormula::Implies(x, y) => {
            let mut marks = marks_of(alloc, labels, x, states)?;
            negate(&mut marks);
            let others = marks_of(alloc, labels, y, states)?;
            unite(&mut marks, &others);
            Ok(marks)
        }
    }
}

// Returns the first unknown label that a state formula names.
#[tactic(auto, using(crate::proofs::Finding::first_unknown_of))]
fn first_unknown<'a>(labels: &Labels, formula: &'a StateFormula) -> Option<&'a Name>
    ensures { option_copied result ≡ unknown_label labels.now (labels_in (state_of formula.now)) }
{
    match formula {
        StateFormula::True | StateFormula::False => None,
        StateFormula::Label(name) => {
            if labels.knows(name.as_bytes()) {
                None
            } else {
                Some(name)
            }
        }
        StateFormula::Not(x) => first_unknown(labels, x),
        StateFormula::And(x, y) => first_unknown(labels, x).or(first_unknown(labels, y)),
        StateFormula::Or(x, y) => first_unknown(labels, x).or(first_unknown(labels, y)),
        StateFormula::Implies(x, y) => first_unknown(labels, x).or(first_unknown(labels, y)),
        StateFormula::Inner(inner) => {
            first_unknown(labels, &inner.left).or(first_unknown(labels, &inner.right))
        }
    }
}

/// Returns the first unknown label that a formula names.
#[tactic(auto, using(crate::proofs::Finding::first_unknown_of))]
pub fn unknown_label_of<'a>(labels: &Labels, formula: &'a Formula) -> Option<&'a Name>
    ensures { option_copied result ≡ unknown_label labels.now (formula_labels (tree_of formula.now)) }
{
    first_unknown(labels, &formula.left).or(first_unknown(labels, &formula.right))
}

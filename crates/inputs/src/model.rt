//! This module loads what a command names: a game, its labels, its owners and a formula. It also poses their problem.

ghost use Rattle.std.specs.Prelude.{◌≡◌, ◌≢◌, ◌<◌, ◌↔◌, ◌&&◌, All, Err, IfOk, IsErrOf, false, true};
ghost use Rattle.rpatl_syntax.specs.Dual.{IsAtMostOne};
ghost use Rattle.formula_reader.specs.Formula.{IsFlat, is_flat, tree_of};
ghost use Rattle.formula_reader.specs.Rules.{DenotesFormula};
ghost use Rattle.command_words.specs.Words.{asked_of_words};
ghost use Rattle.output.specs.declared.refusal.Refusal.{Refusal};
ghost use Rattle.inputs.specs.Said.{Refuses};
ghost use Rattle.inputs.specs.Loading.{LoadingLeaves, Loads, IsTooLong, ReadsNothing, EndsCaused};
ghost use Rattle.inputs.specs.Posed.{HasSizes, any_posed, formula_read, nested_posed, posed, posed_by, reading_of};
ghost use Rattle.inputs.specs.Problems.{initial_of, states_of};
ghost use Rattle.inputs.specs.SeenProblems.{HasDual, HasInside, IsOfKind, IsOfLoaded, IsUnbounded, problem_of};
ghost use Rattle.inputs.specs.Questions.{LacksText, Reads, ReadsAs};

use crate::load::{End, load_game, load_labels, load_owners};
use crate::problem::{Paths, Problem};
use command_words::AskedWords;
use formula_reader::laws::formulas_are_those_that_a_text_denotes;
use formula_reader::{Formula, PathKind, read_formula};
use formula_sets::{initial_of, is_flat, pose, pose_next};
use formula_tokens::FormulaCause;
use game_model::Game;
use game_outside::Shelf;
use label_reader::{Labels, Owners};
use output::Refusal;
use rpatl_syntax::dual;
use rpatl_syntax::laws::thresholds_are_at_most_one;
use std::alloc::Global;

/// This is a game, its labels, its owners, and a formula.
#[derive(Drop)]
pub struct Loaded {
    pub game: Game,
    pub labels: Labels,
    pub owners: Owners,
    pub formula: Formula,
}

// Reads the formula of a command.
fn load_formula(alloc: Global, text: &str) -> Result<Formula, End>
    ensures says { Loads tree_of result (formula_read text.now) }
    ensures spelled { IfOk result (λ formula. DenotesFormula text.now (tree_of formula)) }
    ensures share { IfOk result (λ formula. IsAtMostOne formula.bound) }
    ensures read { IsErrOf result End.ReadFault → ⊥ }
    ensures caused { EndsCaused result }
    ensures short { IsTooLong result → ⊥ }
{
    // These calls state laws and do nothing.
    formulas_are_those_that_a_text_denotes();
    thresholds_are_at_most_one();
    match read_formula(alloc, text) {
        Ok(formula) => Ok(formula),
        Err(fault) => match fault.cause {
            FormulaCause::OutOfMemory => Err(End::OutOfMemory),
            _ => Err(End::Refused(Refusal::OfFormula(fault))),
        },
    }
}

/// Loads what a command names. The first text that is refused, or can't be read, ends it.
pub fn load_model<H: Shelf>(
    alloc: Global,
    shelf: &mut H,
    asked: &AskedWords<'_>,
) -> Result<Loaded, End>
    ensures reads { IfOk result (λ loaded. Reads (H.held shelf.old) (asked_of_words asked.now) (reading_of loaded)) }
    ensures sizes { IfOk result (λ loaded. HasSizes loaded.game loaded.labels loaded.owners) }
    ensures share { IfOk result (λ loaded. IsAtMostOne loaded.formula.bound) }
    ensures refused { (refusal : Refusal) → result ≡ Err (End.Refused refusal)
        → ReadsAs (H.held shelf.old) (asked_of_words asked.now) (Refuses refusal) }
    ensures steadily { IsErrOf result End.ReadFault → H.steady shelf.old ≡ true
        → LacksText (H.held shelf.old) (asked_of_words asked.now) }
    ensures shelf { LoadingLeaves H.held H.steady H.faults H.taken shelf.old shelf.new result }
    ensures caused { EndsCaused result }
{
    let game = load_game(alloc, shelf, asked.tra)?;
    let labels = load_labels(alloc, shelf, asked.lab, game.states())?;
    let owners = load_owners(alloc, shelf, asked.own, game.states())?;
    let formula = load_formula(alloc, asked.formula)?;
    Ok(Loaded {
        game,
        labels,
        owners,
        formula,
    })
}

/// Poses the problem of what was loaded, for a command that takes such formulas.
pub fn pose_loaded(alloc: Global, loaded: &Loaded, paths: Paths) -> Result<Problem<'_>, End>
    requires sizes { HasSizes loaded.now.game loaded.now.labels loaded.now.owners }
    requires share { IsAtMostOne loaded.now.formula.bound }
    ensures says { Loads problem_of result (posed paths (reading_of loaded.now)) }
    ensures kind { IfOk result (IsOfKind loaded.now.formula.kind) }
    ensures dual { IfOk result (HasDual (tree_of loaded.now.formula)) }
    ensures same { IfOk result (IsOfLoaded loaded.now) }
    ensures inside { IfOk result (λ it. All (λ s. s < states_of (problem_of it)) (initial_of (problem_of it))) }
    ensures reached { IfOk result (λ it. paths ≢ Paths.Any → IsUnbounded it) }
    ensures nothing { ReadsNothing result }
{
    let flat = is_flat(&loaded.formula);
    let problem = pose_any(alloc, loaded, flat)?;
    if paths.takes_formula(&loaded.formula, flat) {
        Ok(problem)
    } else {
        Err(End::Refused(Refusal::WrongKind))
    }
}

// Poses the problem of what was loaded. `flat` says whether no formula is inside.
fn pose_any(alloc: Global, loaded: &Loaded, flat: bool) -> Result<Problem<'_>, End>
    requires sizes { HasSizes loaded.now.game loaded.now.labels loaded.now.owners }
    requires share { IsAtMostOne loaded.now.formula.bound }
    requires flat { flat ≡ (is_flat (tree_of loaded.now.formula).left && is_flat (tree_of loaded.now.formula).right) }
    ensures says { Loads problem_of result (any_posed (reading_of loaded.now)) }
    ensures kind { IfOk result (IsOfKind loaded.now.formula.kind) }
    ensures dual { IfOk result (HasDual (tree_of loaded.now.formula)) }
    ensures same { IfOk result (IsOfLoaded loaded.now) }
    ensures inside { IfOk result (λ it. All (λ s. s < states_of (problem_of it)) (initial_of (problem_of it))) }
    ensures form { IfOk result (λ it. HasInside it ↔ (flat ≡ false)) }
    ensures nothing { ReadsNothing result }
{
    if flat {
        pose_kind(alloc, loaded)
    } else {
        pose_nested(alloc, loaded)
    }
}

// Poses the problem of a formula with others inside.
fn pose_nested(alloc: Global, loaded: &Loaded) -> Result<Problem<'_>, End>
    requires sizes { HasSizes loaded.now.game loaded.now.labels loaded.now.owners }
    ensures says { Loads problem_of result (nested_posed (reading_of loaded.now)) }
    ensures form { IfOk result HasInside }
    ensures same { IfOk result (IsOfLoaded loaded.now) }
    ensures inside { IfOk result (λ it. All (λ s. s < states_of (problem_of it)) (initial_of (problem_of it))) }
    ensures nothing { ReadsNothing result }
{
    loaded.labels.invariant();
    let initial = initial_of(alloc, &loaded.labels, &loaded.owners, &loaded.formula)?;
    Ok(Problem::Nested(loaded, initial))
}

// Poses the problem of what was loaded, by the kind of its paths.
fn pose_kind(alloc: Global, loaded: &Loaded) -> Result<Problem<'_>, End>
    requires sizes { HasSizes loaded.now.game loaded.now.labels loaded.now.owners }
    requires share { IsAtMostOne loaded.now.formula.bound }
    requires flat { IsFlat (tree_of loaded.now.formula) }
    ensures says { Loads problem_of result (posed_by loaded.now.formula.kind (reading_of loaded.now)) }
    ensures kind { IfOk result (IsOfKind loaded.now.formula.kind) }
    ensures dual { IfOk result (HasDual (tree_of loaded.now.formula)) }
    ensures inside { IfOk result (λ it. All (λ s. s < states_of (problem_of it)) (initial_of (problem_of it))) }
    ensures form { IfOk result (λ it. HasInside it → ⊥) }
    ensures nothing { ReadsNothing result }
{
    let game = &loaded.game;
    let labels = &loaded.labels;
    let owners = &loaded.owners;
    let formula = &loaded.formula;
    match formula.kind {
        PathKind::Until => {
            let posed = pose(alloc, game, labels, owners, formula)?;
            Ok(Problem::Reach(posed, None))
        }
        PathKind::Within(steps) => {
            let posed = pose(alloc, game, labels, owners, formula)?;
            Ok(Problem::Within(posed, steps))
        }
        PathKind::Next => {
            let posed = pose_next(alloc, game, labels, owners, formula)?;
            Ok(Problem::Next(posed))
        }
        PathKind::Always => {
            let dual = dual(alloc, formula)?;
            let posed = pose(alloc, game, labels, owners, &dual)?;
            Ok(Problem::Reach(posed, Some(dual)))
        }
    }
}

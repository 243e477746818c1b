//! Formulas of each kind of path ask questions.

ghost use Rattle.std.specs.Prelude.{◌≡◌, ◌↔◌, IfOk, IsTrue, length};
ghost use Rattle.formula_sets.specs.Posing.{IsUntil};
ghost use Rattle.formula_reader.specs.declared.formula.PathKind.TheVariants.{Next};
ghost use Rattle.formula_reader.specs.Formula.{IsFlat, tree_of};

use formula_sets::{is_flat, pose, pose_next};
use game_model::{Game, Side, UNIT};
use label_reader::{Labels, Owners, read_labels};
use rpatl_syntax::{Formula, PathKind, read_formula};
use sample_games::expectations::same;
use sample_games::one_state;
use std::alloc::Global;
use std::test::Fail;
use text_lines::MOST_BYTES;

// Reads the labels of one state from a text.
fn labels_of(alloc: Global, text: &[u8]) -> Result<Labels, Fail>
    ensures { IfOk result (λ labels. labels.states ≡ 1) }
{
    if text.len() > MOST_BYTES {
        return Err(Fail::new("too long"));
    }
    Ok(read_labels(alloc, text, 1)?)
}

fn labels_of_one_state(alloc: Global) -> Result<Labels, Fail>
    ensures { IfOk result (λ labels. labels.states ≡ 1) }
{
    labels_of(alloc, b"0=\"init\" 1=\"goal\"\n0: 0\n")
}

// A game of one state has its labels and owners.
#[derive(Drop)]
struct Setting {
    game: Game,
    labels: Labels,
    owners: Owners,
}

fn set_up(alloc: Global) -> Result<Setting, Fail>
    ensures states { IfOk result (λ setting. length setting.game ≡ 1) }
    ensures labels { IfOk result (λ setting. setting.labels.states ≡ 1) }
    ensures owners { IfOk result (λ setting. length setting.owners.owners ≡ 1) }
{
    let game = one_state(alloc)?;
    let labels = labels_of_one_state(alloc)?;
    let owners = Owners::single(alloc, 1)?;
    Ok(Setting {
        game,
        labels,
        owners,
    })
}

fn is_until(kind: PathKind) -> bool
    ensures { IsTrue result ↔ IsUntil kind }
{
    match kind {
        PathKind::Until | PathKind::Within(_) => true,
        PathKind::Next | PathKind::Always => false,
    }
}

// Reads the formula that a text spells, with `U` or `F` and with no formula inside.
fn until_formula(alloc: Global, text: &str) -> Result<Formula, Fail>
    ensures { IfOk result (λ formula. IsUntil formula.kind × IsFlat (tree_of formula)) }
{
    let formula = read_formula(alloc, text)?;
    if !is_until(formula.kind) || !is_flat(&formula) {
        return Err(Fail::new("another formula"));
    }
    Ok(formula)
}

// Such a formula asks this of a game of one state.
fn is_asked(alloc: Global, formula: &Formula) -> Result<(), Fail>
    requires kind { IsUntil formula.now.kind }
    requires flat { IsFlat (tree_of formula.now) }
{
    let setting = set_up(alloc)?;
    let (labels, owners) = (&setting.labels, &setting.owners);
    let Ok(posed) = pose(alloc, &setting.game, labels, owners, formula) else {
        return Err(Fail::new("no question"));
    };
    let question = &posed.question;
    same(
        "initial states, and state 0",
        (
            posed.initial.as_slice(),
            question.side(0),
            question.is_goal(0),
            question.is_dead(0),
        ),
        ([0].as_slice(), Side::Min, false, false),
    )
}

#[test]
fn a_formula_poses_a_question(rt: HostRuntime) -> Result<(), Fail> {
    let alloc = rt.alloc();
    let formula = until_formula(alloc, "<<p0>> P<=0.5 [ F<=3 \"goal\" ]")?;
    is_asked(alloc, &formula)
}

// Reads the formula that a text with `X` spells.
fn next_formula(alloc: Global, text: &str) -> Result<Formula, Fail>
    ensures { IfOk result (λ formula. formula.kind ≡ Next × IsFlat (tree_of formula)) }
{
    let formula = read_formula(alloc, text)?;
    if formula.kind != PathKind::Next || !is_flat(&formula) {
        return Err(Fail::new("another formula"));
    }
    Ok(formula)
}

// Such a formula poses a question with this opening in a game of one state.
fn has_opening(alloc: Global, formula: &Formula, wanted: &[u64]) -> Result<(), Fail>
    requires kind { formula.now.kind ≡ Next }
    requires flat { IsFlat (tree_of formula.now) }
{
    let setting = set_up(alloc)?;
    let (labels, owners) = (&setting.labels, &setting.owners);
    let Ok(posed) = pose_next(alloc, &setting.game, labels, owners, formula) else {
        return Err(Fail::new("no question"));
    };
    same("opening", posed.opening.as_slice(), wanted)
}

// A text with `X` poses a question with this opening.
fn opens_with(alloc: Global, text: &str, opening: &[u64]) -> Result<(), Fail> {
    let formula = next_formula(alloc, text)?;
    has_opening(alloc, &formula, opening)
}

#[test]
fn the_next_state_is_asked_for_by_an_opening(rt: HostRuntime) -> Result<(), Fail> {
    opens_with(rt.alloc(), "Pmax=? [ X \"init\" ]", &[UNIT])?;
    opens_with(rt.alloc(), "Pmax=? [ X \"goal\" ]", &[0])
}

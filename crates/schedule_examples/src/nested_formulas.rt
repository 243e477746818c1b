//! These are worked formulas with others inside.

ghost use Rattle.std.specs.Prelude.{◌≡◌, ◌≤◌, IfOk, length};
ghost use Rattle.formula_reader.specs.Formula.{formulas_inside, tree_of};
ghost use Rattle.formula_tokens.specs.Limits.{longest};
ghost use Rattle.rpatl_syntax.specs.Spellable.{IsSpellable};
ghost use Rattle.bracket_engine.specs.Limits.{most_rounds};

use formula_reader::laws::{formulas_are_those_that_a_text_denotes, formulas_inside_are_few};
use formula_truth::Way;
use game_model::UNIT;
use game_outside::OpenGate;
use label_reader::{Labels, Owners, read_labels};
use nested_truth::{Nested, nested};
use rpatl_syntax::laws::formulas_of_texts_are_spellable;
use rpatl_syntax::{Formula, read_formula};
use sample_games::coin_loop;
use sample_games::expectations::same;
use std::alloc::Global;
use std::test::Fail;
use std::thread::Threads;
use verdicts::How;

// Reads the formula that a text spells.
fn formula_of(alloc: Global, text: &str) -> Result<Formula, Fail>
    ensures spellable { IfOk result (λ formula. IsSpellable (tree_of formula)) }
    ensures few { IfOk result (λ formula. formulas_inside (tree_of formula) ≤ longest) }
{
    // These three calls do nothing: they are laws.
    formulas_are_those_that_a_text_denotes();
    formulas_of_texts_are_spellable();
    formulas_inside_are_few();
    match read_formula(alloc, text) {
        Ok(formula) => Ok(formula),
        Err(_) => Err(Fail::new("the formula is refused")),
    }
}

// Reads the labels of three states from a short text.
fn labels_of(alloc: Global, text: &[u8]) -> Result<Labels, Fail>
    requires { length text.now ≤ 1000 }
    ensures { IfOk result (λ labels. labels.states ≡ 3) }
{
    Ok(read_labels(alloc, text, 3)?)
}

fn owner_of_coins(alloc: Global) -> Result<Owners, Fail>
    ensures { IfOk result (λ owners. length owners.owners ≡ 3) }
{
    Ok(Owners::single(alloc, 3)?)
}

// Answers a formula about the coin loop by this many rounds of one worker.
fn answer_of<R: Threads + Sync>(
    rt: &R,
    alloc: Global,
    text: &str,
    rounds: u32,
) -> Result<Nested, Fail>
    requires { rounds ≤ most_rounds }
{
    let formula = formula_of(alloc, text)?;
    let game = coin_loop(alloc)?;
    let labels = labels_of(alloc, b"0=\"init\" 1=\"goal\"\n0: 0\n1: 1\n")?;
    let owners = owner_of_coins(alloc)?;
    match nested(
        rt,
        alloc,
        &game,
        &labels,
        &owners,
        &formula,
        Way::ByRounds(rounds),
        1,
        &OpenGate {},
    ) {
        Ok(nested) => Ok(nested),
        Err(_) => Err(Fail::new("no question")),
    }
}

// What is open inside counts as false in the lower bound and as true in the upper bound.
#[test]
fn what_is_open_inside_is_open_both_ways(rt: HostRuntime) -> Result<(), Fail> {
    let text = "P>=0.4 [ F P>0.5 [ F \"goal\" ] ]";
    let answer = answer_of(&rt, rt.alloc(), text, 4)?;
    same("initial states", answer.initial.as_slice(), [0].as_slice())?;
    same(
        "bounds, rounds, formulas inside, undecided",
        (
            (answer.lower.first(), answer.upper.first()),
            (answer.how, answer.inner, answer.undecided),
        ),
        (
            (Some(&468_750_000_000_004), Some(&UNIT)),
            (How::Rounds(4), 1, 1),
        ),
    )
}

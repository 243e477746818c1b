//! Formulas of rewards are texts. These tests say what is read, how it is printed, and that a fault has its place.

use reward_formula::{print_any_formula, read_any_formula};
use rpatl_syntax::{FormulaCause, FormulaFault};
use sample_games::expectations::same;
use std::alloc::Global;
use std::test::Fail;

// Each formula is given with its spelling.
const SPELLED: &[(&str, &str)] = &[
    (
        "<<a>> R { \"cost\" } max=? [F \"a\"]",
        "<<a>> R{\"cost\"}max=? [ F \"a\" ]",
    ),
    ("R>=22/6[F true]", "R>=11/3 [ F true ]"),
    (
        "R{\"cost\"}<1e15[F(\"a\")]",
        "R{\"cost\"}<1000000000000000 [ F \"a\" ]",
    ),
    ("Rmin =?[F\"a\"&!\"b\"]", "Rmin=? [ F \"a\" & !\"b\" ]"),
    ("P>=2/6[true U\"a\"]", "P>=1/3 [ F \"a\" ]"),
];

// Each fault of a text has a place.
const FAULTS: &[(&str, u32, FormulaCause)] = &[
    ("Rmax=? [ F<=3 \"a\" ]", 10, FormulaCause::Unexpected),
    (
        "Rmax=? [ F \"a\" & P>=0.5 [ F \"b\" ] ]",
        17,
        FormulaCause::Unexpected,
    ),
    (
        "R>1000000000000001 [ F \"a\" ]",
        2,
        FormulaCause::ThresholdOutOfRange,
    ),
    ("Pmax=? [ F R>1 [ F \"a\" ] ]", 11, FormulaCause::Unexpected),
];

// A text is read, and printed as this spelling.
fn is_printed(alloc: Global, text: &str, spelling: &str) -> Result<(), Fail> {
    let formula = read_any_formula(alloc, text)?;
    let found = print_any_formula(alloc, &formula)?;
    same(text, found.as_slice(), spelling.as_bytes())
}

// A text has this fault.
fn has_fault(alloc: Global, text: &str, place: u32, cause: FormulaCause) -> Result<(), Fail> {
    let fault = read_any_formula(alloc, text).err();
    same(text, fault, Some(FormulaFault::new(place, cause)))
}

#[test]
fn formulas_of_rewards_are_read_printed_and_read_again(rt: HostRuntime) -> Result<(), Fail> {
    for (text, spelling) in SPELLED {
        is_printed(rt.alloc(), text, spelling)?;
        is_printed(rt.alloc(), spelling, spelling)?;
    }
    Ok(())
}

#[test]
fn faults_have_their_places(rt: HostRuntime) -> Result<(), Fail> {
    for (text, place, cause) in FAULTS {
        has_fault(rt.alloc(), text, *place, *cause)?;
    }
    Ok(())
}

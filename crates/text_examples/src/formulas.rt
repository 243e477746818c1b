//! Formulas are texts. These tests say what is read, how it is printed, and that a fault has its place.

use rpatl_syntax::{FormulaCause, FormulaFault, print_formula, read_formula};
use sample_games::expectations::same;
use std::alloc::Global;
use std::test::Fail;

// Each formula is given with its spelling.
const SPELLED: &[(&str, &str)] = &[
    (
        "<< a , b , a >> Pmin =? [ F \"a\" ]",
        "<<a,b,a>> Pmin=? [ F \"a\" ]",
    ),
    ("P>=2/6[true U\"a\"]", "P>=1/3 [ F \"a\" ]"),
    (
        "Pmax=? [ F (\"a\" & \"b\") | !(\"c\" => (\"d\" & (true & false))) ]",
        "Pmax=? [ F \"a\" & \"b\" | !(\"c\" => \"d\" & (true & false)) ]",
    ),
    (
        "Pmax=?[\"a\"|\"b\"U<=010(\"c\")]",
        "Pmax=? [ \"a\" | \"b\" U<=10 \"c\" ]",
    ),
    (
        "P<=1/4 [ G !\"a\" => P>0 [ X\"b\"] ]",
        "P<=1/4 [ G !\"a\" => P>0 [ X \"b\" ] ]",
    ),
];

// A text is read, and printed as this spelling.
fn is_printed(alloc: Global, text: &str, spelling: &str) -> Result<(), Fail> {
    let formula = read_formula(alloc, text)?;
    let found = print_formula(alloc, &formula)?;
    same(text, found.as_slice(), spelling.as_bytes())
}

#[test]
fn formulas_are_read_printed_and_read_again(rt: HostRuntime) -> Result<(), Fail> {
    for (text, spelling) in SPELLED {
        is_printed(rt.alloc(), text, spelling)?;
        is_printed(rt.alloc(), spelling, spelling)?;
    }
    Ok(())
}

#[test]
fn a_fault_has_its_place(rt: HostRuntime) -> Result<(), Fail> {
    let fault = read_formula(rt.alloc(), "P>=0.5 [ F Pmax=? [ F \"goal\" ] ]").err();
    let wanted = FormulaFault::new(11, FormulaCause::AskInside);
    same("fault", fault, Some(wanted))
}

//! Duals of formulas are printed.

ghost use Rattle.std.specs.Prelude.{◌≡◌, ◌↔◌, ◌≤◌, IfOk, IsTrue};
ghost use Rattle.formula_reader.specs.declared.formula.PathKind.TheVariants.{Always};
ghost use Rattle.rpatl_syntax.specs.Dual.{IsAtMostOne};

use distributions::Frac;
use rpatl_syntax::{Bound, Formula, PathKind, dual, print_formula, read_formula};
use sample_games::expectations::same;
use std::alloc::Global;
use std::test::Fail;

// Each formula is given with the spelling of its dual.
const DUALS: &[(&str, &str)] = &[
    ("P>=0.25 [ G \"a\" ]", "P<=3/4 [ F !\"a\" ]"),
    (
        "<<p1,p2>> Pmax=? [ G \"a\" | false ]",
        "<<p1,p2>> Pmin=? [ F !(\"a\" | false) ]",
    ),
];

// Returns whether a share is at most 1.
fn is_part(share: &Frac) -> bool
    ensures { IsTrue result ↔ (share.now.num ≤ share.now.den) }
{
    share.num() <= share.den()
}

fn is_at_most_one(bound: &Bound) -> bool
    ensures { IsTrue result ↔ IsAtMostOne bound.now }
{
    match bound {
        Bound::AtLeast(share) => is_part(share),
        Bound::Above(share) => is_part(share),
        Bound::AtMost(share) => is_part(share),
        Bound::Below(share) => is_part(share),
        Bound::AskMax | Bound::AskMin => true,
    }
}

// Reads the formula with `G` that a text spells.
fn always_formula(alloc: Global, text: &str) -> Result<Formula, Fail>
    ensures { IfOk result (λ formula. formula.kind ≡ Always × IsAtMostOne formula.bound) }
{
    let formula = read_formula(alloc, text)?;
    if formula.kind != PathKind::Always || !is_at_most_one(&formula.bound) {
        return Err(Fail::new("another formula"));
    }
    Ok(formula)
}

// Makes the dual of the formula that a text spells.
fn dual_of(alloc: Global, text: &str) -> Result<Formula, Fail> {
    let formula = always_formula(alloc, text)?;
    Ok(dual(alloc, &formula)?)
}

// Spells the dual of the formula that a text spells.
fn dual_spelling(alloc: Global, text: &str) -> Result<Vec<u8>, Fail> {
    let other = dual_of(alloc, text)?;
    Ok(print_formula(alloc, &other)?)
}

#[test]
fn each_bound_has_its_dual(rt: HostRuntime) -> Result<(), Fail> {
    for (text, spelling) in DUALS {
        let printed = dual_spelling(rt.alloc(), text)?;
        same(text, printed.as_slice(), spelling.as_bytes())?;
    }
    Ok(())
}

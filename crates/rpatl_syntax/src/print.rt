//! This module prints the one spelling of a formula.

ghost use Rattle.std.specs.Prelude.{◌≡◌, ◌≤◌, ◌++◌, length, option_map, Ok, OnOk, IfOk, decimal};
ghost use Rattle.formula_reader.specs.Formula.{state_of, tree_of, names_of};
ghost use Rattle.formula_reader.specs.Grammar.{formula_said};
ghost use Rattle.formula_tokens.specs.Limits.{longest};
ghost use Rattle.rpatl_syntax.specs.Spellable.{IsSpellable};
ghost use Rattle.rpatl_syntax.specs.Spelling.{strength_of, in_place, state_spelling, until_spelling, kind_spelling, names_spelling, coalition_spelling, fraction_spelling, bound_spelling, spelling};

use formula_reader::{Bound, Formula, Names, PathKind, StateFormula};
use fractions::Frac;
use game_outside::{Name, OutOfMemory};
use itoa::Buffer;
use std::alloc::Global;

/// Prints the spelling of a formula, which depends only on its tree.
pub fn print_formula(alloc: Global, formula: &Formula) -> Result<Vec<u8>, OutOfMemory>
    ensures spelled { IfOk result (λ text. text.items ≡ spelling (tree_of formula.now)) }
    // A formula that the grammar can spell is read again from what is printed, unless that is too long.
    ensures again { IfOk result (λ text. IsSpellable (tree_of formula.now) → length text.items ≤ longest
        → formula_said text.items ≡ Ok (tree_of formula.now)) }
{
    spell(alloc, formula)
}

fn spell(alloc: Global, formula: &Formula) -> Result<Vec<u8>, OutOfMemory>
    ensures { IfOk result (λ text. text.items ≡ spelling (tree_of formula.now)) }
{
    let mut out = Vec::new(alloc);
    put_formula(&mut out, formula)?;
    Ok(out)
}

#[cycle(printed)]
fn put_formula(out: &mut Vec<u8>, formula: &Formula) -> Result<(), OutOfMemory>
    ensures { OnOk result (out.new.items ≡ out.old.items ++ spelling (tree_of formula.now)) }
{
    put_coalition(out, &formula.coalition)?;
    put_bound(out, &formula.bound)?;
    put(out, " [ ")?;
    put_kind(out, formula.kind, &formula.left)?;
    put(out, " ")?;
    put_state(out, &formula.right)?;
    put(out, " ]")
}

/// Appends the players of a coalition between `<<` and `>>`, and a blank, or nothing if there is no coalition. The only
/// error of each function that appends is that memory ran out; the text is then of no use.
pub fn put_coalition(out: &mut Vec<u8>, coalition: &Option<Names>) -> Result<(), OutOfMemory>
    ensures { OnOk result (out.new.items ≡ out.old.items ++ coalition_spelling (option_map names_of coalition.now)) }
{
    match coalition {
        None => Ok(()),
        Some(names) => {
            put(out, "<<")?;
            put_names(out, &names.list)?;
            put(out, ">> ")
        }
    }
}

fn put_names(out: &mut Vec<u8>, names: &[Name]) -> Result<(), OutOfMemory>
    ensures { OnOk result (out.new.items ≡ out.old.items ++ names_spelling names.now) }
{
    let mut rest = names;
    while let Some((name, others)) = rest.split_first() {
        put_bytes(out, name.as_bytes())?;
        if !others.is_empty() {
            put(out, ",")?;
        }
        rest = others;
    }
    Ok(())
}

fn put_bound(out: &mut Vec<u8>, bound: &Bound) -> Result<(), OutOfMemory>
    ensures { OnOk result (out.new.items ≡ out.old.items ++ bound_spelling bound.now) }
{
    match bound {
        Bound::AtLeast(threshold) => put_threshold(out, "P>=", threshold),
        Bound::Above(threshold) => put_threshold(out, "P>", threshold),
        Bound::AtMost(threshold) => put_threshold(out, "P<=", threshold),
        Bound::Below(threshold) => put_threshold(out, "P<", threshold),
        Bound::AskMax => put(out, "Pmax=?"),
        Bound::AskMin => put(out, "Pmin=?"),
    }
}

fn put_threshold(out: &mut Vec<u8>, sign: &str, threshold: &Frac) -> Result<(), OutOfMemory>
    ensures { OnOk result (out.new.items ≡ out.old.items ++ (sign.now ++ fraction_spelling threshold.now)) }
{
    put(out, sign)?;
    put_fraction(out, threshold.num(), threshold.den())
}

/// Appends a fraction of these numbers: the numerator and, unless the denominator is 1, a `/` and the denominator.
pub fn put_fraction(out: &mut Vec<u8>, num: u128, den: u128) -> Result<(), OutOfMemory>
    ensures { OnOk result (out.new.items ≡ out.old.items ++ fraction_spelling (record { num = num; den = den })) }
{
    put_number(out, num)?;
    if den == 1 {
        return Ok(());
    }
    put(out, "/")?;
    put_number(out, den)
}

fn put_number(out: &mut Vec<u8>, number: u128) -> Result<(), OutOfMemory>
    ensures { OnOk result (out.new.items ≡ out.old.items ++ decimal number) }
{
    let mut digits = Buffer::new();
    put(out, digits.format(number))
}

// Prints what comes before the right side.
#[cycle(printed)]
fn put_kind(out: &mut Vec<u8>, kind: PathKind, left: &StateFormula) -> Result<(), OutOfMemory>
    ensures { OnOk result (out.new.items ≡ out.old.items ++ kind_spelling kind (state_of left.now)
        (state_spelling (state_of left.now))) }
{
    match kind {
        PathKind::Until => put_until(out, left),
        PathKind::Within(steps) => {
            put_until(out, left)?;
            put(out, "<=")?;
            put_number(out, u128::from(steps))
        }
        PathKind::Next => put(out, "X"),
        PathKind::Always => put(out, "G"),
    }
}

// Prints `F`, or the left side and `U`.
#[cycle(printed)]
fn put_until(out: &mut Vec<u8>, left: &StateFormula) -> Result<(), OutOfMemory>
    ensures { OnOk result (out.new.items ≡ out.old.items ++ until_spelling (state_of left.now)
        (state_spelling (state_of left.now))) }
{
    match left {
        StateFormula::True => put(out, "F"),
        _ => {
            put_state(out, left)?;
            put(out, " U")
        }
    }
}

/// Appends a state formula, with only the brackets that it needs.
#[cycle(printed)]
pub fn put_state(out: &mut Vec<u8>, state: &StateFormula) -> Result<(), OutOfMemory>
    ensures { OnOk result (out.new.items ≡ out.old.items ++ state_spelling (state_of state.now)) }
{
    match state {
        StateFormula::True => put(out, "true"),
        StateFormula::False => put(out, "false"),
        StateFormula::Label(name) => {
            put(out, "\"")?;
            put_bytes(out, name.as_bytes())?;
            put(out, "\"")
        }
        StateFormula::Not(x) => {
            put(out, "!")?;
            put_operand(out, 3, x)
        }
        StateFormula::And(x, y) => {
            put_operand(out, 2, x)?;
            put(out, " & ")?;
            put_operand(out, 3, y)
        }
        StateFormula::Or(x, y) => {
            put_operand(out, 1, x)?;
            put(out, " | ")?;
            put_operand(out, 2, y)
        }
        StateFormula::Implies(x, y) => {
            put_operand(out, 0, x)?;
            put(out, " => ")?;
            put_operand(out, 1, y)
        }
        StateFormula::Inner(formula) => put_formula(out, formula),
    }
}

// Prints a state formula in a place for formulas that bind at least this tightly.
#[cycle(printed)]
fn put_operand(out: &mut Vec<u8>, least: u8, state: &StateFormula) -> Result<(), OutOfMemory>
    ensures { OnOk result (out.new.items ≡ out.old.items ++ in_place least (state_of state.now)
        (state_spelling (state_of state.now))) }
{
    if strength(state) < least {
        put(out, "(")?;
        put_state(out, state)?;
        put(out, ")")
    } else {
        put_state(out, state)
    }
}

fn strength(state: &StateFormula) -> u8
    ensures { result ≡ strength_of (state_of state.now) }
{
    match state {
        StateFormula::Implies(_, _) => 0,
        StateFormula::Or(_, _) => 1,
        StateFormula::And(_, _) => 2,
        _ => 3,
    }
}

/// Appends a text.
pub fn put(out: &mut Vec<u8>, text: &str) -> Result<(), OutOfMemory>
    ensures { OnOk result (out.new.items ≡ out.old.items ++ text.now) }
{
    put_bytes(out, text.as_bytes())
}

/// Appends bytes.
pub fn put_bytes(out: &mut Vec<u8>, bytes: &[u8]) -> Result<(), OutOfMemory>
    ensures { OnOk result (out.new.items ≡ out.old.items ++ bytes.now) }
{
    match out.extend_from_slice(bytes) {
        Ok(()) => Ok(()),
        Err(_) => Err(OutOfMemory {}),
    }
}

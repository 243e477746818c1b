//! These tests are of numbers, fractions and the choices that they make.

use distributions::{NumberFault, Part, compare, make_choice, read_number};
use sample_games::expectations::same;
use std::cmp::Ordering;
use std::test::Fail;

fn read(text: &[u8]) -> Result<(u128, u128), NumberFault> {
    match read_number(text) {
        Ok(number) => Ok((number.num(), number.den())),
        Err(fault) => Err(fault),
    }
}

#[test]
fn numbers_are_read() -> Result<(), Fail> {
    for (text, wanted) in [
        ("0.25", Ok((1, 4))),
        ("1e-23", Ok((1, 100_000_000_000_000_000_000_000))),
        ("2/6", Ok((1, 3))),
        ("1e-24", Err(NumberFault::TooFine)),
    ] {
        same(text, read(text.as_bytes()), wanted)?;
    }
    Ok(())
}

#[test]
fn rests_make_one() -> Result<(), Fail> {
    let share = read_number(b"3/8")?;
    if share.num() > share.den() {
        return Err(Fail::new("above one"));
    }
    let rest = share.rest();
    same("the rest of 3/8", (rest.num(), rest.den()), (5, 8))
}

#[test]
fn parts_add_up(rt: HostRuntime) -> Result<(), Fail> {
    let half = read_number(b"0.5")?;
    let quarter = read_number(b"1/4")?;
    same("order", compare(&quarter, &half), Ordering::Less)?;
    let parts = [
        Part {
            to: 7,
            share: quarter,
        },
        Part { to: 3, share: half },
        Part {
            to: 7,
            share: quarter,
        },
    ];
    let choice = make_choice(rt.alloc(), &parts)?;
    same("total", choice.total(), 4)
}

//! No solver writes these files of values. Each is refused with its line, or changes no answer.

use std::alloc::Global;
use std::test::Fail;
use std::thread::Threads;
use stogame_app::Status;
use worked_rows::tables::prints;
use worked_rows::{Command, MOST_OF_COIN_LOOP, Row};

// The coin loop that is solved from these values writes this text.
fn from_values<R: Threads + Sync>(
    rt: &R,
    alloc: Global,
    values: &str,
    text: &str,
    status: Status,
) -> Result<(), Fail> {
    let row = Row {
        numbers: &[],
        ..MOST_OF_COIN_LOOP
    };
    prints(rt, alloc, Command::Solve(row, Some(values)), text, status)
}

const FAR: &[&str] = &[
    "nan\ninf\n-inf\n",
    "-1e999\n1e-999\n1e999\n",
    "9999999999999999999999999999999999999999\n-0\n-9999999999999999999999999999999999999999\n",
    "0/0\n1/0\n9999999999999999999999999999999999999999/1\n",
    "1\n0\n1\n",
    "\n\n 2=1\n\n(1) : (0,x) = nan\n",
];

fn far_values_change_nothing<R: Threads + Sync>(rt: &R, alloc: Global) -> Result<(), Fail> {
    let half = "state 0 lower 0.500000000000000 upper 0.500000000000000 solved Bracket\n";
    for values in FAR {
        from_values(rt, alloc, values, half, Status::Fine)?;
    }
    Ok(())
}

#[test]
fn numbers_far_from_any_value_change_no_answer(rt: HostRuntime) -> Result<(), Fail> {
    far_values_change_nothing(&rt, rt.alloc())
}

const REFUSED: &[(&str, &str)] = &[
    ("", "0 LineCount"),
    ("0.5\n1\n0\n0\n", "0 LineCount"),
    ("0.5\n\nhalf\n", "3 BadField"),
    ("0.5 1 0\n", "1 BadField"),
    ("1/2/3\n", "1 BadField"),
    ("0.5\0\n", "1 BadField"),
    ("0.5\n1=1\n", "2 BadField"),
    ("0=0.5\n1\n", "2 BadField"),
    ("=1\n", "1 BadField"),
    ("0=\n", "1 BadField"),
    ("-1=1\n", "1 BadField"),
    ("0=0.5\n1=1\n0=0.5\n", "3 DoubleState"),
    ("3=0\n", "1 StateOutOfRange"),
    (
        "9999999999999999999999999999999999999999=0\n",
        "1 StateOutOfRange",
    ),
];

fn each_is_refused<R: Threads + Sync>(rt: &R, alloc: Global) -> Result<(), Fail> {
    for (values, cause) in REFUSED {
        let text = format!(in alloc; "refused values line {cause}\n")?;
        from_values(rt, alloc, values, text.as_str(), Status::ModelRefused)?;
    }
    Ok(())
}

#[test]
fn values_are_refused(rt: HostRuntime) -> Result<(), Fail> {
    each_is_refused(&rt, rt.alloc())
}

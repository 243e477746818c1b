//! These transition files are refused.

use std::alloc::Global;
use std::test::Fail;
use std::thread::Threads;
use stogame_app::Status;
use worked_rows::models::FORK;
use worked_rows::tables::{all_write, refuses};
use worked_rows::{Case, Command, MOST_OF_COIN_LOOP, Row};

const SUMS: &[Case<'static>] = &[
    Case {
        command: Command::Check(Row {
            tra: "3 3 4\n0 0 1 0.5\n0 0 2 0.4\n1 0 1 1\n2 0 2 1\n",
            ..MOST_OF_COIN_LOOP
        }),
        text: "refused tra line 0 BadSum state 0 choice 0 sum 9 denominator 10\n",
        status: Status::ModelRefused,
    },
    Case {
        command: Command::Check(Row {
            tra: "3 3 4\n0 0 1 1/999999999999\n0 0 2 9999999999998/9999999999999\n1 0 1 1\n2 0 2 1\n",
            ..MOST_OF_COIN_LOOP
        }),
        text: "refused tra line 0 TooFine state 0 choice 0 first 999999999999 second 9999999999999\n",
        status: Status::ModelRefused,
    },
];

#[test]
fn sums_that_miss_one_and_fine_choices_are_refused(rt: HostRuntime) -> Result<(), Fail> {
    all_write(&rt, rt.alloc(), SUMS)
}

const COUNTS_AND_GAPS: &[Case<'static>] = &[
    Case {
        command: Command::Check(Row {
            tra: "3 3 5\n0 0 0 0.5\n0 0 1 0.25\n0 0 2 0.25\n1 0 1 1\n",
            ..MOST_OF_COIN_LOOP
        }),
        text: "refused tra line 0 LineCount read 4 stated 5\n",
        status: Status::ModelRefused,
    },
    Case {
        command: Command::Check(Row {
            tra: "3 3 4\n0 0 0 0.5\n0 0 1 0.25\n0 0 2 0.25\n1 0 1 1\n2 0 2 1\n",
            ..MOST_OF_COIN_LOOP
        }),
        text: "refused tra line 6 LineCount read 5 stated 4\n",
        status: Status::ModelRefused,
    },
    Case {
        command: Command::Check(Row {
            tra: "3 4 4\n0 0 1 1\n0 2 2 1\n1 0 1 1\n2 0 2 1\n",
            ..MOST_OF_COIN_LOOP
        }),
        text: "refused tra line 0 ChoiceGap state 0 choice 1\n",
        status: Status::ModelRefused,
    },
    Case {
        command: Command::Check(Row {
            tra: "3 5 4\n0 0 1 1\n0 1 2 1\n1 0 1 1\n2 0 2 1\n",
            ..MOST_OF_COIN_LOOP
        }),
        text: "refused tra line 0 ChoiceCount read 4 stated 5\n",
        status: Status::ModelRefused,
    },
    Case {
        command: Command::Check(Row {
            tra: "3 3 5\n0 0 0 0.5\n0 0 1 0.25\n0 0 3 0.25\n1 0 1 1\n2 0 2 1\n",
            ..MOST_OF_COIN_LOOP
        }),
        text: "refused tra line 4 StateOutOfRange\n",
        status: Status::ModelRefused,
    },
    Case {
        command: Command::Check(Row {
            tra: "2 2 3\n0 0 1 0.5 go\n0 0 0 0.5 stay\n1 0 1 1\n",
            ..MOST_OF_COIN_LOOP
        }),
        text: "refused tra line 3 ActionClash state 0 choice 0\n",
        status: Status::ModelRefused,
    },
];

#[test]
fn counts_and_gaps_are_refused(rt: HostRuntime) -> Result<(), Fail> {
    all_write(&rt, rt.alloc(), COUNTS_AND_GAPS)
}

const HEADERS_AND_FIELDS: &[Case<'static>] = &[
    Case {
        command: Command::Check(Row {
            tra: "three states\n",
            ..MOST_OF_COIN_LOOP
        }),
        text: "refused tra line 1 NoHeader\n",
        status: Status::ModelRefused,
    },
    Case {
        command: Command::Check(Row {
            tra: "0 0 0\n",
            ..MOST_OF_COIN_LOOP
        }),
        text: "refused tra line 1 NoStates\n",
        status: Status::ModelRefused,
    },
    Case {
        command: Command::Check(Row {
            tra: "0 0 8000001\n",
            ..MOST_OF_COIN_LOOP
        }),
        text: "refused tra line 1 OverLimit\n",
        status: Status::ModelRefused,
    },
    Case {
        command: Command::Check(Row {
            tra: "1 1 1\n0 4000000 0 1\n",
            ..MOST_OF_COIN_LOOP
        }),
        text: "refused tra line 2 OverLimit\n",
        status: Status::ModelRefused,
    },
    Case {
        command: Command::Check(Row {
            tra: "1 1 1\n0 zero 0 1\n",
            ..MOST_OF_COIN_LOOP
        }),
        text: "refused tra line 2 BadField\n",
        status: Status::ModelRefused,
    },
    Case {
        command: Command::Check(Row {
            tra: "1 1 1\n0 0 0\n",
            ..MOST_OF_COIN_LOOP
        }),
        text: "refused tra line 2 FieldCount\n",
        status: Status::ModelRefused,
    },
    Case {
        command: Command::Check(Row {
            tra: "1 1 1\n\n0 0 0 1\n",
            ..MOST_OF_COIN_LOOP
        }),
        text: "refused tra line 2 FieldCount\n",
        status: Status::ModelRefused,
    },
];

#[test]
fn headers_and_fields_are_refused(rt: HostRuntime) -> Result<(), Fail> {
    all_write(&rt, rt.alloc(), HEADERS_AND_FIELDS)
}

const NUMBERS: &[(&str, &str)] = &[
    (".5", "NotANumber"),
    ("1e-24", "TooFine"),
    ("0.000000000000000000000001", "TooFine"),
    ("1/0", "ZeroDenominator"),
    ("2.1", "TooLarge"),
    ("1111111111111111111111111111111", "TooManyDigits"),
];

// The coin loop with each of these numbers in its second line is refused for the cause that is given with the number.
fn numbers_are_refused<R: Threads + Sync>(rt: &R, alloc: Global) -> Result<(), Fail> {
    for (number, cause) in NUMBERS {
        let tra = format!(in alloc;
            "3 3 5\n0 0 0 {number}\n0 0 1 0.25\n0 0 2 0.25\n1 0 1 1\n2 0 2 1\n"
        )?;
        let row = Row {
            tra: tra.as_str(),
            ..MOST_OF_COIN_LOOP
        };
        let text = format!(in alloc; "refused tra line 2 Number {cause}\n")?;
        refuses(rt, alloc, row, text.as_str())?;
    }
    Ok(())
}

#[test]
fn numbers_are_refused_by_their_cause(rt: HostRuntime) -> Result<(), Fail> {
    numbers_are_refused(&rt, rt.alloc())
}

const ACCEPTED: &[Case<'static>] = &[
    Case {
        command: Command::Check(Row {
            tra: FORK,
            lab: "",
            ..MOST_OF_COIN_LOOP
        }),
        text: "refused lab line 1 NoHeader\n",
        status: Status::ModelRefused,
    },
    Case {
        command: Command::Check(Row {
            lab: "",
            ..MOST_OF_COIN_LOOP
        }),
        text: "refused lab line 1 NoHeader\n",
        status: Status::ModelRefused,
    },
];

#[test]
fn a_model_is_accepted_before_its_fault_is_made(rt: HostRuntime) -> Result<(), Fail> {
    all_write(&rt, rt.alloc(), ACCEPTED)
}

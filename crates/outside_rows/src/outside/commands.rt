//! These are commands of each kind. Each call of the outside fails in turn while they run.

ghost use Rattle.std.specs.Prelude.{◌<◌, IfOk};

use command_words::{CheckWords, CommandWords, SolveWords, read_words};
use formula_sets::is_flat;
use rpatl_syntax::{Formula, PathKind, read_formula};
use sample_games::expectations::same;
use std::alloc::Global;
use std::test::Fail;
use stogame_app::Status;
use worked_rows::{
    AUDIT_OF_LOOP_OR_COIN, AUDIT_OF_TWO_PLAYERS, CHECK_OF_AGREEMENT, CHECK_OF_COIN_LOOP,
    COIN_LOOP_OUT_OF_ORDER, COIN_LOOP_REPORT, Case, Command, DRAWN_GAME, FIRST_OF_TWO_PLAYERS,
    MOST_OF_AGREEMENT, MOST_OF_COIN_LOOP, MOST_OF_LOOP_OR_COIN, NO_COMMAND, OTHER_VERSION,
    PLAN_OF_LOOP_OR_COIN, PLAN_OF_TWO_PLAYERS, Row, STATE_OUT_OF_RANGE,
};

/// Returns the cases of `COMMANDS`. Only this function names so large a constant, because each proof that names it
/// takes up to 140 s.
pub(crate) fn commands() -> &'static [(Case<'static>, &'static str)] {
    COMMANDS
}

/// Each case has the names of the texts that it begins if no call fails, with a space after each name. Each kind of
/// command has at least one case: `each_kind_of_command_has_a_case` fails if one is missing.
const COMMANDS: &[(Case<'static>, &str)] = &[
    (CHECK_OF_COIN_LOOP, "m.tra m.lab "),
    (COIN_LOOP_OUT_OF_ORDER, "m.tra m.tra m.lab "),
    (CHECK_OF_AGREEMENT, "m.tra m.lab m.own "),
    (STATE_OUT_OF_RANGE, "m.tra "),
    (WITHIN_TWO_STEPS, "m.tra m.lab "),
    (NEXT_STEP, "m.tra m.lab "),
    (ALWAYS, "m.tra m.lab "),
    (INSIDE, "m.tra m.lab "),
    (PLAN_OF_LOOP_OR_COIN, "m.tra m.lab "),
    (PLAN_OF_TWO_PLAYERS, "m.tra m.lab m.own "),
    (TRAPS_OF_LOOP_OR_COIN, "m.tra m.lab "),
    (AUDIT_OF_LOOP_OR_COIN, "m.tra m.lab c "),
    (AUDIT_OF_TWO_PLAYERS, "m.tra m.lab m.own c "),
    (OTHER_VERSION, "m.tra m.lab c "),
    (SOLUTION_OF_COIN_LOOP, "m.tra m.lab "),
    (SOLUTION_FROM_VALUES, "m.tra m.lab v "),
    (VALUES_TOO_FEW, "m.tra m.lab v "),
    (SOLVED_PLAN_OF_TWO_PLAYERS, "m.tra m.lab m.own v "),
    (SURE_OF_COIN_LOOP, "m.tra m.lab "),
    (SURE_OF_AGREEMENT, "m.tra m.lab m.own "),
    (DRAWN_GAME, ""),
    (NO_COMMAND, ""),
];

const WITHIN_TWO_STEPS: Case<'static> = Case {
    command: Command::Check(Row {
        formula: "Pmax=? [ F<=2 \"goal\" ]",
        ..MOST_OF_COIN_LOOP
    }),
    text: "state 0 lower 0.375000000000000 upper 0.375000000000000 steps 2 Bracket\n",
    status: Status::Fine,
};

const NEXT_STEP: Case<'static> = Case {
    command: Command::Check(Row {
        formula: "P<0.25 [ X \"goal\" ]",
        ..MOST_OF_COIN_LOOP
    }),
    text: "state 0 lower 0.250000000000000 upper 0.250000000000000 steps 1 False\n",
    status: Status::SomeFalse,
};

const ALWAYS: Case<'static> = Case {
    command: Command::Check(Row {
        formula: "Pmin=? [ G !\"goal\" ]",
        ..MOST_OF_COIN_LOOP
    }),
    text: COIN_LOOP_REPORT,
    status: Status::Fine,
};

const INSIDE: Case<'static> = Case {
    command: Command::Check(Row {
        formula: "P>=1 [ F P>=0.5 [ F \"goal\" ] ]",
        ..MOST_OF_COIN_LOOP
    }),
    text: "inner 1 undecided 0\nstate 0 lower 1.000000000000000 upper 1.000000000000000 rounds 1 True\n",
    status: Status::Fine,
};

const TRAPS_OF_LOOP_OR_COIN: Case<'static> = Case {
    command: Command::Check(Row {
        numbers: &["--rounds", "0", "--traps"],
        ..MOST_OF_LOOP_OR_COIN
    }),
    text: "state 0 lower 0.000000000000004 upper 0.500000000000000 rounds 0 Bracket\n",
    status: Status::Fine,
};

// The coin loop is asked for the greatest probability by words that `solve` takes.
const UNSOLVED: Row<'static> = Row {
    numbers: &[],
    ..MOST_OF_COIN_LOOP
};

const SOLUTION: &str = "state 0 lower 0.500000000000000 upper 0.500000000000000 solved Bracket\n";

const SOLUTION_OF_COIN_LOOP: Case<'static> = Case {
    command: Command::Solve(UNSOLVED, None),
    text: SOLUTION,
    status: Status::Fine,
};

const SOLUTION_FROM_VALUES: Case<'static> = Case {
    command: Command::Solve(UNSOLVED, Some("0.3\n1\n0\n")),
    text: SOLUTION,
    status: Status::Fine,
};

const VALUES_TOO_FEW: Case<'static> = Case {
    command: Command::Solve(UNSOLVED, Some("0.5\n1\n")),
    text: "refused values line 0 LineCount\n",
    status: Status::ModelRefused,
};

const SOLVED_PLAN_OF_TWO_PLAYERS: Case<'static> = Case {
    command: Command::Solve(
        Row {
            numbers: &["--plan"],
            ..FIRST_OF_TWO_PLAYERS
        },
        Some("2=1\n"),
    ),
    text: "state 0 lower 0.650000000000000 upper 0.650000000000000 solved True\nformula <<p1>> P>=3/5 [ F \"goal\" ]\ncertificate 2 4\n0 0.650000000000000 1 1 0.650000000000000 -\n1 0.200000000000000 - 1 0.200000000000000 1\n2 1.000000000000000 - 0 1.000000000000000 -\n3 0.000000000000000 - 0 0.000000000000000 -\n",
    status: Status::Fine,
};

const SURE_OF_COIN_LOOP: Case<'static> = Case {
    command: Command::Sure(MOST_OF_COIN_LOOP),
    text: "sure 1 of 3\n1\n",
    status: Status::SomeFalse,
};

const SURE_OF_AGREEMENT: Case<'static> = Case {
    command: Command::Sure(MOST_OF_AGREEMENT),
    text: "sure 5 of 12\n4\n6\n7\n8\n11\n",
    status: Status::SomeFalse,
};

/// This is the number of kinds of commands.
const KINDS: usize = 14;

// Numbers the kind of a command. A command that is added later does not compile until it is given a number here.
fn kind_of(alloc: Global, command: &CommandWords<'_>) -> Result<usize, Fail>
    ensures { IfOk result (λ kind. kind < 13) }
{
    match command {
        CommandWords::Check(check) => kind_of_check(alloc, check),
        CommandWords::Audit(_) => Ok(7),
        CommandWords::Solve(solve) => Ok(kind_of_solve(solve)),
        CommandWords::Make(_) => Ok(11),
        CommandWords::Sure(_) => Ok(12),
    }
}

// Numbers the kind of a `solve` by its options.
fn kind_of_solve(solve: &SolveWords<'_>) -> usize
    ensures { result < 11 }
{
    let SolveWords {
        asked: _,
        values,
        plan,
    } = *solve;
    if plan {
        return 8;
    }
    match values {
        Some(_) => 9,
        None => 10,
    }
}

// Numbers the kind of a check by its options, or else by its formula. An option that is added later does not compile
// until it is named here.
fn kind_of_check(alloc: Global, check: &CheckWords<'_>) -> Result<usize, Fail>
    ensures { IfOk result (λ kind. kind < 7) }
{
    let CheckWords {
        asked,
        rounds: _,
        workers: _,
        plan,
        traps,
    } = *check;
    if plan {
        return Ok(5);
    }
    if traps {
        return Ok(6);
    }
    match read_formula(alloc, asked.formula) {
        Ok(formula) => Ok(kind_of_formula(&formula)),
        Err(_) => Err(Fail::new(asked.formula)),
    }
}

// Numbers the kind of a formula. A kind of paths that is added later does not compile until it is given a number here.
fn kind_of_formula(formula: &Formula) -> usize
    ensures { result < 5 }
{
    if !is_flat(formula) {
        return 4;
    }
    match formula.kind {
        PathKind::Until => 0,
        PathKind::Within(_) => 1,
        PathKind::Next => 2,
        PathKind::Always => 3,
    }
}

// Numbers the kind of what a case asks. Words that denote no command have the last number.
fn kind_of_case(alloc: Global, case: &Case<'_>) -> Result<usize, Fail>
    ensures { IfOk result (λ kind. kind < 14) }
{
    let words = case.command.words(alloc)?;
    match read_words(alloc, &words) {
        Ok(Some(command)) => kind_of(alloc, &command),
        Ok(None) => Ok(13),
        Err(_) => Err(Fail::new("no memory")),
    }
}

#[test]
fn each_kind_of_command_has_a_case(rt: HostRuntime) -> Result<(), Fail> {
    let mut found = [false; KINDS];
    for (case, _names) in commands() {
        found[kind_of_case(rt.alloc(), case)?] = true;
    }
    same("the kinds that have a case", found, [true; KINDS])
}

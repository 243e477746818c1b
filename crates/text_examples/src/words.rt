//! Words are read whole. A line of a test has words with one space between them.

use command_words::{AuditWords, CheckWords, CommandWords, MakeWords, SolveWords, read_words};
use sample_games::expectations::same;
use std::alloc::Global;
use std::test::Fail;

// Makes the words of a line.
fn words(alloc: Global, line: &str) -> Result<Vec<String>, Fail> {
    let mut words = Vec::new(alloc);
    for word in line.split(' ') {
        words.push(String::from_str(alloc, word)?)?;
    }
    Ok(words)
}

// The words of these lines denote no command.
const REFUSED: &[&str] = &[
    "",
    "made 1 3",
    "check m.tra m.lab",
    "check m.tra m.lab F --plan --plan",
    "sure m.tra m.lab F --plan",
    "make 0 3",
];

// The words of a line denote no command.
fn is_refused(alloc: Global, line: &str) -> Result<(), Fail> {
    let words = words(alloc, line)?;
    same(line, read_words(alloc, &words)?.is_none(), true)
}

#[test]
fn words_denote_no_command(rt: HostRuntime) -> Result<(), Fail> {
    for line in REFUSED {
        is_refused(rt.alloc(), line)?;
    }
    Ok(())
}

// Reads the check that words ask for.
fn check_in(alloc: Global, words: &[String]) -> Result<CheckWords<'_>, Fail> {
    match read_words(alloc, words)? {
        Some(CommandWords::Check(check)) => Ok(check),
        _ => Err(Fail::new("no check")),
    }
}

#[test]
fn a_check_says_its_words(rt: HostRuntime) -> Result<(), Fail> {
    let line = "check m.tra --plan --own=m.own m.lab --rounds +099 -- -F";
    let words = words(rt.alloc(), line)?;
    let check = check_in(rt.alloc(), &words)?;
    let asked = check.asked;
    same(
        "words",
        (
            (asked.tra, asked.lab, asked.formula, asked.own),
            (check.rounds, check.workers, check.plan, check.traps),
        ),
        (
            ("m.tra", "m.lab", "-F", Some("m.own")),
            (99, 4, true, false),
        ),
    )
}

#[test]
fn a_check_has_defaults(rt: HostRuntime) -> Result<(), Fail> {
    let words = words(rt.alloc(), "check m.tra m.lab F")?;
    let check = check_in(rt.alloc(), &words)?;
    same(
        "words",
        (
            check.asked.own,
            check.rounds,
            check.workers,
            check.plan,
            check.traps,
        ),
        (None, 10_000, 4, false, false),
    )
}

// Reads the audit that words ask for.
fn audit_in(alloc: Global, words: &[String]) -> Result<AuditWords<'_>, Fail> {
    match read_words(alloc, words)? {
        Some(CommandWords::Audit(audit)) => Ok(audit),
        _ => Err(Fail::new("no audit")),
    }
}

#[test]
fn an_audit_says_its_words(rt: HostRuntime) -> Result<(), Fail> {
    let words = words(rt.alloc(), "audit --own m.own m.tra m.lab F m.cert")?;
    let audit = audit_in(rt.alloc(), &words)?;
    let asked = audit.asked;
    same(
        "words",
        (
            asked.tra,
            asked.lab,
            asked.formula,
            asked.own,
            audit.certificate,
        ),
        ("m.tra", "m.lab", "F", Some("m.own"), "m.cert"),
    )
}

// Reads the `solve` that words ask for.
fn solve_in(alloc: Global, words: &[String]) -> Result<SolveWords<'_>, Fail> {
    match read_words(alloc, words)? {
        Some(CommandWords::Solve(solve)) => Ok(solve),
        _ => Err(Fail::new("no solve")),
    }
}

#[test]
fn a_solve_says_its_words(rt: HostRuntime) -> Result<(), Fail> {
    let line = "solve --own m.own m.tra m.lab --values=m.val F --plan";
    let words = words(rt.alloc(), line)?;
    let solve = solve_in(rt.alloc(), &words)?;
    let asked = solve.asked;
    same(
        "words",
        (
            (asked.tra, asked.lab, asked.formula, asked.own),
            (solve.values, solve.plan),
        ),
        (
            ("m.tra", "m.lab", "F", Some("m.own")),
            (Some("m.val"), true),
        ),
    )
}

// Reads the `make` that words ask for.
fn make_in(alloc: Global, words: &[String]) -> Result<MakeWords, Fail> {
    match read_words(alloc, words)? {
        Some(CommandWords::Make(make)) => Ok(make),
        _ => Err(Fail::new("no make")),
    }
}

#[test]
fn a_make_says_its_words(rt: HostRuntime) -> Result<(), Fail> {
    let line = "make --workers=8 +2147483646 --rounds 099 -- 007";
    let words = words(rt.alloc(), line)?;
    let make = make_in(rt.alloc(), &words)?;
    same(
        "numbers",
        (make.seed, make.states, make.rounds, make.workers),
        (2_147_483_646, 7, 99, 8),
    )
}

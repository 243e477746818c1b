//! Certificates are read whole.

use plan_text::{Plan, PlanCause, PlanFault, fixed_text, read_plan, write_plan};
use sample_games::expectations::same;
use std::alloc::Global;
use std::test::Fail;
use text_lines::MOST_BYTES;

// Two lines come before each certificate.
const REPORT: &[u8] = b"state 0 lower 0.500000000000000 upper 0.500000000000000 rounds 2 Bracket\n\
    formula Pmax=? [ F \"goal\" ]\n";

// The same certificate is given in three texts.
const CERTIFICATES: &[&[u8]] = &[
    b"certificate 2 3\n\
        0 0.500000000000000 1 1 0.500000000000001 -\n\
        1 1.000000000000000 - 0 1.000000000000000 -\n\
        2 0.000000000000000 - 0 0.000000000000000 16383\n",
    b"certificate 2 3\r\n\
        0 0.500000000000000 1 1 0.500000000000001 -\r\n\
        1 1.000000000000000 - 0 1.000000000000000 -\r\n\
        2 0.000000000000000 - 0 0.000000000000000 16383\r\n\
        \r\n \n\t\n",
    b" \n\
        \tcertificate\t2  03\n\
        00 0.500000000000000\t01 0001 0.500000000000001 - \n\
        1 1.000000000000000 - 0 1.000000000000000 -\n\
        \t002 0.000000000000000 - 0 0.000000000000000 00000000000000000000016383",
];

// Reads a certificate of three states that follows the report.
fn read(alloc: Global, certificate: &[u8]) -> Result<Result<Plan, PlanFault>, Fail> {
    let mut text = Vec::from_slice(alloc, REPORT)?;
    text.extend_from_slice(certificate)?;
    if text.len() > MOST_BYTES {
        return Err(Fail::new("too long"));
    }
    Ok(read_plan(alloc, text.as_slice(), 3))
}

// A plan has five tables: the lower bounds, the choices, the ranks, the upper bounds and the replies.
type Tables<'a> = (
    &'a [u64],
    &'a [Option<u32>],
    &'a [u32],
    &'a [u64],
    &'a [Option<u32>],
);

// A certificate is read, and has these tables.
fn is_read(alloc: Global, certificate: &[u8], tables: Tables<'_>) -> Result<(), Fail> {
    let plan = read(alloc, certificate)??;
    let found = (
        plan.lower.as_slice(),
        plan.choices.as_slice(),
        plan.ranks.as_slice(),
        plan.upper.as_slice(),
        plan.replies.as_slice(),
    );
    same("tables", found, tables)
}

#[test]
fn a_certificate_is_read(rt: HostRuntime) -> Result<(), Fail> {
    for text in CERTIFICATES {
        is_read(
            rt.alloc(),
            text,
            (
                &[500_000_000_000_000, 1_000_000_000_000_000, 0],
                &[Some(1), None, None],
                &[1, 0, 0],
                &[500_000_000_000_001, 1_000_000_000_000_000, 0],
                &[None, None, Some(16_383)],
            ),
        )?;
    }
    Ok(())
}

// The values of an old certificate have twelve decimals, and the last decimal counts a thousand units.
#[test]
fn an_old_certificate_is_read(rt: HostRuntime) -> Result<(), Fail> {
    let text = b"certificate 1 3\n\
        0 0.500000000000 1 1 0.500000000001 -\n\
        1 1.000000000000 - 0 1.000000000000 -\n\
        2 0.000000000000 - 0 0.123456789012 16383\n";
    is_read(
        rt.alloc(),
        text,
        (
            &[500_000_000_000_000, 1_000_000_000_000_000, 0],
            &[Some(1), None, None],
            &[1, 0, 0],
            &[
                500_000_000_001_000,
                1_000_000_000_000_000,
                123_456_789_012_000,
            ],
            &[None, None, Some(16_383)],
        ),
    )
}

#[test]
fn the_first_fault_is_named_with_its_line(rt: HostRuntime) -> Result<(), Fail> {
    let fault = read(rt.alloc(), b"certificate 2 4\n")?.err();
    let counted = PlanFault {
        line: 3,
        cause: PlanCause::StateCount,
    };
    same("fault", fault, Some(counted))
}

#[test]
fn values_have_fifteen_digits_behind_the_point(rt: HostRuntime) -> Result<(), Fail> {
    let most = fixed_text(rt.alloc(), 1_000_000_000_000_000)?;
    same("1", most.as_slice(), b"1.000000000000000".as_slice())?;
    let small = fixed_text(rt.alloc(), 20_003)?;
    same("20003", small.as_slice(), b"0.000000000020003".as_slice())
}

// The value of state 0 is one half; state 1 is the goal, and state 2 is lost.
#[test]
fn a_certificate_has_a_line_for_each_state(rt: HostRuntime) -> Result<(), Fail> {
    let plan = Plan {
        lower: vec![in rt.alloc(); 500_000_000_000_000, 1_000_000_000_000_000, 0]?,
        choices: vec![in rt.alloc(); Some(1), None, None]?,
        ranks: vec![in rt.alloc(); 1, 0, 0]?,
        upper: vec![in rt.alloc(); 500_000_000_000_000, 1_000_000_000_000_000, 0]?,
        replies: vec![in rt.alloc(); None, None, None]?,
    };
    let text = write_plan(rt.alloc(), &plan)?;
    let expected =
        b"certificate 2 3\n0 0.500000000000000 1 1 0.500000000000000 -\n1 1.000000000000000 - 0 1.000000000000000 -\n2 0.000000000000000 - 0 0.000000000000000 -\n";
    same("text", text.as_slice(), expected.as_slice())
}

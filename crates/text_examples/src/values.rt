//! Files of values are read whole.

use sample_games::expectations::same;
use std::alloc::Global;
use std::test::Fail;
use text_lines::MOST_BYTES;
use values_reader::{ValuesCause, ValuesEnd, ValuesFault, read_values};

// Each text has values of three states. A value above 1 counts as 1, and one that is below 0 or is no number counts as
// 0.
const READ: [(&str, [f64; 3]); 14] = [
    ("0.5\n1\n0\n", [0.5, 1.0, 0.0]),
    ("\n 0.5\n\n+1.0000001 \r\n\t1e-3\n\n", [0.5, 1.0, 0.001]),
    ("0.3\n2\n-1\n", [0.3, 1.0, 0.0]),
    ("NaN\ninf\n-Infinity", [0.0, 1.0, 0.0]),
    ("1/4\n3/2\n0/0\n", [0.25, 1.0, 0.0]),
    (".5\n1.\n5E-1\n", [0.5, 1.0, 0.5]),
    ("1=1\n0=0.25\n", [0.25, 1.0, 0.0]),
    ("1:1\n", [0.0, 1.0, 0.0]),
    ("(0):0.5\n\n(1) : 1\n", [0.5, 1.0, 0.0]),
    ("0:(0,1)=0.5\n1:(1,true)=1\n", [0.5, 1.0, 0.0]),
    ("(2):(0,1,3)=0.25\n", [0.0, 0.0, 0.25]),
    ("2:(x=0, y=1) = 1/8\n", [0.0, 0.0, 0.125]),
    ("002=0.75\n", [0.0, 0.0, 0.75]),
    ("0=nan\n1=9e999\n2=-0.5", [0.0, 1.0, 0.0]),
];

// Reads the values of three states from a text.
fn read(alloc: Global, text: &str) -> Result<Result<Vec<f64>, ValuesEnd>, Fail> {
    let bytes = text.as_bytes();
    if bytes.len() > MOST_BYTES {
        return Err(Fail::new("too long"));
    }
    Ok(read_values(alloc, bytes, 3))
}

// A text has these values.
fn has(alloc: Global, text: &str, wanted: &[f64; 3]) -> Result<(), Fail> {
    match read(alloc, text)? {
        Ok(values) => same(text, values.as_slice(), wanted.as_slice()),
        Err(end) => same(text, Some(end), None),
    }
}

#[test]
fn values_are_read(rt: HostRuntime) -> Result<(), Fail> {
    for (text, wanted) in &READ {
        has(rt.alloc(), text, wanted)?;
    }
    Ok(())
}

#[test]
fn a_fault_of_values_is_told_by_line_and_cause(rt: HostRuntime) -> Result<(), Fail> {
    let end = read(rt.alloc(), "1=0\n\n01:1\n")?.err();
    let twice = ValuesFault {
        line: 3,
        cause: ValuesCause::DoubleState,
    };
    same("fault", end, Some(ValuesEnd::Refused(twice)))
}

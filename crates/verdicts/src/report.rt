//! A report has one line for each initial state.

ghost use Rattle.std.specs.Prelude.{◌≡◌, ◌++◌, ◌≤◌, All, IfOk, OnOk};
ghost use Rattle.game_model.specs.Limits.{unit};
ghost use Rattle.verdicts.specs.Report.{HasValues, labelled, report};

use crate::verdict::Verdict;
use game_outside::OutOfMemory;
use plan_text::{append, append_fixed, append_number};
use std::alloc::Global;

/// The bounds of a line come from one of these.
#[derive(Clone, Copy, Debug, PartialEq, Eq)]
pub enum How {
    /// This many rounds of value iteration were completed.
    Rounds(u32),
    /// The bounds are those of this many steps: as many as the formula names, and one for `X`.
    Steps(u32),
    /// A certificate was checked.
    Audited,
    /// A solver found the tables, and they were checked.
    Solved,
}

/// A line has the bounds, in units, and the verdict at a state.
#[derive(Clone, Copy, Debug, PartialEq, Eq)]
pub struct ReportLine {
    pub state: u32,
    pub lower: u64,
    pub upper: u64,
    pub how: How,
    pub verdict: Verdict,
}

impl ReportLine {
    ghost use Rattle.verdicts.specs.Report.{line_text};

    /// Appends the line to a text.
    fn append_to(&self, text: &mut Vec<u8>) -> Result<(), OutOfMemory>
        requires { HasValues self.now }
        ensures { OnOk result (text.new.items ≡ text.old.items ++ line_text self.now) }
    {
        append(text, b"state ")?;
        append_number(text, self.state)?;
        append_value(text, b" lower ", self.lower)?;
        append_value(text, b" upper ", self.upper)?;
        self.how.append_to(text)?;
        self.verdict.end_line(text)
    }
}

impl How {
    ghost use Rattle.verdicts.specs.Report.{how_text};

    /// Appends the words that say where the bounds of a line come from, with a space before them.
    pub fn append_to(self, text: &mut Vec<u8>) -> Result<(), OutOfMemory>
        ensures { OnOk result (text.new.items ≡ text.old.items ++ how_text self) }
    {
        match self {
            How::Rounds(rounds) => {
                append(text, b" rounds ")?;
                append_number(text, rounds)
            }
            How::Steps(steps) => {
                append(text, b" steps ")?;
                append_number(text, steps)
            }
            How::Audited => append(text, b" audited"),
            How::Solved => append(text, b" solved"),
        }
    }
}

impl Verdict {
    ghost use Rattle.verdicts.specs.Report.{verdict_text, ending};

    /// Returns the printed word.
    fn name(self) -> &'static [u8]
        ensures { result.now ≡ verdict_text self }
    {
        match self {
            Verdict::Yes => b"True",
            Verdict::No => b"False",
            Verdict::Undecided => b"Undecided",
            Verdict::Bracket => b"Bracket",
        }
    }

    /// Appends a space, the printed word and the end of the line.
    pub fn end_line(self, text: &mut Vec<u8>) -> Result<(), OutOfMemory>
        ensures { OnOk result (text.new.items ≡ text.old.items ++ ending self) }
    {
        append(text, b" ")?;
        append(text, self.name())?;
        append(text, b"\n")
    }
}

fn append_value(text: &mut Vec<u8>, label: &[u8], units: u64) -> Result<(), OutOfMemory>
    requires { units ≤ unit }
    ensures { OnOk result (text.new.items ≡ text.old.items ++ labelled label.now units) }
{
    append(text, label)?;
    append_fixed(text, units)
}

/// Returns the report of these lines, in their order. Each bound is at most the unit.
pub fn report_text(alloc: Global, lines: &[ReportLine]) -> Result<Vec<u8>, OutOfMemory>
    requires { All HasValues lines.now }
    ensures { IfOk result (λ text. text.items ≡ report lines.now) }
{
    let mut text = Vec::new(alloc);
    for line in lines {
        line.append_to(&mut text)?;
    }
    Ok(text)
}

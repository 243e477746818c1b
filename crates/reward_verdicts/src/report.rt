//! A report on expected rewards has one line for each initial state.

ghost use Rattle.std.specs.Prelude.{◌≡◌, ◌++◌, ◌≤◌, IfOk, OnOk};
ghost use Rattle.reward_units.specs.Units.{most_places};
ghost use Rattle.reward_verdicts.specs.Report.{labelled_value, reward_report};

use game_outside::OutOfMemory;
use plan_text::{append, append_number};
use reward_values::append_reward_value;
use std::alloc::Global;
use verdicts::{How, Verdict};

/// A line has the bounds, in units of so many places, and the verdict at a state.
#[derive(Clone, Copy, Debug, PartialEq, Eq)]
pub struct RewardLine {
    pub state: u32,
    /// A lower bound of `None` is infinite.
    pub lower: Option<u64>,
    /// An upper bound of `None` is infinite, or missing.
    pub upper: Option<u64>,
    pub how: How,
    pub verdict: Verdict,
}

impl RewardLine {
    ghost use Rattle.reward_verdicts.specs.Report.{reward_line_text};

    // Appends the line to a text.
    fn append_to(&self, text: &mut Vec<u8>, places: u32) -> Result<(), OutOfMemory>
        requires { places ≤ most_places }
        ensures { OnOk result (text.new.items ≡ text.old.items ++ reward_line_text places self.now) }
    {
        append(text, b"state ")?;
        append_number(text, self.state)?;
        append_value(text, places, b" lower ", self.lower)?;
        append_value(text, places, b" upper ", self.upper)?;
        self.how.append_to(text)?;
        self.verdict.end_line(text)
    }
}

// Appends a label and a value.
fn append_value(
    text: &mut Vec<u8>,
    places: u32,
    label: &[u8],
    value: Option<u64>,
) -> Result<(), OutOfMemory>
    requires { places ≤ most_places }
    ensures { OnOk result (text.new.items ≡ text.old.items ++ labelled_value places label.now value) }
{
    append(text, label)?;
    append_reward_value(text, places, value)
}

/// Returns the report of these lines, in their order. Their bounds are in units of this many places. The only error is
/// that memory ran out.
pub fn reward_report_text(
    alloc: Global,
    places: u32,
    lines: &[RewardLine],
) -> Result<Vec<u8>, OutOfMemory>
    requires { places ≤ most_places }
    ensures { IfOk result (λ text. text.items ≡ reward_report places lines.now) }
{
    let mut text = Vec::new(alloc);
    for line in lines {
        line.append_to(&mut text, places)?;
    }
    Ok(text)
}

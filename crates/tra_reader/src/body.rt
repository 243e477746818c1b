//! This module reads what the readers of transition lines share: the header's line, the rows behind it, and the end of
//! the text.

ghost use Rattle.std.specs.Prelude.{◌≡◌, ◌≢◌, ◌≤◌, ◌<◌, IfOk, MatchResult, [], if◌then◌else◌};
ghost use Rattle.text_lines.specs.Text.{fields_of};
ghost use Rattle.transition_lines.specs.Limits.{most_lines};
ghost use Rattle.transition_lines.specs.Faults.{fault_at, fault_of_all};
ghost use Rattle.transition_lines.specs.Lines.{header_said};
ghost use Rattle.transition_lines.specs.Order.{IsWithin};
ghost use Rattle.transition_lines.specs.Answers.{IsAccepted};
ghost use Rattle.tra_reader.specs.inside.Reading.{RowAnswer, at_first_line};

use transition_lines::{Header, TraCause, TraFault, Transition, read_header, read_line};

/// Reads the header of a text from its first line.
pub fn first_line(line: &[u8]) -> Result<Header, TraFault>
    ensures said { result ≡ at_first_line (header_said (fields_of line.now)) }
    ensures accepted { IfOk result IsAccepted }
{
    match read_header(line) {
        Err(cause) => Err(TraFault { line: 1, cause }),
        Ok(header) => Ok(header),
    }
}

/// Returns the fault of a text that has only blank lines.
pub fn no_header() -> TraFault
    ensures { result ≡ fault_at 1 TraCause.NoHeader }
{
    TraFault {
        line: 1,
        cause: TraCause::NoHeader,
    }
}

/// Returns the fault of a blank line behind the header, before another line.
pub fn blank_between(number: u32) -> TraFault
    ensures { result ≡ fault_at number TraCause.FieldCount }
{
    TraFault {
        line: number,
        cause: TraCause::FieldCount,
    }
}

/// Reads what a line says by itself, when `read` rows were read before it.
#[inline(always)]
pub fn read_row<'a>(
    header: &Header,
    read: usize,
    number: u32,
    line: &'a [u8],
) -> Result<(Transition, &'a [u8]), TraFault>
    requires short { header.now.lines ≤ most_lines }
    requires filled { fields_of line.now ≢ [] }
    ensures said { RowAnswer header.now read line.entry.now number result }
    ensures within { IfOk result (λ r. IsWithin header.now.states r.0) }
{
    let stated = header.lines;
    if read >= stated as usize {
        return Err(TraFault {
            line: number,
            cause: TraCause::LineCount {
                read: stated + 1,
                stated,
            },
        });
    }
    match read_line(header, line) {
        Err(cause) => Err(TraFault {
            line: number,
            cause,
        }),
        Ok(row) => Ok(row),
    }
}

/// Checks that no line is missing when `read` rows were read.
pub fn check_count(header: &Header, read: usize) -> Result<(), TraFault>
    ensures { MatchResult result (λ _. header.now.lines ≤ read)
        (λ fault. (read < header.now.lines) × (fault ≡ fault_of_all (TraCause.LineCount read header.now.lines))) }
{
    let stated = header.lines;
    if read < stated as usize {
        return Err(TraFault::of_all(TraCause::LineCount {
            read: read as u32,
            stated,
        }));
    }
    Ok(())
}

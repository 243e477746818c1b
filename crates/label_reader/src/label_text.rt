//! This module reads label files.

ghost use Rattle.std.specs.Prelude.{◌≡◌, ◌≤◌, IfOk, length};
ghost use Rattle.game_outside.specs.Answers.{AnswersOrWants};
ghost use Rattle.label_lines.specs.Texts.{labels_of, IsOutOfMemory};

use crate::label_sets::LabelSets;
use crate::labels::Labels;
use label_lines::{HeadedLines, LabFault};
use std::alloc::Global;
use text_lines::{MOST_BYTES, read_lines};

/// Reads the lines of a label file.
pub(crate) type LabelLines = HeadedLines<LabelSets>;

/// Reads the labels of `states` states that a text denotes, or its first fault. What is said of a text is what it
/// denotes: `label_lines::laws::labels_are_those_that_a_text_denotes`.
pub fn read_labels(alloc: Global, bytes: &[u8], states: u32) -> Result<Labels, LabFault>
    requires { length bytes.now ≤ MOST_BYTES }
    ensures exact { AnswersOrWants IsOutOfMemory (λ x. x) result (labels_of bytes.now states) }
    ensures sizes { IfOk result (λ labels. labels.states ≡ states) }
{
    read_lines(bytes, LabelLines::new(alloc, states))
}

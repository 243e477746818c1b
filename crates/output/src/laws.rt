//! This module has the laws of what a run prints. Each function does nothing: its contract is the law.

ghost use Rattle.std.specs.Prelude.{◌≡◌};
ghost use Rattle.output.specs.Outputs.{Output, output_text, IsWholeOutput};
ghost use Rattle.output.specs.declared.refusal.Refusal.{Refusal};
ghost use Rattle.output.specs.Printable.{RefusalPrintable};
ghost use Rattle.output.specs.Refusals.{refusal_text};

use plan_text::laws::certificates_have_one_reading;
use rpatl_syntax::laws::spellings_have_one_reading;
use verdicts::laws::reports_have_one_reading;

/// No two outputs have the same text: it tells each line, and the formula and each entry of the certificate.
pub fn outputs_have_one_reading()
    ensures { (output other : Output) → IsWholeOutput output → IsWholeOutput other
        → output_text output ≡ output_text other → output ≡ other }
{
    reports_have_one_reading();
    certificates_have_one_reading();
    spellings_have_one_reading();
}

/// No two refusals have the same line if their numbers have at most 64 digits. Their types allow at most 39.
pub fn refusals_have_one_reading()
    ensures { (refusal other : Refusal) → RefusalPrintable refusal → RefusalPrintable other
        → refusal_text refusal ≡ refusal_text other → refusal ≡ other }
{}

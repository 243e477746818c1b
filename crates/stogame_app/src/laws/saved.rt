//! What `check` and `solve` write can be saved and read again.

ghost use Rattle.std.specs.Prelude.{◌≡◌, ◌≤◌, ℕ, List, length, true, Option, Some};
ghost use Rattle.text_lines.specs.Limits.{most_bytes};
ghost use Rattle.game_outside.specs.Outside.{Holding};
ghost use Rattle.command_words.specs.Words.{AreCommand, Check, Audit, Solve, OfCheck, OfAudit, OfSolve};
ghost use Rattle.inputs.specs.Sources.{sources_of};
ghost use Rattle.output.specs.declared.status.Status.{Status};
ghost use Rattle.stogame_app.specs.Commands.{IsAcceptedOf};
ghost use Rattle.stogame_app.specs.Reports.{IsReportOfWords};

use command_words::laws::words_denote_one_command;
use plan_text::laws::{certificates_are_read_back, certificates_are_what_is_read};
use rpatl_syntax::laws::formulas_of_texts_are_spellable;

/// What `check` writes is no longer than a text may be, with a certificate and without. So `audit` does not refuse it
/// as too long.
pub fn printed_certificates_are_short()
    ensures { (words : List (List ℕ)) (holding : Option Holding) (taken : ℕ) (check : Check) (text : List ℕ)
        (status : Status) → AreCommand words (OfCheck check) → IsReportOfWords words holding taken text status
        → length text ≤ most_bytes }
{
    words_denote_one_command();
    formulas_of_texts_are_spellable();
}

/// An audit of the same question accepts the whole output that `check` writes with `--plan`, over a shelf that holds it
/// and the same texts for the question. So `complete` of `run` says that the audit answers.
pub fn what_check_writes_is_accepted()
    ensures { (words : List (List ℕ)) (held later : Holding) (taken : ℕ) (check : Check) (audit : Audit) (text : List ℕ)
        (status : Status) → AreCommand words (OfCheck check) → IsReportOfWords words (Some held) taken text status
        → check.plan ≡ true
        → audit.asked ≡ check.asked → sources_of later check.asked ≡ sources_of held check.asked
        → later audit.certificate ≡ Some text → IsAcceptedOf later (OfAudit audit) }
{
    words_denote_one_command();
    certificates_are_read_back();
    certificates_are_what_is_read();
    formulas_of_texts_are_spellable();
}

/// What `solve` writes is no longer than a text may be, with a certificate and without.
pub fn solved_certificates_are_short()
    ensures { (words : List (List ℕ)) (holding : Option Holding) (taken : ℕ) (solve : Solve) (text : List ℕ)
        (status : Status) → AreCommand words (OfSolve solve) → IsReportOfWords words holding taken text status
        → length text ≤ most_bytes }
{
    words_denote_one_command();
    formulas_of_texts_are_spellable();
}

/// An audit of the same question accepts the whole output that `solve` writes with `--plan`.
pub fn what_solve_writes_is_accepted()
    ensures { (words : List (List ℕ)) (held later : Holding) (taken : ℕ) (solve : Solve) (audit : Audit) (text : List ℕ)
        (status : Status) → AreCommand words (OfSolve solve) → IsReportOfWords words (Some held) taken text status
        → solve.plan ≡ true
        → audit.asked ≡ solve.asked → sources_of later solve.asked ≡ sources_of held solve.asked
        → later audit.certificate ≡ Some text → IsAcceptedOf later (OfAudit audit) }
{
    words_denote_one_command();
    certificates_are_read_back();
    certificates_are_what_is_read();
    formulas_of_texts_are_spellable();
}

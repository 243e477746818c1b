//! This module answers `audit`: it checks a certificate of any origin for a question.

ghost use Rattle.std.specs.Prelude.{Ok};
ghost use Rattle.rpatl_syntax.specs.Dual.{IsAtMostOne};
ghost use Rattle.command_words.specs.Words.{OfAudit, audit_of};
ghost use Rattle.inputs.specs.Loading.{LoadingLeaves};
ghost use Rattle.inputs.specs.Posed.{HasSizes, reading_of};
ghost use Rattle.inputs.specs.Questions.{Reads};
ghost use Rattle.stogame_app.specs.inside.Answers.{IsAnswered};

use command_words::AuditWords;
use game_outside::Shelf;
use inputs::{End, Loaded, Paths, load_certificate, pose_loaded};
use output::Answer;
use reports::audit_report;
use std::alloc::Global;

/// Answers `audit` with its report on what was loaded, from the certificate, which is read after it, or says why there
/// is none.
pub fn audit_loaded<H: Shelf>(
    alloc: Global,
    loaded: &Loaded,
    audit: &AuditWords<'_>,
    shelf: &mut H,
) -> Result<Answer, End>
    requires sizes { HasSizes loaded.now.game loaded.now.labels loaded.now.owners }
    requires share { IsAtMostOne loaded.now.formula.bound }
    ensures { (before : H) → Reads (H.held before) (audit_of audit.now).asked (reading_of loaded.now)
        → LoadingLeaves H.held H.steady H.faults H.taken before shelf.old (Ok loaded.now)
        → IsAnswered H.held H.steady H.faults H.taken (OfAudit (audit_of audit.now)) before shelf.new result }
{
    let problem = pose_loaded(alloc, loaded, Paths::Unbounded)?;
    let posed = problem.reached();
    let plan = load_certificate(alloc, shelf, &posed.question, audit.certificate)?;
    let answer = audit_report(
        alloc,
        &posed.question,
        &plan,
        &loaded.formula,
        &posed.initial,
    )?;
    Ok(answer)
}

//! This module answers `sure` with the states from which a goal is reached almost surely.

ghost use Rattle.std.specs.Prelude.{◌≡◌};
ghost use Rattle.rpatl_syntax.specs.Dual.{IsAtMostOne};
ghost use Rattle.command_words.specs.Words.{OfSure, asked_of_words};
ghost use Rattle.inputs.specs.Posed.{HasSizes, reading_of};
ghost use Rattle.stogame_app.specs.Status.{sure_status};
ghost use Rattle.output.specs.Status.{IsAnswer};
ghost use Rattle.stogame_app.specs.inside.Answers.{IsMadeOf};

use command_words::AskedWords;
use inputs::{End, Loaded, Paths, pose_loaded};
use output::{Answer, Status};
use reports::sure_report;
use std::alloc::Global;

/// Answers `sure` with its report on what was loaded, or says why there is none.
pub fn sure_loaded(alloc: Global, loaded: &Loaded, asked: &AskedWords<'_>) -> Result<Answer, End>
    requires sizes { HasSizes loaded.now.game loaded.now.labels loaded.now.owners }
    requires share { IsAtMostOne loaded.now.formula.bound }
    ensures { IsMadeOf (OfSure (asked_of_words asked.now)) (asked_of_words asked.now) (reading_of loaded.now) result }
{
    let problem = pose_loaded(alloc, loaded, Paths::Reaching)?;
    let posed = problem.reached();
    let report = sure_report(alloc, &posed.question, &posed.initial)?;
    Ok(Answer {
        text: report.text,
        status: sure_status(report.all),
    })
}

// The status is `Fine` if every initial state is sure, and else `SomeFalse`.
fn sure_status(all: bool) -> Status
    ensures status { result ≡ sure_status all }
    ensures answer { IsAnswer result }
{
    if all { Status::Fine } else { Status::SomeFalse }
}

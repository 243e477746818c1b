//! This module answers `make` with the bracket of a game that a seed draws.

ghost use Rattle.std.specs.Prelude.{◌≡◌, ℕ, List, Option, Err, IfOk};
ghost use Rattle.game_outside.specs.Outside.{Holding};
ghost use Rattle.command_words.specs.Words.{AreCommand, IsMakeInRange, OfMake, make_of};
ghost use Rattle.output.specs.Status.{IsAnswer};
ghost use Rattle.stogame_app.specs.Reports.{IsReportOfWords};

use command_words::MakeWords;
use game_outside::Gate;
use inputs::End;
use output::Answer;
use reports::drawn_report;
use std::alloc::Global;
use std::thread::Threads;

/// Answers `make` with a summary of the bracket of the drawn game. The only end without an answer is that memory ran
/// out.
pub fn answer_make<R: Threads + Sync, G: Gate + Sync>(
    rt: &R,
    alloc: Global,
    make: &MakeWords,
    gate: &G,
) -> Result<Answer, End>
    requires { IsMakeInRange (make_of make.now) }
    ensures made { (words : List (List ℕ)) (holding : Option Holding) (taken : ℕ)
        → AreCommand words (OfMake (make_of make.now))
        → IfOk result (λ answer. IsReportOfWords words holding taken answer.text.items answer.status) }
    ensures answer { IfOk result (λ answer. IsAnswer answer.status) }
    ensures memory { (end : End) → result ≡ Err end → end ≡ End.OutOfMemory }
{
    let answer = drawn_report(rt, alloc, make, gate)?;
    Ok(answer)
}

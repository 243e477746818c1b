//! This is the top call, from the words and the bytes read to the bytes written.

ghost use Rattle.std.specs.Prelude.{◌≡◌, ◌⊎◌, Some, true, map};
ghost use Rattle.std.specs.String.{string_bytes};
ghost use Rattle.game_outside.specs.Outside.{Holding, Rose};
ghost use Rattle.command_words.specs.Words.{command_of};
ghost use Rattle.output.specs.Status.{IsAnswer};
ghost use Rattle.stogame_app.specs.Commands.{IsInRange};
ghost use Rattle.stogame_app.specs.inside.Answers.{IsAnswered};
ghost use Rattle.stogame_app.specs.Run.{AsksShelf, IsAcceptedOfWords, IsEnding, IsReadable};

use crate::audit::audit_loaded;
use crate::check::check_loaded;
use crate::ends::{end_run, end_with_usage};
use crate::make::answer_make;
use crate::solve::solve_loaded;
use crate::sure::sure_loaded;
use certificate_audit::laws::audits_have_one_answer;
use command_words::laws::words_denote_one_command;
use command_words::{CommandWords, read_words};
use game_outside::{Gate, Shelf, Sink};
use inputs::laws::questions_are_what_is_asked;
use inputs::{End, load_model};
use output::{Answer, Status};
use std::alloc::Global;
use std::thread::Threads;

/// Reads the words and the texts that they name, makes the whole output in memory, and writes it once.
///
/// - `check` computes a bracket of the question that the words pose. It writes one line for each initial state, in
///   rising order, and the certificate if the words ask for it.
/// - `audit` writes these lines from a certificate of any origin that the question accepts, and computes no bracket.
/// - `solve` writes them from tables that a solver finds, if the tables pass the checks of an audit.
/// - `sure` lists the states from which a goal is reached almost surely.
/// - `make` writes one line about the bracket of a game that a seed draws.
///
/// With `check`, `audit` and `solve` of `F` and `U`, the value of the question lies between the printed bounds. With
/// `--traps` the upper bounds are lowered to the best exits of traps. The minimiser's choices of the certificate hold
/// every strategy of the maximiser, with memory and dice, to the upper bounds. The maximiser's choices reach the lower
/// bounds, less any 1/m, within some number of steps against every strategy of the minimiser. True and False are
/// printed exactly when the bounds settle the threshold, and are then true and false of the value. This is so for every
/// schedule of the workers, who pass a gate before states. For `G` all this holds of its dual, and 1 less the bounds of
/// the dual is printed.
///
/// With `F<=k` and `U<=k` exactly k steps are made, and with `X` one step. What both sides can be sure of within these
/// steps lies between the bounds. With formulas inside, a first line counts them and what their bounds leave undecided.
/// The bounds are sound, and True and False are right, for the exact question, in which each formula inside holds where
/// it is true. What is not accepted is refused by one line that names the cause and its place.
pub fn run<R: Threads + Sync, H: Shelf, K: Sink, G: Gate + Sync>(
    rt: &R,
    alloc: Global,
    words: &[String],
    shelf: &mut H,
    out: &mut K,
    gate: &G,
) -> Status
    // The status says how the run ends and what it has written then.
    ensures ends { IsEnding (map string_bytes words.now) (H.held shelf.old) (H.taken shelf.new) (K.written out.old)
        (K.written out.new) result }

    // These clauses say what the run does to the shelf. A fault of the outside is answered only if its count rose.
    ensures shelf { AsksShelf H.held H.steady H.faults H.taken (map string_bytes words.now) shelf.old shelf.new result }
    ensures write_fault { result ≡ Status.WriteFault → Rose (K.faults out.old) (K.faults out.new) }

    // The run does not give up by itself: if what the words need is held and accepted, the shelf can be read, and no
    // fault of writing arose, it answers or lacks memory.
    ensures complete { IsAcceptedOfWords (map string_bytes words.now) (H.held shelf.old)
        → IsReadable H.steady H.faults (map string_bytes words.now) shelf.old shelf.new
        → ¬ Rose (K.faults out.old) (K.faults out.new) → IsAnswer result ⊎ (result ≡ Status.OutOfMemory) }
{
    match read_words(alloc, words) {
        Ok(Some(command)) => {
            // These three calls do nothing: they are laws.
            words_denote_one_command();
            questions_are_what_is_asked();
            audits_have_one_answer();
            let made = answer(rt, alloc, &command, shelf, gate);
            end_run(alloc, out, made)
        }
        Ok(None) => end_with_usage(alloc, out),
        Err(_) => Status::OutOfMemory,
    }
}

// Answers a command, or says why there is no answer. What is asked of a model is asked once the model is loaded.
fn answer<R: Threads + Sync, H: Shelf, G: Gate + Sync>(
    rt: &R,
    alloc: Global,
    command: &CommandWords<'_>,
    shelf: &mut H,
    gate: &G,
) -> Result<Answer, End>
    requires { IsInRange (command_of command.now) }
    ensures { IsAnswered H.held H.steady H.faults H.taken (command_of command.now) shelf.old shelf.new result }
{
    match command {
        CommandWords::Check(check) => {
            let loaded = load_model(alloc, shelf, &check.asked)?;
            check_loaded(rt, alloc, &loaded, check, gate)
        }
        CommandWords::Audit(audit) => {
            let loaded = load_model(alloc, shelf, &audit.asked)?;
            audit_loaded(alloc, &loaded, audit, shelf)
        }
        CommandWords::Solve(solve) => {
            let loaded = load_model(alloc, shelf, &solve.asked)?;
            solve_loaded(rt, alloc, &loaded, solve, shelf, gate)
        }
        CommandWords::Make(make) => answer_make(rt, alloc, make, gate),
        CommandWords::Sure(asked) => {
            let loaded = load_model(alloc, shelf, asked)?;
            sure_loaded(alloc, &loaded, asked)
        }
    }
}

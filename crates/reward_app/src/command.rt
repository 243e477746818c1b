//! This is the top call with the commands on rewards, from the words and the bytes read to the bytes written.

ghost use Rattle.std.specs.Prelude.{◌≡◌, ◌⊎◌, map};
ghost use Rattle.std.specs.String.{string_bytes};
ghost use Rattle.game_outside.specs.Outside.{Holding, Rose};
ghost use Rattle.output.specs.Status.{IsAnswer};
ghost use Rattle.reward_words.specs.Words.{RewardCommand, AreRewardCommand, AreNoRewardCommand, reward_command_of};
ghost use Rattle.stogame_app.specs.Run.{AsksShelf, IsAcceptedOfWords, IsEnding, IsReadable};
ghost use Rattle.reward_app.specs.inside.Answers.{IsRewardAnswered};
ghost use Rattle.reward_app.specs.Run.{AsksRewardShelf, IsAcceptedRewardWords, IsRewardEnding, IsRewardReadable};

use crate::audit::audit_loaded;
use crate::ends::end_run;
use crate::solve::solve_loaded;
use game_outside::{Gate, Shelf, Sink};
use output::{Answer, Status};
use reward_audit::laws::reward_audits_have_one_answer;
use reward_inputs::laws::reward_questions_are_what_is_asked;
use reward_inputs::{RewardEnd, load_reward_model};
use reward_words::laws::{reward_words_are_no_other_command, words_denote_one_reward_command};
use reward_words::{RewardWords, read_reward_words};
use std::alloc::Global;
use std::thread::Threads;

/// Reads the words and the texts that they name, makes the whole output in memory, and writes it once.
///
/// Words with `--rewards` ask for expected rewards:
///
/// - `audit` writes one line for each initial state, in rising order, from a certificate of any origin that the
///   question accepts over the rewards of the file.
/// - `solve` writes them from tables that a solver finds, if the tables pass the checks of an audit. The certificate
///   follows if the words ask for it.
///
/// Against the replies of the certificate every strategy of the maximiser, with memory and dice, is expected to collect
/// at most the upper values, and a goal is reached almost surely. Against its choices each strategy of the minimiser
/// that reaches a goal almost surely pays at least the lower values, and from a state of infinite lower value none does
/// so. True and False are true and false of each value between the bounds. What is not accepted is refused by one line
/// that names the cause and its place.
///
/// All other words are those of [`stogame_app::run`], which keeps each of its promises.
pub fn run<R: Threads + Sync, H: Shelf, K: Sink, G: Gate + Sync>(
    rt: &R,
    alloc: Global,
    words: &[String],
    shelf: &mut H,
    out: &mut K,
    gate: &G,
) -> Status
    // With words of a command on rewards the status says how the run ends and what it has written then.
    ensures rewards { (command : RewardCommand) → AreRewardCommand (map string_bytes words.now) command
        → IsRewardEnding (map string_bytes words.now) (H.held shelf.old) (H.taken shelf.new) (K.written out.old)
        (K.written out.new) result }
    ensures rewards_shelf { (command : RewardCommand) → AreRewardCommand (map string_bytes words.now) command
        → AsksRewardShelf H.held H.steady H.faults H.taken (map string_bytes words.now) shelf.old shelf.new result }

    // It does not give up by itself: if what the words need is held and accepted, the shelf can be read, and no fault
    // of writing arose, it answers or lacks memory.
    ensures rewards_complete { IsAcceptedRewardWords (map string_bytes words.now) (H.held shelf.old)
        → IsRewardReadable H.steady H.faults shelf.old shelf.new
        → ¬ Rose (K.faults out.old) (K.faults out.new) → IsAnswer result ⊎ (result ≡ Status.OutOfMemory) }

    // With all other words it does so as without rewards.
    ensures ends { AreNoRewardCommand (map string_bytes words.now)
        → IsEnding (map string_bytes words.now) (H.held shelf.old) (H.taken shelf.new) (K.written out.old)
        (K.written out.new) result }
    ensures shelf { AreNoRewardCommand (map string_bytes words.now)
        → AsksShelf H.held H.steady H.faults H.taken (map string_bytes words.now) shelf.old shelf.new result }

    // A fault of the outside is answered only if its count rose.
    ensures write_fault { result ≡ Status.WriteFault → Rose (K.faults out.old) (K.faults out.new) }

    // The run does not give up by itself: if what the words of a command without rewards need is held and accepted, the
    // shelf can be read, and no fault of writing arose, it answers or lacks memory.
    ensures complete { IsAcceptedOfWords (map string_bytes words.now) (H.held shelf.old)
        → IsReadable H.steady H.faults (map string_bytes words.now) shelf.old shelf.new
        → ¬ Rose (K.faults out.old) (K.faults out.new) → IsAnswer result ⊎ (result ≡ Status.OutOfMemory) }
{
    // These calls do nothing: they are laws.
    reward_words_are_no_other_command();
    words_denote_one_reward_command();
    reward_questions_are_what_is_asked();
    reward_audits_have_one_answer();
    match read_reward_words(alloc, words) {
        Ok(Some(command)) => {
            let made = answer(alloc, &command, shelf);
            end_run(alloc, out, made)
        }
        Ok(None) => stogame_app::run(rt, alloc, words, shelf, out, gate),
        Err(_) => Status::OutOfMemory,
    }
}

// Answers a command on rewards, or says why there is no answer.
fn answer<H: Shelf>(
    alloc: Global,
    command: &RewardWords<'_>,
    shelf: &mut H,
) -> Result<Answer, RewardEnd>
    ensures { IsRewardAnswered H.held H.steady H.faults H.taken (reward_command_of command.now) shelf.old shelf.new
        result }
{
    match command {
        RewardWords::Audit(audit) => {
            let loaded = load_reward_model(alloc, shelf, &audit.asked, audit.rewards)?;
            audit_loaded(alloc, &loaded, audit, shelf)
        }
        RewardWords::Solve(solve) => {
            let loaded = load_reward_model(alloc, shelf, &solve.asked, solve.rewards)?;
            solve_loaded(alloc, &loaded, solve)
        }
    }
}

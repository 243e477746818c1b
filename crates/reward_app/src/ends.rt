//! This module ends a run on rewards and writes what it ends with.

ghost use Rattle.std.specs.Prelude.{◌≡◌, ◌≢◌, ◌⊎◌, ℕ, List, Option, Err, IfOk};
ghost use Rattle.game_outside.specs.Outside.{Holding, Rose, GrowsBy, GrowsByPrefix};
ghost use Rattle.output.specs.Status.{IsAnswer};
ghost use Rattle.reward_app.specs.Run.{AnswersRewardWords, IsRewardEnding, RefusesRewardWords};

use game_outside::{Sink, write_all};
use output::{Answer, Status};
use reward_inputs::RewardEnd;
use reward_refusals::{RewardRefusal, reward_refusal_line};
use std::alloc::Global;

/// Writes the answer to a command on rewards, or the line of its refusal. If a text can't be read or memory runs out,
/// only the status tells it.
pub fn end_run<K: Sink>(alloc: Global, out: &mut K, made: Result<Answer, RewardEnd>) -> Status
    requires { IfOk made (λ answer. IsAnswer answer.status) }
    ensures ends { (words : List (List ℕ)) (holding : Option Holding) (taken : ℕ)
        → AnswersRewardWords words holding taken made
        → IsRewardEnding words holding taken (K.written out.old) (K.written out.new) result }
    ensures read_fault { result ≡ Status.ReadFault → made ≡ Err RewardEnd.ReadFault }
    ensures write_fault { result ≡ Status.WriteFault → Rose (K.faults out.old) (K.faults out.new) }
{
    match made {
        Ok(answer) => say(out, &answer.text, answer.status),
        Err(RewardEnd::OutOfMemory) => Status::OutOfMemory,
        Err(RewardEnd::ReadFault) => Status::ReadFault,
        Err(RewardEnd::Refused(refusal)) => end_with_refusal(alloc, out, &refusal),
    }
}

// Ends a run with the line of a refusal.
fn end_with_refusal<K: Sink>(alloc: Global, out: &mut K, refusal: &RewardRefusal) -> Status
    ensures ends { (words : List (List ℕ)) (holding : Option Holding) (taken : ℕ)
        → RefusesRewardWords words holding taken refusal.now
        → IsRewardEnding words holding taken (K.written out.old) (K.written out.new) result }
    ensures read_fault { result ≢ Status.ReadFault }
    ensures write_fault { result ≡ Status.WriteFault → Rose (K.faults out.old) (K.faults out.new) }
{
    refusal.invariant();
    match reward_refusal_line(alloc, refusal) {
        Ok(line) => say(out, &line, refusal.status()),
        Err(_) => Status::OutOfMemory,
    }
}

// Writes a text, and returns the status if that succeeds.
fn say<K: Sink>(out: &mut K, text: &[u8], status: Status) -> Status
    requires { status ≢ Status.WriteFault }
    ensures either { (result ≡ status) ⊎ (result ≡ Status.WriteFault) }
    ensures all { result ≡ status → GrowsBy (K.written out.old) (K.written out.new) text.now }
    ensures fault { result ≡ Status.WriteFault
        → Rose (K.faults out.old) (K.faults out.new) × GrowsByPrefix (K.written out.old) (K.written out.new) text.now }
{
    match write_all(out, text) {
        Ok(()) => status,
        Err(_) => Status::WriteFault,
    }
}

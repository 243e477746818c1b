//! This module has the laws of the problems that texts and words ask. Each function does nothing: its contract is the
//! law.

ghost use Rattle.std.specs.Prelude.{◌≡◌, ◌↔◌};
ghost use Rattle.command_words.specs.Words.{Asked};
ghost use Rattle.inputs.specs.declared.problem.Paths.{Paths};
ghost use Rattle.inputs.specs.Problems.{Problem};
ghost use Rattle.inputs.specs.Said.{Denoted};
ghost use Rattle.inputs.specs.Sources.{Sources};
ghost use Rattle.inputs.specs.Posed.{problem_said};
ghost use Rattle.inputs.specs.Asks.{Asks};

/// The problem that texts and words pose, read one after another with the first refusal, is the one that they ask. They
/// ask a problem if the texts denote a game, labels and owners, and the formula poses the problem of these and is one
/// that the command takes. So if no problem is asked, what is said is the first refusal, or that a text is not held.
pub fn questions_are_what_is_asked()
    ensures { (paths : Paths) (sources : Sources) (asked : Asked) (problem : Problem)
        → (problem_said paths sources asked ≡ Denoted problem) ↔ Asks paths sources asked problem }
{}

//! Brackets close if plays come to an end.

ghost use Rattle.std.specs.Prelude.{ℕ, ◌*◌, ◌≤◌, List, slice_index};
ghost use Rattle.game_model.specs.Query.{Query};
ghost use Rattle.formula_reader.specs.Formula.{Tree};
ghost use Rattle.command_words.specs.Words.{Check};
ghost use Rattle.output.specs.declared.status.Status.{Status};
ghost use Rattle.strategies.specs.Stopping.{IsStopping, IsWithin};
ghost use Rattle.reports.specs.Reports.{IsBracketReport};

/// Suppose that from every state, however both sides play, a goal or a state of value 0 comes within n steps with a
/// positive probability. Then after r rounds, with r at least j times n, the printed bounds are at every state at most
/// 2 r units plus the j-th power of 1 - 1/D^n apart, where D is the common denominator. (Interval iteration has such a
/// bound: Haddad and Monmege, Interval iteration algorithm for MDPs and IMDPs, 2018.)
pub fn printed_brackets_close()
    ensures { (q : Query) (initial : List ℕ) (f : Tree) (check : Check) (text : List ℕ) (status : Status)
        (report : IsBracketReport q initial f check text status) (n j : ℕ) → IsStopping q report.zero n
        → j * n ≤ report.found.rounds
        → IsWithin q n j report.found.rounds (slice_index report.plan.lower.items)
        (slice_index report.plan.upper.items) }
{}

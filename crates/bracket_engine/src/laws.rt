//! This module has the laws of brackets.

ghost use Rattle.std.specs.Prelude.{◌≡◌, ℕ, List, Bool, Option, true};
ghost use Rattle.game_model.specs.Query.{Query};
ghost use Rattle.formula_reader.specs.declared.formula.Bound.{Bound};
ghost use Rattle.verdicts.specs.Verdict.{is_asking};
ghost use Rattle.bracket_engine.specs.Limits.{most_rounds};
ghost use Rattle.bracket_engine.specs.Bracket.{IsBracket};
ghost use Rattle.bracket_engine.specs.Lower.{IsLowerTable};

use crate::run::MOST_ROUNDS;
use lower_guess::laws::one_lower_table;

/// The constant is equal to the number in `specs/Limits.antt`.
pub fn limits()
    ensures { MOST_ROUNDS ≡ most_rounds }
{}

/// Two runs of one question that settle have the same base, for all schedules, numbers of workers and asked rounds.
pub fn settled_bases_agree()
    ensures { (q : Query) (zero other_zero : List Bool) (bound other_bound : Bound) (initial other_initial : List ℕ)
        (asked other_asked : ℕ) (base upper other other_upper : List ℕ) (rounds other_rounds : ℕ)
        → IsBracket q zero bound initial asked base upper rounds true
        → IsBracket q other_zero other_bound other_initial other_asked other other_upper other_rounds true
        → base ≡ other }
{}

/// Lower tables of the same base are the same.
pub fn lower_tables_agree()
    ensures { (q : Query) (zero : List Bool) (base lower other : List ℕ) (choices other_choices : List (Option ℕ))
        (ranks other_ranks : List ℕ)
        → IsLowerTable q zero base lower choices ranks → IsLowerTable q zero base other other_choices other_ranks
        → lower ≡ other }
{
    one_lower_table();
}

/// Two runs of one question that settle and both ask for a value have the same upper bounds, for all schedules, numbers
/// of workers and asked rounds.
pub fn settled_upper_bounds_agree()
    ensures { (q : Query) (zero : List Bool) (bound other_bound : Bound) (initial other_initial : List ℕ)
        (asked other_asked : ℕ) (base upper other_base other : List ℕ) (rounds other_rounds : ℕ)
        → is_asking bound ≡ true → is_asking other_bound ≡ true
        → IsBracket q zero bound initial asked base upper rounds true
        → IsBracket q zero other_bound other_initial other_asked other_base other other_rounds true
        → upper ≡ other }
{}

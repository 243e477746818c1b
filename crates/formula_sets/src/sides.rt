//! This module says who chooses at each state.

ghost use Rattle.std.specs.Prelude.{◌≡◌, ◌<◌, option_copied, option_map, length};
ghost use Rattle.formula_reader.specs.Formula.{names_of, state_of, tree_of};
ghost use Rattle.formula_sets.specs.Posing.{formula_players};
ghost use Rattle.formula_sets.specs.Sides.{is_member, members_of, players_in, side_of, unknown_player};

use crate::bounds::{coalition_side_of, common_side_of};
use formula_reader::{Bound, Formula, Names, StateFormula};
use game_model::Side;
use game_outside::Name;
use label_reader::Owners;

fn is_member_of(names: &[Name], name: &[u8]) -> bool
    ensures { result ≡ is_member names.now name.now }
{
    names.iter().any(|other| name == other.as_bytes())
}

/// Returns the side that chooses at a state.
pub fn side_at_state(owners: &Owners, coalition: &Option<Names>, bound: &Bound, state: u32) -> Side
    requires { state < length owners.now.owners }
    ensures { result ≡ side_of (option_map names_of coalition.now) bound.now owners.now state }
{
    match coalition {
        None => common_side_of(bound),
        Some(names) => {
            let side = coalition_side_of(bound);
            if is_member_of(&names.list, owners.owner(state)) {
                side
            } else {
                side.other()
            }
        }
    }
}

// Returns the first of these players that is unknown.
fn first_stranger<'a>(owners: &Owners, names: &'a [Name]) -> Option<&'a Name>
    ensures { option_copied result ≡ unknown_player owners.now names.now }
{
    names.iter().find(|name| !owners.knows(name.as_bytes()))
}

// Returns the first unknown player of a coalition.
fn first_stranger_of<'a>(owners: &Owners, coalition: &'a Option<Names>) -> Option<&'a Name>
    ensures { option_copied result ≡ unknown_player owners.now (members_of (option_map names_of coalition.now)) }
{
    match coalition {
        None => None,
        Some(names) => first_stranger(owners, &names.list),
    }
}

// Returns the first unknown player that a state formula names.
#[tactic(auto, using(crate::proofs::Finding::first_stranger_of))]
fn first_stranger_in<'a>(owners: &Owners, formula: &'a StateFormula) -> Option<&'a Name>
    ensures { option_copied result ≡ unknown_player owners.now (players_in (state_of formula.now)) }
{
    match formula {
        StateFormula::True | StateFormula::False | StateFormula::Label(_) => None,
        StateFormula::Not(x) => first_stranger_in(owners, x),
        StateFormula::And(x, y) | StateFormula::Or(x, y) | StateFormula::Implies(x, y) => {
            first_stranger_in(owners, x).or(first_stranger_in(owners, y))
        }
        StateFormula::Inner(inner) => first_stranger_of(owners, &inner.coalition).or(
            first_stranger_in(owners, &inner.left).or(first_stranger_in(owners, &inner.right)),
        ),
    }
}

/// Returns the first unknown player that a formula names.
#[tactic(auto, using(crate::proofs::Finding::first_stranger_of))]
pub fn unknown_player_of<'a>(owners: &Owners, formula: &'a Formula) -> Option<&'a Name>
    ensures { option_copied result ≡ unknown_player owners.now (formula_players (tree_of formula.now)) }
{
    first_stranger_of(owners, &formula.coalition).or(first_stranger_in(owners, &formula.left).or(
        first_stranger_in(owners, &formula.right),
    ))
}

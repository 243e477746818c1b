//! This module finds the attractor of the goals.

ghost use Rattle.std.specs.Prelude.{◌≡◌, ℕ, ◌+◌, ◌<◌, [], length, take, IfOk, OnOk};
ghost use Rattle.game_model.specs.Growing.{IsLonger};
ghost use Rattle.game_model.specs.Query.{states};
ghost use Rattle.predecessors.specs.Lists.{ArePredecessors};
ghost use Rattle.attractors.specs.Attractor.{IsAttractor};
ghost use Rattle.attractors.specs.Search.{moves_into, IsAttractorSearch, IsLarger, AreTested, IsAdvanced};

use crate::excluded::Excluded;
use crate::search::AttractorSearch;
use game_model::Question;
use game_outside::OutOfMemory;
use predecessors::Predecessors;
use std::alloc::Global;

/// If more than one in this many states is a member that is still in the order, each other state is tested instead. So
/// there are at most this many passes over all states.
const SHARE: usize = 16;

/// Returns the attractor of the goals, with chance on the maximiser's side, from the predecessors in the question's
/// game. The only error is that memory ran out.
pub fn attractor_of<S: Excluded>(
    alloc: Global,
    question: &Question,
    predecessors: &Predecessors,
    excluded: &S,
) -> Result<Vec<bool>, OutOfMemory>
    requires lists { ArePredecessors question.now.game predecessors.now }
    requires fits { S.fits excluded.now question.now }
    ensures { IfOk result (λ set. IsAttractor question.now (S.excluded excluded.now question.now) set.items) }
{
    question.invariant();
    let mut search = AttractorSearch::of_goals(alloc, question)?;
    let mut place: usize = 0;
    while place < search.order.len() {
        place = advance(question, predecessors, excluded, place, &mut search)?;
    }
    Ok(search.members)
}

/// Takes the member at this place off the order, or all members from there on, and gives the next place.
fn advance<S: Excluded>(
    question: &Question,
    predecessors: &Predecessors,
    excluded: &S,
    place: usize,
    search: &mut AttractorSearch,
) -> Result<usize, OutOfMemory>
    requires lists { ArePredecessors question.now.game predecessors.now }
    requires fits { S.fits excluded.now question.now }
    requires place { place < length search.old.order.items }
    requires grown { IsAttractorSearch question.now (S.excluded excluded.now question.now)
        (moves_into predecessors.now (take place search.old.order.items)) search.old.members.items
        search.old.next_choice.items search.old.order.items }
    ensures { IfOk result
        (λ next. IsAdvanced question.now (S.excluded excluded.now question.now) predecessors.now place next
        search.new.members.items search.new.next_choice.items search.new.order.items) }
{
    question.invariant();
    let end = search.order.len();
    if end - place > question.game().states() as usize / SHARE {
        test_all(question, excluded, search)?;
        return Ok(end);
    }
    go_back(question, predecessors, excluded, place, search)?;
    Ok(place + 1)
}

/// Follows the moves that lead to the member at this place of the order.
fn go_back<S: Excluded>(
    question: &Question,
    predecessors: &Predecessors,
    excluded: &S,
    place: usize,
    search: &mut AttractorSearch,
) -> Result<(), OutOfMemory>
    requires lists { ArePredecessors question.now.game predecessors.now }
    requires fits { S.fits excluded.now question.now }
    requires place { place < length search.old.order.items }
    requires grown { IsAttractorSearch question.now (S.excluded excluded.now question.now)
        (moves_into predecessors.now (take place search.old.order.items)) search.old.members.items
        search.old.next_choice.items search.old.order.items }
    ensures longer { OnOk result (IsLonger search.old.order.items search.new.order.items) }
    ensures grown { OnOk result (IsAttractorSearch question.now (S.excluded excluded.now question.now)
        (moves_into predecessors.now (take (place + 1) search.new.order.items)) search.new.members.items
        search.new.next_choice.items search.new.order.items) }
{
    let member = search.order[place];
    for step in predecessors.of_state(member) {
        search.follow(question, excluded, *step)?;
    }
    Ok(())
}

/// Tests each state that is no member.
fn test_all<S: Excluded>(
    question: &Question,
    excluded: &S,
    search: &mut AttractorSearch,
) -> Result<(), OutOfMemory>
    requires fits { S.fits excluded.now question.now }
    requires grown { IsAttractorSearch question.now (S.excluded excluded.now question.now)
        [] search.old.members.items search.old.next_choice.items search.old.order.items }
    ensures longer { OnOk result (IsLonger search.old.order.items search.new.order.items) }
    ensures larger { OnOk result (IsLarger search.old.members.items search.new.members.items) }
    ensures grows { OnOk result (IsAttractorSearch question.now (S.excluded excluded.now question.now)
        [] search.new.members.items search.new.next_choice.items search.new.order.items) }
    ensures tested { OnOk result (AreTested question.now (S.excluded excluded.now question.now) search.old.members.items
        search.new.members.items search.new.next_choice.items (states question.now)) }
{
    for state in 0..question.game().states() {
        search.test(question, excluded, state)?;
    }
    Ok(())
}

//! These are worked tables of whole units.

ghost use Rattle.std.specs.Prelude.{◌≡◌, ◌+◌, ◌<◌, IfOk, length, vec_len};
ghost use Rattle.game_model.specs.Game.{choices_of};
ghost use Rattle.game_model.specs.Query.{states};
ghost use Rattle.components.specs.Division.{states_of};

use crate::games::solved;
use crate::rows::finished;
use components::Components;
use fixed_bellman::{down_state, up_state};
use float_games::{Bound, Draft, FloatGame};
use game_model::{Game, Question, Side, UNIT};
use local_values::refine;
use predecessors::{ChoiceFlags, Predecessors};
use sample_games::expectations::{holds, same};
use sample_games::{Draw, Shape, game_of, question_of, random_game};
use std::alloc::Global;
use std::num::nearest_u64_to_f64;
use std::test::Fail;
use table_rounding::{Input, UnitTable, round_component, single_entry};

/// A gambler with 1 to 3 of 4 coins bets one coin at a time. State 0 is ruin, and state 4 is the goal.
fn gambler(alloc: Global) -> Result<Game, Fail> {
    game_of(
        alloc,
        &[
            &[&[(0, 1)]],
            &[&[(0, 1), (2, 1)]],
            &[&[(1, 1), (3, 1)]],
            &[&[(2, 1), (4, 1)]],
            &[&[(4, 1)]],
        ],
    )
}

/// State 0 goes round by state 1, or leaves to the goal, state 2, with one third and to state 3 with two thirds.
fn thirds(alloc: Global) -> Result<Game, Fail> {
    game_of(
        alloc,
        &[
            &[&[(1, 1)], &[(2, 1), (3, 2)]],
            &[&[(0, 2), (2, 1), (3, 1)]],
            &[&[(2, 1)]],
            &[&[(3, 1)]],
        ],
    )
}

#[test]
fn a_gambler_has_exact_quarters(rt: HostRuntime) -> Result<(), Fail> {
    let game = gambler(rt.alloc())?;
    let quarters = [0, UNIT / 4, UNIT / 2, UNIT / 4 * 3, UNIT];
    let question = question_of(rt.alloc(), &game, Side::Max, 4)?;
    for bound in [Bound::Lower, Bound::Upper] {
        let found = table_of(rt.alloc(), &question, bound)?;
        same("quarters", found.entries(), quarters.as_slice())?;
    }
    Ok(())
}

#[test]
fn thirds_are_rounded_to_both_sides(rt: HostRuntime) -> Result<(), Fail> {
    let game = thirds(rt.alloc())?;
    let question = question_of(rt.alloc(), &game, Side::Max, 2)?;
    check_thirds(rt.alloc(), &question)
}

/// Both tables of a question are near each other, and the upper one is the same when it is made once more.
fn check_thirds(alloc: Global, question: &Question<'_>) -> Result<(), Fail> {
    let lower = table_of(alloc, question, Bound::Lower)?;
    let upper = table_of(alloc, question, Bound::Upper)?;
    are_near(lower.entries(), upper.entries())?;
    let again = table_of(alloc, question, Bound::Upper)?;
    same("the same once more", again.entries(), upper.entries())
}

/// Each entry is at most that of another table, and near it.
fn are_near(lower: &[u64], upper: &[u64]) -> Result<(), Fail> {
    for (below, above) in lower.iter().zip(upper) {
        holds(
            format_args!("{below} is at most {above}, and near it"),
            *below <= *above && above.saturating_sub(*below) <= 4,
        )?;
    }
    Ok(())
}

/// Makes the table of a question, component after component.
fn table_of(alloc: Global, question: &Question<'_>, bound: Bound) -> Result<UnitTable, Fail>
    ensures { IfOk result (λ table. length table ≡ states question.now) }
{
    let predecessors = Predecessors::of_game(alloc, question.game())?;
    // A goal leads nowhere.
    let kept = ChoiceFlags::of_game(alloc, question.game(), |state: u32, _choice: u32| {
        !question.is_goal(state)
    })?;
    let components = Components::of_question(alloc, question, &kept, &[])?;
    let mut table = UnitTable::zeros(alloc, question.game().states())?;
    for component in 0..components.count() {
        fill(
            alloc,
            question,
            &predecessors,
            &components,
            component,
            bound,
            &[],
            &mut table,
        )?;
    }
    Ok(table)
}

/// Fills in the entries of a component, whose choices have these costs.
fn fill(
    alloc: Global,
    question: &Question<'_>,
    predecessors: &Predecessors,
    components: &Components,
    component: u32,
    bound: Bound,
    costs: &[u64],
    table: &mut UnitTable,
) -> Result<(), Fail>
    requires predecessors { length predecessors.now ≡ states question.now }
    requires components { states_of components.now ≡ states question.now }
    requires component { component + 1 < length components.now.starts }
    requires many { length table.old ≡ states question.now }
    ensures { length table.new ≡ length table.old }
{
    let members = components.members(component);
    if members.len() == 1 {
        fill_single(question, members[0], bound, table);
        return Ok(());
    }
    let game = local_game(alloc, question, components, component, table)?;
    let nodes = numbers(alloc, game.nodes() as u32)?;
    let input = Input {
        question,
        predecessors,
        components,
        component,
        game: &game,
        nodes: &nodes,
        bound,
        costs: Some(costs),
    };
    round(alloc, &input, table)
}

/// Fills in the entry of a component of one state, from the table only.
fn fill_single(question: &Question<'_>, state: u32, bound: Bound, table: &mut UnitTable)
    requires state { state < states question.now }
    requires many { length table.old ≡ states question.now }
    ensures { length table.new ≡ length table.old }
{
    let entry = single_entry(question, table, bound, state, None);
    table.set(
        state,
        if question.is_goal(state) {
            UNIT
        } else {
            entry.value
        },
    );
}

/// Lists the numbers below this one.
fn numbers(alloc: Global, count: u32) -> Result<Vec<u32>, Fail> {
    let mut list = Vec::new(alloc);
    for number in 0..count {
        list.push(number)?;
    }
    Ok(list)
}

/// Fills in the entries of a component by the values of its local game.
fn round(alloc: Global, input: &Input<'_, '_>, table: &mut UnitTable) -> Result<(), Fail>
    requires { length table.old ≡ states input.now.question.now }
    ensures { length table.new ≡ length table.old }
{
    let game = input.game;
    let mut policy = game.first_policy(alloc)?;
    let mut values = solved(alloc, game, &mut policy)?;
    refine(alloc, game, &policy, &mut values)?;
    let mut planned = vec![in alloc; 0u32; input.question.game().states() as usize]?;
    let members = input.components.members(input.component);
    plan(game, members, &policy, &mut planned);
    let _is_held = round_component(alloc, input, &values, &policy, &mut planned, table)?;
    Ok(())
}

/// Plans the choices of a policy at the members of a component, which has a node for each member.
fn plan(game: &FloatGame, members: &[u32], policy: &[u32], planned: &mut [u32]) {
    for (state, choice) in members.iter().zip(policy) {
        if let Some(place) = planned.get_mut(*state as usize) {
            *place = game.mark(*choice);
        }
    }
}

/// Makes the local game of a component, with a node for each member.
fn local_game(
    alloc: Global,
    question: &Question<'_>,
    components: &Components,
    component: u32,
    table: &UnitTable,
) -> Result<FloatGame, Fail>
    requires components { states_of components.now ≡ states question.now }
    requires component { component + 1 < length components.now.starts }
    requires many { length table.now ≡ states question.now }
{
    let mut draft = Draft::new(alloc, 0, 0, 0)?;
    for state in components.members(component) {
        for choice in 0..question.game().choices_of(*state) {
            add_choice(
                question, components, component, table, *state, choice, &mut draft,
            )?;
            let _is_in = draft.end_choice(choice)?;
        }
        draft.end_node(question.side(*state) == Side::Max)?;
    }
    finished(draft)
}

/// Adds the edges of a choice.
fn add_choice(
    question: &Question<'_>,
    components: &Components,
    component: u32,
    table: &UnitTable,
    state: u32,
    choice: u32,
    draft: &mut Draft,
) -> Result<(), Fail>
    requires components { states_of components.now ≡ states question.now }
    requires many { length table.now ≡ states question.now }
    requires state { state < states question.now }
    requires choice { choice < length (choices_of question.now.game state) }
{
    question.invariant();
    for place in 0..question.game().edge_count(state, choice) {
        let edge = question.game().edge(state, choice, place);
        let weight = nearest_u64_to_f64(u64::try_from(edge.weight).unwrap_or(1));
        add_edge(components, component, table, edge.to, weight, draft)?;
    }
    Ok(())
}

/// Adds an edge to the node of a state, or out of the component with what the table says.
fn add_edge(
    components: &Components,
    component: u32,
    table: &UnitTable,
    to: u32,
    weight: f64,
    draft: &mut Draft,
) -> Result<(), Fail>
    requires components { to < states_of components.now }
    requires table { to < length table.now }
{
    if components.component_of(to) == component {
        draft.add_edge(components.place_of(to), weight)?;
    } else {
        draft.add_exit(weight, nearest_u64_to_f64(table.get(to)));
    }
    Ok(())
}

/// These games have up to 40 states, and most of their choices have several successors.
const GAMES: Shape = Shape {
    least_states: 3,
    most_states: 40,
    most_choices: 3,
    most_successors: 4,
    most_weight: 9,
    most_tosses: 120,
};

#[test]
fn tables_of_random_games_hold(rt: HostRuntime) -> Result<(), Fail> {
    let mut draw = Draw::new(53);
    let mut wide: u32 = 0;
    for number in 0..60u32 {
        let game = random_game(rt.alloc(), &mut draw, &GAMES).ok_or("no game")?;
        let side = if number % 2 == 0 {
            Side::Max
        } else {
            Side::Min
        };
        wide = check_game(rt.alloc(), &game, side)?.saturating_add(wide);
    }
    holds(format_args!("few are wide: {wide}"), wide < 10)
}

/// Bounds the probability of reaching the first state if one side chooses everywhere. It returns 1 if the bounds are
/// far apart somewhere, else 0.
fn check_game(alloc: Global, game: &Game, side: Side) -> Result<u32, Fail> {
    let question = question_of(alloc, game, side, 0)?;
    let widest = check_tables(alloc, &question)?;
    Ok(if widest > 1_000 { 1 } else { 0 })
}

/// The lower table of a question holds, and so does the upper one. The result is how far they are apart at most.
fn check_tables(alloc: Global, question: &Question<'_>) -> Result<u64, Fail> {
    let lower = table_of(alloc, question, Bound::Lower)?;
    let upper = table_of(alloc, question, Bound::Upper)?;
    check_states(question, &lower, &upper)
}

/// Both tables hold. The result is how far they are apart at most.
fn check_states(question: &Question<'_>, lower: &UnitTable, upper: &UnitTable) -> Result<u64, Fail>
    requires lower { length lower.now ≡ states question.now }
    requires upper { length upper.now ≡ states question.now }
{
    let mut widest = 0;
    for state in 0..question.game().states() {
        widest = check_state(question, lower, upper, state)?.max(widest);
    }
    Ok(widest)
}

/// Both tables hold at a state. The result is how far they are apart there.
fn check_state(
    question: &Question<'_>,
    lower: &UnitTable,
    upper: &UnitTable,
    state: u32,
) -> Result<u64, Fail>
    requires lower { length lower.now ≡ states question.now }
    requires upper { length upper.now ≡ states question.now }
    requires state { state < states question.now }
{
    lower.invariant();
    upper.invariant();
    let below = lower.get(state);
    let above = upper.get(state);
    let (down, _) = down_state(question, state, lower.entries());
    holds(
        format_args!("{below} holds at {state}: {down}"),
        below <= down,
    )?;
    let up = up_state(question, state, upper.entries());
    holds(format_args!("{above} holds at {state}: {up}"), up <= above)?;
    holds(format_args!("{below} is at most {above}"), below <= above)?;
    Ok(above.saturating_sub(below))
}

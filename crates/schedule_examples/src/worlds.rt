//! Worlds take lawful events and refuse others.

ghost use Rattle.std.specs.Prelude.{◌≡◌, length};

use game_model::{Question, UNIT};
use sample_games::expectations::same;
use sample_games::{coin_game, coin_question};
use std::alloc::Global;
use std::test::Fail;
use step_core::{Event, Refused, World, pack};

// Says what a world answers to an exchange of a word of the first state by a view.
fn exchanged(world: &mut World<'_>, view: u32, from: u64, to: u64) -> Result<(), Refused>
    ensures { length world.new.views ≡ length world.old.views }
{
    let state = 0;
    world.apply(Event::Won {
        view,
        state,
        from,
        to,
    })
}

// The first view of a world wins an exchange and is refused two others. Then a second view is split off.
fn takes_an_exchange(world: &mut World<'_>) -> Result<(), Fail>
    requires { length world.old.views ≡ 1 }
{
    let quarter = pack(UNIT / 4, 0);
    let half = pack(UNIT / 2, 0);
    same("from 0", exchanged(world, 0, 0, quarter), Ok(()))?;
    same(
        "again",
        exchanged(world, 0, 0, quarter),
        Err(Refused::NotFrom),
    )?;
    same(
        "too high",
        exchanged(world, 0, quarter, half),
        Err(Refused::TooHigh),
    )?;
    same("split", world.apply(Event::Split { view: 0 }), Ok(()))
}

// The second view may not lose an exchange of the word that it has seen, and wins one. The first view loses one, and
// takes in the second view.
fn takes_a_race(world: &mut World<'_>) -> Result<(), Fail> {
    let quarter = pack(UNIT / 4, 0);
    let higher = pack(UNIT / 8 * 3, 0);
    let lost = world.apply(Event::Lost { view: 1, state: 0 });
    let won = exchanged(world, 1, quarter, higher);
    same("the second", (lost, won), (Err(Refused::SameWord), Ok(())))?;
    let lost = world.apply(Event::Lost { view: 0, state: 0 });
    let joined = world.apply(Event::Join { view: 0, other: 1 });
    let spent = world.apply(Event::Load { view: 1, state: 0 });
    same(
        "the first",
        (lost, joined, spent),
        (Ok(()), Ok(()), Err(Refused::NoView)),
    )
}

// A world of a question takes the exchange and the race.
fn takes_events(alloc: Global, question: &Question<'_>) -> Result<(), Fail> {
    let mut world = World::start(alloc, question)?;
    takes_an_exchange(&mut world)?;
    takes_a_race(&mut world)
}

#[test]
fn a_world_takes_lawful_events_and_refuses_others(rt: HostRuntime) -> Result<(), Fail> {
    let alloc = rt.alloc();
    let game = coin_game(alloc).ok_or("the game")?;
    let question = coin_question(alloc, &game).ok_or("the question")?;
    takes_events(alloc, &question)
}

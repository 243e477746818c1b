//! This module has the laws of the shared words: each step of a table is an event of the core `step_core`. Each
//! function does nothing: its contract is the law.

ghost use Rattle.std.specs.Prelude.{◌≡◌, ◌≢◌, ℕ, ◌<◌, List, slice_index};
ghost use mathlib.Core.Option.{none};
ghost use Rattle.atomic_table.specs.Table.{Act, step, opening, stepped};
ghost use Rattle.game_model.specs.Query.{Query, states};
ghost use Rattle.step_core.specs.declared.event.Event.{Event};
ghost use Rattle.step_core.specs.declared.event.Event.TheVariants.{Load, Won, Lost, Split, Join};
ghost use Rattle.step_core.specs.Word.{opening_words};
ghost use Rattle.step_core.specs.Configuration.{opening_configuration};
ghost use Rattle.value_words.specs.declared.rule.Sight.{Sight};
ghost use Rattle.value_words.specs.Shown.{Shared, Seated, shown, IsPassOf, IsEvent};
ghost use Rattle.value_words.specs.Rule.{opening_sight, MeetsRule, Loaded, WonOrLost};
ghost use Rattle.value_words.specs.Steps.{IsOffer, after_split, after_join};

/// A table opens as the core does.
pub fn tables_open_as_the_core_does()
    ensures { (q : Query) (slots : List (Unit {0}))
        → shown q (opening (opening_words q) slots (opening_sight q)) ≡ opening_configuration q }
{}

/// A load, with what it tells its pass, is the event `Load`.
pub fn loads_are_events()
    ensures { (q : Query) (s : Shared) (id slots state : ℕ) (m n : Seated) (act : Act (Unit {0})) → IsPassOf s id m.0
        → state < states q
        → Loaded (step slots state 0 0 none) m (slice_index s.words state) n
        → IsEvent q s (stepped s state (slice_index s.words state) id m.1 n.0 act) (Load id state) }
{}

/// An exchange that finds the word that its pass has seen is the event `Won`.
pub fn won_exchanges_are_events()
    ensures { (q : Query) (s : Shared) (id slots state from to : ℕ) (m n : Seated) (act : Act (Unit {0}))
        → MeetsRule q s → IsPassOf s id m.0 → IsOffer q m.0.seen state from to
        → slice_index s.words state ≡ from → WonOrLost (step slots state from to none) m (slice_index s.words state) n
        → IsEvent q s (stepped s state to id m.1 n.0 act) (Won id state from to) }
{}

/// An exchange that finds another word is the event `Lost`.
pub fn lost_exchanges_are_events()
    ensures { (q : Query) (s : Shared) (id slots state from to : ℕ) (m n : Seated) (act : Act (Unit {0}))
        → IsPassOf s id m.0 → IsOffer q m.0.seen state from to
        → slice_index s.words state ≢ from → WonOrLost (step slots state from to none) m (slice_index s.words state) n
        → IsEvent q s (stepped s state (slice_index s.words state) id m.1 n.0 act) (Lost id state) }
{}

/// A split is the event `Split`.
pub fn splits_are_events()
    ensures { (q : Query) (s : Shared) (id : ℕ) (v : Sight) → IsPassOf s id v
        → IsEvent q s (after_split s id v) (Split id) }
{}

/// A join is the event `Join`.
pub fn joins_are_events()
    ensures { (q : Query) (s : Shared) (id other : ℕ) (v w : Sight) → IsPassOf s id v → IsPassOf s other w → id ≢ other
        → IsEvent q s (after_join s id v other w) (Join id other) }
{}

//! This module has the laws of events. Each function does nothing: its contract is the law.

ghost use Rattle.std.specs.Prelude.{◌≡◌, ℕ, ◌+◌, List, None, ◌↔◌};
ghost use Rattle.std.specs.List.{sum_by};
ghost use Rattle.game_model.specs.Query.{Query, IsQuery};
ghost use Rattle.game_model.specs.Rounded.{down_steps, IsBelow};
ghost use Rattle.step_core.specs.declared.event.Event.{Event};
ghost use Rattle.step_core.specs.Word.{choice_space, value_at};
ghost use Rattle.step_core.specs.Configuration.{Configuration, IsWorld, opening_configuration};
ghost use Rattle.step_core.specs.Events.{Lawful, after, wins, reasons, first_of, Leads};

use crate::word::CHOICE_SPACE;

/// The constant is the number of the definitions.
pub fn limits()
    ensures { CHOICE_SPACE ≡ choice_space }
{}

/// A lawful event keeps the invariant.
pub fn lawful_events_keep_the_invariant()
    ensures { (w : Configuration) (event : Event) → IsWorld w → Lawful w event → IsWorld (after w event) }
{}

/// The invariant holds after every list of lawful events from the opening configuration.
pub fn all_worlds_meet_the_invariant()
    ensures { (q : Query) (events : List Event) (w : Configuration) → IsQuery q
        → Leads (opening_configuration q) events w → IsWorld w }
{}

/// After every list of lawful events from the opening configuration the words are nowhere above as many down steps as
/// exchanges were won: one event adds as many steps as it wins.
pub fn words_are_within_the_won_exchanges()
    ensures one { (w : Configuration) (event : Event) (r : ℕ) → IsWorld w → Lawful w event
        → IsBelow w.question (value_at w.words) (down_steps w.question r)
        → IsBelow w.question (value_at (after w event).words) (down_steps w.question (r + wins event)) }
    ensures all { (q : Query) (events : List Event) (w : Configuration) → IsQuery q
        → Leads (opening_configuration q) events w → IsBelow q (value_at w.words) (down_steps q (sum_by wins events)) }
{}

/// An event is lawful exactly if there is no reason against it.
pub fn lawful_where_no_reason()
    ensures { (w : Configuration) (event : Event) → IsWorld w → Lawful w event ↔ (first_of (reasons w event) ≡ None) }
{}

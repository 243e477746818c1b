//! This module has the laws of labels and owners. Each function does nothing: its contract is the law.
ghost use Rattle.std.specs.Prelude.{◌≡◌, ◌==◌, ◌↔◌, ℕ, List, Ok};
ghost use Rattle.std.specs.List.{list_any};
ghost use Rattle.std.specs.List.Sorted.{IsStrictlyIncreasing};
ghost use Rattle.label_lines.specs.Denotes.{DenotesLabels, DenotesOwners};
ghost use Rattle.label_lines.specs.Labels.{Labelling, holds_at, states_with};
ghost use Rattle.label_lines.specs.Limits.{most_labels, most_players, greatest_index, longest_name};
ghost use Rattle.label_lines.specs.Owners.{Ownership};
ghost use Rattle.label_lines.specs.Texts.{labels_of, owners_of};

use crate::kind::{GREATEST_INDEX, LONGEST_NAME, MOST_LABELS, MOST_PLAYERS};

/// The limits of the code are those of the definitions.
pub fn limits()
    ensures labels { MOST_LABELS ≡ most_labels }
    ensures players { MOST_PLAYERS ≡ most_players }
    ensures index { GREATEST_INDEX ≡ greatest_index }
    ensures name { LONGEST_NAME ≡ longest_name }
{}

/// The labels that are said of a text by cases are those that it denotes.
pub fn labels_are_those_that_a_text_denotes()
    ensures { (text : List ℕ) (n : ℕ) (l : Labelling) → (labels_of text n ≡ Ok l) ↔ DenotesLabels text n l }
{}

/// The owners that are said of a text by cases are those that it denotes.
pub fn owners_are_those_that_a_text_denotes()
    ensures { (text : List ℕ) (n : ℕ) (o : Ownership) → (owners_of text n ≡ Ok o) ↔ DenotesOwners text n o }
{}

/// The states with a label are those at which it holds, in rising order.
pub fn states_with_a_label_are_those_where_it_holds()
    ensures rising { (l : Labelling) (name : List ℕ) → IsStrictlyIncreasing (states_with l name) }
    ensures each { (l : Labelling) (name : List ℕ) (state : ℕ)
        → list_any (λ s. s == state) (states_with l name) ≡ holds_at l name state }
{}

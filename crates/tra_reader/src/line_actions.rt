//! This module notes the actions of lines.

ghost use Rattle.std.specs.Prelude.{◌≡◌, ◌++◌, ◌∷◌, [], List, IfOk, OnOk, false};
ghost use Rattle.transition_lines.specs.Lines.{Row};
ghost use Rattle.transition_lines.specs.Text.{transitions};
ghost use Rattle.transition_lines.specs.Answers.{clashes_at, row_place};
ghost use Rattle.tra_reader.specs.inside.Noted.{Notes, NotesLines};

use crate::actions::FirstActions;
use std::alloc::{AllocError, Global};
use transition_lines::Transition;

/// Holds the first actions of choices. Nothing is noted as long as no line has an action.
#[derive(Drop)]
pub struct LineActions {
    first: FirstActions,
    silent: bool,
}

impl LineActions {
    /// Starts before the first line.
    pub fn new(alloc: Global) -> LineActions
        ensures { NotesLines result [] }
    {
        LineActions {
            first: FirstActions::new(alloc),
            silent: true,
        }
    }

    /// Notes the action of a line behind these, and says whether it clashes with that of the first line of its choice.
    pub fn note(
        &mut self,
        before: &[Transition],
        place: u64,
        action: &[u8],
    ) -> Result<bool, AllocError>
        ensures { IfOk result (λ clash. (rows : List Row) (row : Row) → transitions rows ≡ before.now
            → row_place row ≡ place → row.action ≡ action.now
            → NotesLines self.old rows → (clash ≡ clashes_at rows row) × NotesLines self.new (rows ++ row ∷ [])) }
    {
        if self.silent && action.is_empty() {
            return Ok(false);
        }
        self.note_all(before)?;
        self.first.note(place, action)
    }

    // Notes the lines so far, unless they are already noted.
    fn note_all(&mut self, before: &[Transition]) -> Result<(), AllocError>
        ensures noted { OnOk result ((rows : List Row) → transitions rows ≡ before.now → NotesLines self.old rows
            → Notes self.new.first rows) }
        ensures told { OnOk result (self.new.silent ≡ false) }
    {
        if !self.silent {
            return Ok(());
        }
        self.first.note_silent(before)?;
        self.silent = false;
        Ok(())
    }
}

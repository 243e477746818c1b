//! This maker of tables counts its up steps.

ghost use Rattle.std.specs.Prelude.{◌≡◌, ◌≤◌, All, length};
ghost use Rattle.game_model.specs.Dual.{IsZeroSet};
ghost use Rattle.game_model.specs.Limits.{unit};
ghost use Rattle.game_model.specs.Query.{states};

use game_model::{Marks, Question};
use std::alloc::Global;
use std::sync::atomic::{AtomicU64, Ordering};
use std::test::Fail;
use upper_guess::{UpTables, Witnesses, guess_with};

/// Fills tables as another maker does, and counts the up steps of whole tables. Each takes the time of a sweep over all
/// edges.
#[derive(Drop)]
pub struct Counted<'m, M: UpTables> {
    maker: &'m M,
    count: AtomicU64,
}

impl<'m, M: UpTables> Counted<'m, M> {
    /// Wraps this maker, before any step is made.
    pub(crate) fn of(maker: &'m M) -> Counted<'m, M>
        ensures { result.maker.now ≡ maker.now }
    {
        Counted {
            maker,
            count: AtomicU64::new(0),
        }
    }

    /// Returns how many up steps were made.
    pub(crate) fn up_steps(&self) -> u64 {
        self.count.load(Ordering::SeqCst)
    }
}

impl<M: UpTables> UpTables for Counted<'_, M> {
    // It can fill a table if its maker can.
    ghost can_fill = { M.can_fill };

    fn fill(&self, question: &Question, table: &[u64], next: &mut [u64]) {
        self.count.fetch_add(1, Ordering::SeqCst);
        self.maker.fill(question, table, next);
    }
}

/// Makes a guess, and counts how many up steps it took.
pub(crate) fn guess_by<M: UpTables>(
    maker: &M,
    alloc: Global,
    question: &Question<'_>,
    zero: &Marks,
    lower: &[u64],
) -> Result<(Vec<u64>, u64), Fail>
    requires can { M.can_fill }
    requires zero { IsZeroSet question.now zero.now }
    requires many { length lower.now ≡ states question.now }
    requires units { All (λ v. v ≤ unit) lower.now }
{
    question.invariant();
    let counted = Counted::of(maker);
    let guess = guess_with(
        &counted,
        alloc,
        &*question,
        &*zero,
        &*lower,
        &mut Witnesses::none(),
    )?;
    Ok((guess, counted.up_steps()))
}

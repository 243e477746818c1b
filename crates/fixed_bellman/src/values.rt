//! This module says where the values of states come from.

ghost use Rattle.std.specs.Prelude.{◌≡◌, ℕ, ◌<◌, ◌≤◌, length, slice_index, All};
ghost use Rattle.game_model.specs.Limits.{unit};

/// The values of states may rise while they are read. A pass records what was seen of them.
pub trait Values {
    /// A pass records what was seen.
    type Pass;

    ghost fits: { Self → Self.Pass → ℕ → Type 0 };

    ghost seen: { Self → Self.Pass → ℕ → ℕ };

    ghost onward: { Self → Self.Pass → Self.Pass → Type 0 };

    /// Returns the value of a state.
    fn value(&self, pass: &mut Self::Pass, state: u32) -> u64
        requires fits { fits self.now pass.old state }
        ensures onward { onward self.now pass.old pass.new }
        ensures low { seen self.now pass.old state ≤ result }
        ensures high { result ≤ seen self.now pass.new state }
        ensures units { result ≤ unit };

    ghost still: { (v : Self) (a : Self.Pass) → onward v a a };

    ghost further: { (v : Self) (a b c : Self.Pass) → onward v a b → onward v b c → onward v a c };

    ghost carried: { (v : Self) (a b : Self.Pass) (s : ℕ) → onward v a b → fits v a s → fits v b s };

    ghost rises: { (v : Self) (a b : Self.Pass) → onward v a b → (s : ℕ) → seen v a s ≤ seen v b s };

    ghost units: { (v : Self) (a : Self.Pass) (s : ℕ) → fits v a s → seen v a s ≤ unit };
}

/// The values are a slice of units, by state. Its pass records nothing.
#[derive(Clone, Copy)]
pub struct Entries<'a> {
    table: &'a [u64],
    ghost units: { All (λ v. v ≤ unit) table.now },
}

impl<'a> Entries<'a> {
    /// Takes the entries of a table.
    pub fn new(table: &'a [u64]) -> Entries<'a>
        requires { All (λ v. v ≤ unit) table.now }
        ensures { result.table.now ≡ table.now }
    {
        Entries { table }
    }
}

impl Values for Entries<'_> {
    ghost use Rattle.std.proofs.Common.{le_refl};

    type Pass = ();

    ghost fits = { λ v _ s. s < length v.table.now };

    ghost seen = { λ v _. slice_index v.table.now };

    ghost onward = { λ _ _ _. Unit {0} };

    fn value(&self, _pass: &mut (), state: u32) -> u64 {
        self.table[state as usize]
    }

    ghost still = { λ _ _. tt };

    ghost further = { λ _ _ _ _ _ _. tt };

    ghost carried = { λ _ _ _ _ _ inside. inside };

    ghost rises = { λ v _ _ _ s. le_refl (slice_index v.table.now s) };

    ghost units = { λ v _ s inside. v.units s 0 inside };
}

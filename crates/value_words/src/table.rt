//! This module has the table, and its steps.

ghost use Rattle.std.specs.Prelude.{◌≡◌, ◌≢◌, ℕ, ◌+◌, ◌/◌, ◌<◌, ◌≤◌, ◌⊎◌, true, false, length, slice_index, slice_set, All, IfOk, MatchBool};
ghost use Rattle.game_model.specs.Query.{Query, IsQuery, states, is_goal, is_dead};
ghost use Rattle.game_model.specs.Limits.{unit};
ghost use Rattle.game_model.specs.Rounded.{down_step, down_steps, IsBelow};
ghost use Rattle.step_core.specs.Word.{value_in, choice_in, value_at, opening_words, greater_words};
ghost use Rattle.step_core.specs.Sound.{AreSoundWords, Sees};
ghost use Rattle.fixed_bellman.specs.Given.{IsFree, IsGivenBy};
ghost use Rattle.std.specs.Mem.Slots.{IsFull, slots_items};

use crate::pass::Pass;
use crate::rule::{Exchanging, Loading, Posing, Rising, Sharing, Sight};
use atomic_table::{Closed, Table, TableRule};
use fixed_bellman::{Values, step_above};
use game_model::Question;
use game_outside::OutOfMemory;
use std::alloc::Global;
use std::marker::{Model, PhantomData};
use step_core::{opening_words, pack, value_of};

/// This many words stay in the caches of a processor, whatever is read between.
const MOST_NEAR: u32 = 262_144;

/// These are the shared words of a question, under a rule.
#[derive(Drop)]
pub struct Ruled<'q, Q: TableRule<(), Sight, ()>, P: Posing> {
    table: Table<(), Sight, (), Q, Global>,
    question: &'q Question<'q>,
    of: PhantomData<P>,
    ghost is: { question.now ≡ P.posed },
    ghost posed: { IsQuery P.posed },
    ghost as_many: { table.shared.table_id.words ≡ states P.posed },
    ghost bare: { table.shared.table_id.slots ≡ 0 },
}

/// These are the shared words of a question, whose invariant holds between any two steps.
pub type ValueTable<'q, P> = Ruled<'q, Rising<P>, P>;

/// These are the words of a table that was closed, one for each state.
#[derive(Drop)]
pub struct Words {
    words: Vec<u64>,
}

impl Model for Words {
    ghost use Rattle.std.specs.Prelude.{ℕ, List};

    ghost Value = { List ℕ };

    ghost view = { λ w. w.words.items };
}

impl Words {
    /// Returns the words, by state.
    pub fn as_slice(&self) -> &[u64]
        ensures { result.now ≡ self.now }
    {
        self.words.as_slice()
    }
}

impl<'q, P: Posing> ValueTable<'q, P> {
    ghost use Rattle.value_words.specs.Passes.{IsOf, Grew, Looked, NamesFirst, seen_by, words_seen, won_by, parts_of};
    ghost use Rattle.value_words.specs.Rule.{all_parts, other_half};
    ghost use Rattle.value_words.specs.Steps.{IsOffer};

    /// Returns the opening words, and the one pass that has seen them.
    pub fn start(
        alloc: Global,
        question: &'q Question<'q>,
    ) -> Result<(ValueTable<'q, P>, Pass<P>), OutOfMemory>
        requires { question.now ≡ P.posed }
        ensures { IfOk result (λ r. IsOf r.0 r.1 × (words_seen r.1 ≡ opening_words P.posed) × (won_by r.1 ≡ 0)
            × (parts_of r.1 ≡ all_parts)) }
    {
        question.invariant();
        let words = opening_words(alloc, question)?;
        match Table::of_words(alloc, words.as_slice(), &()) {
            Ok((table, seat)) => Ok((
                Ruled {
                    table,
                    question,
                    of: PhantomData,
                },
                Pass {
                    seat,
                    of: PhantomData,
                },
            )),
            Err(_) => Err(OutOfMemory {}),
        }
    }

    /// Returns the question.
    pub fn question(&self) -> &'q Question<'q>
        ensures { result.now ≡ P.posed }
    {
        self.question
    }

    /// Raises the word of a state to its step over the words, if that is greater. Returns whether an exchange of this
    /// call won.
    pub fn update(&self, pass: &mut Pass<P>, state: u32) -> bool
        requires pass { IsOf self.now pass.old }
        requires state { state < states P.posed }
        ensures grew { Grew pass.old pass.new }
        // What was seen at the state is now at least the down step of what was seen before.
        ensures step { down_step P.posed (seen_by pass.old) state ≤ seen_by pass.new state }
        ensures won { MatchBool result (won_by pass.new ≡ won_by pass.old + 1) (won_by pass.new ≡ won_by pass.old) }
        ensures parts { parts_of pass.new ≡ parts_of pass.old }
        // A word that this call wrote names the first choice with its value.
        ensures first { result ≡ true → NamesFirst P.posed (seen_by pass.old) state
            (slice_index (words_seen pass.new) state) }
        // At a goal or a dead state nothing changes.
        ensures fixed { (is_goal P.posed state ≡ true) ⊎ (is_dead P.posed state ≡ true)
            → (result ≡ false) × (words_seen pass.new ≡ words_seen pass.old) }
    {
        if self.question.is_goal(state) || self.question.is_dead(state) {
            return false;
        }
        self.raise(pass, state)
    }

    /// Loads each word once, and writes its value into the table.
    pub fn read_into(&self, pass: &mut Pass<P>, table: &mut [u64])
        requires pass { IsOf self.now pass.old }
        requires room { length table.old ≡ states P.posed }
        ensures looked { Looked pass.old pass.new }
        ensures units { All (λ v. v ≤ unit) table.new }
        ensures read { (s : ℕ) → s < states P.posed → slice_index table.new s ≡ seen_by pass.new s }
    {
        for state in 0..table.len() {
            table[state] = value_of(self.load(pass, state as u32));
        }
    }

    /// Loads the words of the successors of the states from `from` up to and not including `to`, and keeps nothing:
    /// steps there then find these words near. If there are few words they are near, and none is loaded.
    pub fn look_ahead(&self, pass: &mut Pass<P>, from: u32, to: u32)
        requires pass { IsOf self.now pass.old }
        requires order { from ≤ to }
        requires inside { to ≤ states P.posed }
        ensures looked { Looked pass.old pass.new }
    {
        let game = self.question.game();
        if game.states() > MOST_NEAR {
            self.look_at(pass, game.successors_between(from, to));
        }
    }

    /// Returns a second pass, which has seen the same and has won nothing. Each of the two has about half of the parts;
    /// a single part is lost.
    pub fn split(&self, pass: &mut Pass<P>) -> Pass<P>
        requires { IsOf self.now pass.old }
        ensures grew { Grew pass.old pass.new }
        ensures seen { words_seen pass.new ≡ words_seen pass.old }
        ensures won { won_by pass.new ≡ won_by pass.old }
        ensures parts { (parts_of pass.new ≡ parts_of pass.old / 2)
            × (parts_of result ≡ other_half (parts_of pass.old)) }
        ensures new { IsOf self.now result × (words_seen result ≡ words_seen pass.old) × (won_by result ≡ 0) }
    {
        let seat = self.table.shared.split_seat::<Sharing>(&mut pass.seat);
        Pass {
            seat,
            of: PhantomData,
        }
    }

    /// Takes in another pass: for each state the seen word of greater value is then the one that was seen.
    pub fn meet(&self, pass: &mut Pass<P>, other: Pass<P>)
        requires pass { IsOf self.now pass.old }
        requires other { IsOf self.now other }
        ensures grew { Grew pass.old pass.new }
        ensures other { (s : ℕ) → seen_by other s ≤ seen_by pass.new s }
        ensures seen { words_seen pass.new ≡ greater_words (words_seen pass.old) (words_seen other) }
        ensures won { won_by pass.new ≡ won_by pass.old + won_by other }
        ensures parts { parts_of pass.new ≡ parts_of pass.old + parts_of other }
    {
        let Pass { seat, of: _ } = other;
        self.table.shared.join_seat::<Sharing>(&mut pass.seat, seat);
    }

    /// Returns the final words. Each is the one that the pass has seen, or has a greater value.
    pub fn close(self, alloc: Global, pass: Pass<P>) -> Result<Words, OutOfMemory>
        requires { IsOf self pass }
        ensures words { IfOk result (λ words. AreSoundWords P.posed words) }
        ensures seen { IfOk result (λ words. Sees P.posed words (words_seen pass)) }
        // A pass with all parts is the only one: the words are nowhere above as many down steps as it won exchanges.
        ensures within { parts_of pass ≡ all_parts
            → IfOk result (λ words. IsBelow P.posed (value_at words) (down_steps P.posed (won_by pass))) }
    {
        let Ruled {
            table,
            question: _,
            of: _,
        } = self;
        let Pass { seat, of: _ } = pass;
        let closed = table.close_with(seat);
        let words = words_of(alloc, &closed);
        closed.free();
        Ok(Words { words: words? })
    }

    // Returns the word of a state.
    fn load(&self, pass: &mut Pass<P>, state: u32) -> u64
        requires pass { IsOf self.now pass.old }
        requires state { state < states P.posed }
        ensures looked { Looked pass.old pass.new }
        ensures seen { words_seen pass.new ≡ slice_set (words_seen pass.old) state result }
        ensures current { result ≡ slice_index (words_seen pass.new) state }
        ensures low { seen_by pass.old state ≤ value_in result }
        ensures value { seen_by pass.new state ≡ value_in result }
        ensures units { value_in result ≤ unit }
    {
        self.table
            .shared
            .load::<Loading>(&mut pass.seat, state as usize)
    }

    // Loads the words of these states.
    fn look_at(&self, pass: &mut Pass<P>, wanted: &[u32])
        requires pass { IsOf self.now pass.old }
        requires inside { All (λ s. s < states P.posed) wanted.now }
        ensures looked { Looked pass.old pass.new }
    {
        for state in wanted {
            self.load(pass, *state);
        }
    }

    // Tries to exchange the word that the pass has seen for one of greater value.
    fn exchange(&self, pass: &mut Pass<P>, state: u32, from: u64, to: u64) -> u64
        requires pass { IsOf self.now pass.old }
        requires offer { IsOffer P.posed (words_seen pass.old) state from to }
        ensures grew { Grew pass.old pass.new }
        ensures parts { parts_of pass.new ≡ parts_of pass.old }
        ensures hit { result ≡ from → (won_by pass.new ≡ won_by pass.old + 1)
            × (slice_index (words_seen pass.new) state ≡ to) }
        ensures lost { result ≢ from → (won_by pass.new ≡ won_by pass.old)
            × (result ≡ slice_index (words_seen pass.new) state) × (value_in from < value_in result) }
    {
        self.table
            .shared
            .compare_exchange::<Exchanging>(&mut pass.seat, state as usize, from, to)
    }

    // Tries to exchange the word until it has at least this value. Returns whether an exchange won.
    fn exchange_up(&self, pass: &mut Pass<P>, state: u32, to: u64) -> bool
        requires pass { IsOf self.now pass.old }
        requires state { state < states P.posed }
        requires free { IsFree P.posed state }
        requires given { IsGivenBy P.posed (seen_by pass.old) state (value_in to) (choice_in to) }
        ensures grew { Grew pass.old pass.new }
        ensures reached { value_in to ≤ seen_by pass.new state }
        ensures won { MatchBool result (won_by pass.new ≡ won_by pass.old + 1) (won_by pass.new ≡ won_by pass.old) }
        ensures parts { parts_of pass.new ≡ parts_of pass.old }
        ensures wrote { result ≡ true → slice_index (words_seen pass.new) state ≡ to }
    {
        let mut current = self.load(pass, state);
        while value_of(current) < value_of(to) {
            let found = self.exchange(pass, state, current, to);
            if found == current {
                return true;
            }
            current = found;
        }
        false
    }

    // Does `update` at a state that is neither goal nor dead.
    fn raise(&self, pass: &mut Pass<P>, state: u32) -> bool
        requires pass { IsOf self.now pass.old }
        requires state { state < states P.posed }
        requires free { IsFree P.posed state }
        ensures grew { Grew pass.old pass.new }
        ensures step { down_step P.posed (seen_by pass.old) state ≤ seen_by pass.new state }
        ensures won { MatchBool result (won_by pass.new ≡ won_by pass.old + 1) (won_by pass.new ≡ won_by pass.old) }
        ensures parts { parts_of pass.new ≡ parts_of pass.old }
        ensures first { result ≡ true → NamesFirst P.posed (seen_by pass.old) state
            (slice_index (words_seen pass.new) state) }
    {
        let least = value_of(self.load(pass, state));
        let (value, choice) = step_above(self.question, self, pass, state, least);
        if value <= least {
            return false;
        }
        self.exchange_up(pass, state, pack(value, choice))
    }
}

// A kernel of steps reads the words as they are loaded.
impl<'q, P: Posing> Values for ValueTable<'q, P> {
    ghost use Rattle.std.proofs.Common.{refl, ◌∙◌, le_refl, le_trans};
    ghost use Rattle.value_words.specs.Passes.{IsOf, Looked, seen_by};

    type Pass = Pass<P>;

    ghost fits = { λ table pass s. IsOf table pass × (s < states P.posed) };

    ghost seen = { λ _ pass. seen_by pass };

    ghost onward = { λ _ old new. Looked old new };

    fn value(&self, pass: &mut Pass<P>, state: u32) -> u64 {
        value_of(self.load(pass, state))
    }

    ghost still = { λ _ a. record {
      grew = record { table = refl; up = λ s. le_refl (seen_by a s) };
      won = refl;
      parts = refl;
    } };

    ghost further = { λ _ a b c h k. record {
      grew = record {
        table = k.grew.table ∙ h.grew.table;
        up = λ s. le_trans (h.grew.up s) (k.grew.up s);
      };
      won = k.won ∙ h.won;
      parts = k.parts ∙ h.parts;
    } };

    ghost carried = { λ _ _ _ _ h k. (h.grew.table ∙ k.0, k.1) };

    ghost rises = { λ _ a b h s. h.grew.up s };

    ghost units = { λ _ a s k. a.units s k.1 };
}

// Returns the words that a closed table holds.
fn words_of(alloc: Global, closed: &Closed<(), Global>) -> Result<Vec<u64>, OutOfMemory>
    requires { IsFull closed.now.words }
    ensures { IfOk result (λ words. words.items ≡ slots_items closed.now.words) }
{
    let mut words = Vec::new(alloc);
    for state in 0..closed.words.len() {
        let Ok(()) = words.push(closed.word(state)) else {
            return Err(OutOfMemory {});
        };
    }
    Ok(words)
}

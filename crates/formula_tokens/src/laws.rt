//! This module has the laws of tokens. Each function does nothing: its contract is the law.

ghost use Rattle.std.specs.Prelude.{◌≡◌, ◌++◌, ◌↔◌, ℕ, List, None, length};
ghost use Rattle.formula_tokens.specs.Laws.{AreTokens, AreAlike, IsBlank, StandsAt, spellings_of, cause_of};
ghost use Rattle.formula_tokens.specs.Limits.{longest, longest_name};
ghost use Rattle.formula_tokens.specs.TokenRules.{AreCut};
ghost use Rattle.formula_tokens.specs.Tokens.{tokens_of};

use crate::limits::{LONGEST, LONGEST_NAME};

/// The limits of the code are those of the definitions.
pub fn limits()
    ensures text { LONGEST ≡ longest }
    ensures name { LONGEST_NAME ≡ longest_name }
{}

/// If the tokens that are found in a text go up to its end, they are those into which the rules cut it: each is the
/// longest spelling that begins there.
pub fn tokens_are_the_longest_spellings()
    ensures { (text : List ℕ) (tokens : List (List ℕ)) → AreTokens (tokens_of text) tokens ↔ AreCut text tokens }
{}

/// A blank separates tokens: behind a text of whole tokens and a blank come the tokens of what follows.
pub fn blanks_part_tokens()
    ensures spellings { (front blank back : List ℕ) → IsBlank blank → cause_of (tokens_of front) ≡ None →
        spellings_of (tokens_of (front ++ (blank ++ back))) ≡ spellings_of (tokens_of front)
        ++ spellings_of (tokens_of back) }
    ensures cause { (front blank back : List ℕ) → IsBlank blank → cause_of (tokens_of front) ≡ None →
        cause_of (tokens_of (front ++ (blank ++ back))) ≡ cause_of (tokens_of back) }
{}

/// A blank before a token changes only places.
pub fn blanks_before_tokens_are_free()
    ensures { (front blank back : List ℕ) → IsBlank blank → StandsAt (tokens_of (front ++ back)) (length front) →
        AreAlike (tokens_of (front ++ (blank ++ back))) (tokens_of (front ++ back)) }
{}

//! This module has the laws of lines, fields and numbers. Each function does nothing: its contract is the law.
ghost use Rattle.std.specs.Prelude.{◌≡◌, ◌<◌, ◌^◌, ◌∷◌, ◌++◌, [], ℕ, List, Some, length, decimal, true};
ghost use Rattle.text_lines.specs.Text.{lines_of, fields_of, number_of, is_blank};
ghost use Rattle.text_lines.specs.Limits.{most_bytes};
ghost use Rattle.text_lines.specs.Laws.{HasNo, EndsInNoCr, HasNoBlank};

use crate::MOST_BYTES;

/// The limit of the code is the limit of the definitions.
pub fn limits()
    ensures { MOST_BYTES ≡ most_bytes }
{}

/// A line is the bytes before its ending, LF or CRLF, or before the end of the text. With `lines_of [] ≡ []` these
/// three laws determine the lines of every text.
pub fn lines_end_in_lf_or_crlf()
    ensures lf { (line rest : List ℕ) → HasNo 10 line → EndsInNoCr line
        → lines_of (line ++ 10 ∷ rest) ≡ line ∷ lines_of rest }
    ensures crlf { (line rest : List ℕ) → HasNo 10 line → lines_of (line ++ 13 ∷ 10 ∷ rest) ≡ line ∷ lines_of rest }
    ensures last { (line : List ℕ) → HasNo 10 line → 0 < length line → lines_of line ≡ line ∷ [] }
{}

/// A blank parts a line, and bytes without a blank are one field. With `fields_of [] ≡ []` these two laws determine the
/// fields of every line.
pub fn fields_are_parted_by_blanks()
    ensures parted { (front back : List ℕ) (b : ℕ) → is_blank b ≡ true
        → fields_of (front ++ b ∷ back) ≡ fields_of front ++ fields_of back }
    ensures field { (field : List ℕ) → HasNoBlank field → 0 < length field → fields_of field ≡ field ∷ [] }
{}

/// A number that is written in decimal is read back, also after leading zeros.
pub fn numbers_are_read_back()
    ensures written { (n : ℕ) → n < 2 ^ 64 → number_of (decimal n) ≡ Some n }
    ensures zero { (field : List ℕ) (n : ℕ) → number_of field ≡ Some n → number_of (48 ∷ field) ≡ Some n }
{}

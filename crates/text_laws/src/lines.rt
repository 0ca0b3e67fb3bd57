//! Laws of texts, over the definitions alone.
ghost use Rattle.std.specs.Prelude.{◌≡◌, ◌<◌, ◌+◌, ◌^◌, ◌⊎◌, ◌↔◌, ℕ, List, ◌++◌, codes, length, slice_index, Some, IsSome, false, true};
ghost use Rattle.std.specs.Str.Parse.{AllDigits};
ghost use Rattle.std.specs.List.{list_all};
ghost use Rattle.std.specs.Fmt.{decimal};
ghost use Rattle.text_lines.specs.Lines.{line_count, are_whole_lines, text_from};
ghost use Rattle.text_lines.specs.NumberTokens.{number_of};
ghost use Rattle.text_lines.specs.Spelled.{lines_text, is_line, numbered};
ghost use Rattle.text_lines.specs.declared.numbers.TheConstants.{MAX_DIGITS, OVERLONG};

/// Bytes after whole lines add lines after theirs, with the numbers that follow, and change none of theirs.
pub fn a_text_goes_on_behind_whole_lines()
    ensures lines { (n : ℕ) (front back : List ℕ) → are_whole_lines front ≡ true
        → (text_from n (front ++ back)).lines ≡ (text_from n front).lines ++ (text_from (n + line_count front) back).lines }
    ensures ending { (n : ℕ) (front back : List ℕ) → are_whole_lines front ≡ true
        → (text_from n (front ++ back)).ending ≡ (text_from (n + line_count front) back).ending }
{}

/// A line feed after a last line that lacks it changes no line, nor where the text ends; then the bytes are whole lines.
pub fn a_last_line_may_lack_its_feed()
    ensures same { (n : ℕ) (bytes : List ℕ) → are_whole_lines bytes ≡ false → text_from n (bytes ++ codes "\n") ≡ text_from n bytes }
    ensures whole { (bytes : List ℕ) → are_whole_lines (bytes ++ codes "\n") ≡ true }
{}

/// Lines that are written with one space between their tokens are read as these tokens, whatever follows them.
pub fn written_lines_are_read()
    ensures { (n : ℕ) (lines : List (List (List ℕ))) (more : List ℕ) → list_all is_line lines ≡ true
        → text_from n (lines_text lines ++ more) ≡ record {
          lines = numbered n lines ++ (text_from (n + length lines) more).lines;
          ending = (text_from (n + length lines) more).ending;
        } }
{}

/// A number of at most `MAX_DIGITS` digits has one spelling, which is read as this number; every longer one is overlong. A token
/// is read as a number if it has only digits, at least one, and no 0 in front of another.
pub fn a_number_has_one_spelling()
    ensures read { (n : ℕ) → n < 10 ^ MAX_DIGITS → number_of (decimal n) ≡ Some n }
    ensures only { (token : List ℕ) (n : ℕ) → number_of token ≡ Some n → n < 10 ^ MAX_DIGITS → token ≡ decimal n }
    ensures long { (token : List ℕ) (n : ℕ) → number_of token ≡ Some n
        → (n < 10 ^ MAX_DIGITS) ⊎ ((n ≡ OVERLONG) × (MAX_DIGITS < length token)) }
    ensures form { (token : List ℕ) → IsSome (number_of token)
        ↔ ((0 < length token) × AllDigits 10 token × (slice_index token 0 ≡ 48 → length token ≡ 1)) }
{}

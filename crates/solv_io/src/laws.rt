ghost use Rattle.std.specs.Prelude.{ℕ, ◌≡◌, List, [], ◌∷◌, ◌++◌, ◌<◌, length, All};
ghost use Rattle.solv_io.specs.JoinedWords.{WordsAreReadAgain};
ghost use Rattle.solv_io.specs.Lines.{lines_of, ended_lines, IsLine};

/// Lines that are written out are read again: where a line feed ends each of them, and where the last has none and is
/// not empty. Each text is one of the two, so the law says what the lines of any text are.
pub fn lines_are_read_again()
    ensures closed { (written : List (List ℕ)) → All IsLine written → lines_of (ended_lines written) ≡ written }
    ensures open { (written : List (List ℕ)) (rest : List ℕ) → All IsLine written → IsLine rest → 0 < length rest
        → lines_of (ended_lines written ++ rest) ≡ written ++ rest ∷ [] }
{}

/// Words joined by single spaces are read as these words.
pub fn words_are_read_again()
    ensures { WordsAreReadAgain }
{}

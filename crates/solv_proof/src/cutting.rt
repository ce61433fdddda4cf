//! Words between spaces.
ghost use Rattle.std.specs.Prelude.{◌≡◌, ◌∷◌, ◌<◌, length, IfSome};
ghost use Rattle.std.specs.Option.{option_map};
ghost use Rattle.solv_proof.specs.Words.{words_between, three_words, is_some_word, are_words};
ghost use Rattle.solv_proof.specs.Inner.Words.{words_left};
ghost use Rattle.solv_proof.specs.Texts.{is_some_list};

use solv_io::cut_at;

/// The first word, and what comes after its space, if there is one.
pub(crate) fn cut_word(text: &[u8]) -> (&[u8], Option<&[u8]>)
    ensures cut { words_between text.now ≡ result.0.now ∷ words_left (option_map (λ behind. behind.now) result.1) }
    ensures shorter { IfSome result.1 (λ behind. length behind.now < length text.now) }
{
    let (word, behind) = cut_at(b' ', text);
    match behind {
        Some(rest) => (word, Some(rest)),
        None => (word, None),
    }
}

/// The words of a line, where they are three.
pub(crate) fn three_words(line: &[u8]) -> Option<(&[u8], &[u8], &[u8])>
    ensures { option_map (λ cut. (cut.0.now, cut.1.now, cut.2.now)) result ≡ three_words (words_between line.now) }
{
    let (first, behind) = cut_word(line);
    let Some(behind) = behind else {
        return None;
    };
    let (second, behind) = cut_word(behind);
    let Some(behind) = behind else {
        return None;
    };
    let (third, behind) = cut_word(behind);
    match behind {
        Some(_) => None,
        None => Some((first, second, third)),
    }
}

/// How many words there are. Room is taken by it and nothing else, so no clause says it.
pub(crate) fn room_for(words: Option<&[u8]>) -> usize {
    match words {
        Some(text) => {
            let spaces = text.iter().filter(|byte| **byte == b' ').count();
            spaces.saturating_add(1)
        }
        None => 0,
    }
}

/// Whether a word is left.
pub(crate) fn has_words(words: Option<&[u8]>) -> bool
    ensures { result ≡ is_some_list (words_left (option_map (λ text. text.now) words.entry)) }
{
    match words {
        Some(_) => true,
        None => false,
    }
}

/// Whether no word is empty.
pub(crate) fn are_words(words: Option<&[u8]>) -> bool
    ensures { result ≡ are_words (words_left (option_map (λ text. text.now) words.entry)) }
{
    let mut rest = words;
    while let Some(text) = rest {
        let (word, behind) = cut_word(text);
        if word.is_empty() {
            return false;
        }
        rest = behind;
    }
    true
}

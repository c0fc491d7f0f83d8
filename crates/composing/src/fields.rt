// The words of a line.
ghost use Rattle.std.specs.Prelude.{◌≡◌, if◌then◌else◌, Some, None};
ghost use Rattle.std.specs.Option.{option_map};
ghost use Rattle.words.specs.Words.{is_blank, after_word, word_of};

use words::split_word;

pub(crate) fn is_blank(line: &[u8]) -> bool
    ensures { result ≡ is_blank line.now }
{
    line.iter().all(|b| *b == b' ')
}

// The only word that is left on a line.
pub(crate) fn last_word(line: &[u8]) -> Option<&[u8]>
    ensures { option_map (λ word. word.now) result ≡ (if is_blank (after_word line.now) then Some (word_of line.now) else None) }
{
    let (word, rest) = split_word(line);
    is_blank(rest).then_some(word)
}

//! Words that no form has.

ghost use Rattle.std.specs.Prelude.{◌≡◌, map, string_bytes};
ghost use Rattle.std.specs.List.{list_any};
ghost use Rattle.lay_words.specs.Grammar.{is_odd, is_one_hyphen};

/// Whether a word is empty, is `-` or `--`, or begins with a single hyphen.
fn is_odd(word: &[u8]) -> bool
    ensures { result ≡ is_odd word.now }
{
    match word.split_first() {
        None => true,
        Some((first, rest)) => *first == b'-' && is_one_hyphen(rest),
    }
}

/// Whether so much follows a hyphen that the word is `-` or `--` or has one hyphen in front.
fn is_one_hyphen(rest: &[u8]) -> bool
    ensures { result ≡ is_one_hyphen rest.now }
{
    match rest.split_first() {
        None => true,
        Some((second, others)) => others.is_empty() || *second != b'-',
    }
}

/// Whether one of the words is odd.
pub(crate) fn any_odd(words: &[String]) -> bool
    ensures { result ≡ list_any is_odd (map string_bytes words.now) }
{
    for word in words {
        if is_odd(word.as_bytes()) {
            return true;
        }
    }
    false
}

//! Words of 64 truth values.

ghost use Rattle.std.specs.Prelude.{ℕ, ◌≡◌, ◌<◌, ◌+◌, ◌*◌, ◌%◌, ◌^◌, bit_or, if◌then◌else◌};
ghost use Rattle.lay_cascade.specs.Words.{is_in, with_bit, shifted, spread, front_word};

/// How many truth values a word has.
pub(crate) const BITS: usize = 64;

/// The truth value at a place.
pub(crate) fn is_in(word: u64, j: usize) -> bool
    requires { j < 64 }
    ensures { result ≡ is_in word j }
{
    (word >> j) & 1 == 1
}

/// The word in which the truth value at a place is `true`.
pub(crate) fn with_bit(word: u64, j: usize) -> u64
    requires { j < 64 }
    ensures { result ≡ with_bit word j }
{
    word | (1 << j)
}

/// The same where this is told, or else the word itself.
pub(crate) fn with_told(word: u64, j: usize, told: bool) -> u64
    requires { j < 64 }
    ensures { result ≡ (if told then with_bit word j else word) }
{
    if told { with_bit(word, j) } else { word }
}

/// Each truth value one place further on. The first one is `false`.
pub(crate) fn shifted(word: u64) -> u64
    ensures { result ≡ shifted word }
{
    word << 1
}

/// The word whose first truth value this is. All others are `false`.
pub(crate) fn front_word(told: bool) -> u64
    ensures { result ≡ front_word told }
{
    if told { 1 } else { 0 }
}

/// Where `start` is true, and on from there as far as `run` is true.
pub(crate) fn spread(start: u64, run: u64) -> u64
    ensures { (j : ℕ) → j < 64 → is_in result j ≡ spread start run j }
{
    let mut word = start;
    for _turn in 0..BITS {
        let next = start | (run & shifted(word));
        if next == word {
            return word;
        }
        word = next;
    }
    word
}

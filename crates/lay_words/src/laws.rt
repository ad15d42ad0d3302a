//! Laws of the words.

ghost use Rattle.lay_words.specs.Agree.{ClapAgrees};
ghost use Rattle.lay_words.specs.Grammar.{NumbersAreInRange};

/// Where no word is odd, `clap` takes exactly the words that the grammar takes, and finds the same name and values.
pub fn clap_agrees()
    ensures { ClapAgrees }
{}

/// The numbers of a form are in their ranges.
pub fn numbers_are_in_range()
    ensures { NumbersAreInRange }
{}

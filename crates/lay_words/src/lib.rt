//! The words of the command line: what they ask for, read by `clap`.
//!
//! The forms that words may have are the grammar of `specs/Grammar.antt`. `read_words` answers the one form of the
//! words or that they have none. The law `clap_agrees` (`specs/Agree.antt`) says that `clap` takes exactly the words that
//! name a form and options of it with their values, where no word is odd, and finds the same; ranges, and that an option
//! comes once, are judged on the values.
#![tactic(auto)]

mod command;
mod form;
mod laws;
mod number;
mod odd;
mod reading;

pub use form::Form;
pub use laws::{clap_agrees, numbers_are_in_range};
pub use reading::read_words;

//! The texts of properties' values: which declaration a property's name and a text give together, or
//! why they give none (CSS 2.2, 4.1.8, 4.3 and the values of each property).
//!
//! The contract of `read` cites `read_declaration` of `specs/Reading.antt`, which goes from the text to a
//! keyword (`specs/Words.antt`), a number (`specs/Numbers.antt`) or a length or percentage
//! (`specs/Lengths.antt`). Which of them a property takes is `is_value_of` of lay_style.
#![tactic(auto)]

mod laws;
mod lengths;
mod names;
mod numbers;
mod reading;
mod words;

pub use laws::{name_fault, one_measure, one_name, one_word};
pub use names::property_of;
pub use reading::{ValueFault, read, read_bytes, trimmed, without_front};

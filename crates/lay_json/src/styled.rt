//! A run document with its style sheet: from bytes to the run whose document the sheet has styled (CSS 2.2, 6.4), or to the
//! first fault.
//!
//! `read_styled` answers the one styled reading that the bytes have (`specs/Styled/StyledReading.antt`): without a sheet it is the run
//! itself, with one its document is that of the cascade (lay_cascade), and a sheet of more than 4,096 selectors is refused.
//! `read_styled_check` does so with a run document that stands beside a report (`specs/Styled/StyledChecks.antt`).

mod by_place;
mod check;
mod laws;
mod styled_check;
mod styled_reading;

pub use check::Check;
pub use laws::{one_styled_check, one_styled_reading, runs_are_styled_beside_reports};
pub use styled_check::read_styled_check;
pub use styled_reading::read_styled;

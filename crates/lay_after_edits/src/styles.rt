//! The computed styles of a document after an edit (CSS 2.2, 6.1.2 and 6.2), from those before it: they are made anew for the node that the
//! edit changes or puts in, and for those below it, and taken over for all others.
//!
//! What stays is said in `specs/Styles/KeptStyles.antt`, and of which nodes the styles are made anew in `specs/Styles/Stretches.antt`.

mod kept_styles;
mod stretch;
mod written_over;

pub use kept_styles::restyled;
pub use written_over::{Part, follow_part, write_over};

//! Cells: what is kept of work that may have to be done again, for any kind of work.
//!
//! Contracts see cells as a list of rows (`specs/Rows.antt`), which keep the facts of `specs/Sound.antt`
//! through every call. What each call comes to is said in `specs/Steps.antt`, `Marks.antt` and
//! `Reshapes.antt`, and that each call has one answer and leaves one state, in `specs/Laws.antt`.
//!
//! - `progress`: laws of cells that are worked on, whatever the work is.
#![tactic(auto)]

mod answers;
mod blanks;
mod cell;
mod cells;
mod change;
mod done;
mod entries;
mod fresh;
mod holding;
mod index;
mod laws;
mod marking;
mod needs;
mod places;
pub mod progress;
mod reading;
mod reshaping;
mod reusing;
mod shape;
mod work;

pub use answers::{Claimed, Finished, Look, Released};
pub use cells::Cells;
pub use done::Done;
pub use laws::{
    one_claim, one_dirty_from, one_finish, one_first_dirty, one_give_back, one_laid, one_look,
    one_marking, one_need, one_reshape, one_value, present_shape_keeps,
};
pub use shape::Shape;
pub use work::Work;

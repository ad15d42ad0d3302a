//! Which cells an edit of a document changes by itself: those of the contexts that it touches (CSS 2.2, 9.4.1), whose boxes change, or of
//! which it changes whether their preferred widths count (10.3.5).
//!
//! `IsTouched` of `specs/Touched/TouchedContexts.antt` says which contexts these are, and `AreTouchedKeys` of
//! `specs/Touched/TouchedKeys.antt` is the list of their keys.

mod laws;
mod measured_contexts;
mod numbers_by_node;
mod touched_keys;

pub use laws::{
    listed_keys_are_of_touched_contexts, one_list_of_touched_keys, touched_contexts_are_listed,
    touched_keys_stand_once, unlisted_contexts_are_untouched,
};
pub use measured_contexts::MeasuredContexts;
pub use touched_keys::changed_keys;

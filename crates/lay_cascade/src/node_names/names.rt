//! What a node is called.

ghost use Rattle.std.specs.Prelude.{◌≡◌, []};

use crate::node_names::text_list::TextList;
use lay_units::Text;
use std::alloc::Global;

/// What a node is called. Where it has no tag or no label, the text is empty.
#[derive(Drop)]
pub struct Names {
    pub tag: Text,
    pub label: Text,
    pub classes: TextList,
}

impl Names {
    /// No names. Nothing is allocated.
    pub fn none(alloc: Global) -> Names
        ensures { result ≡ record { tag = []; label = []; classes = [] } }
    {
        Names {
            tag: Text::new(String::new(alloc)),
            label: Text::new(String::new(alloc)),
            classes: TextList::new(Vec::new(alloc)),
        }
    }
}

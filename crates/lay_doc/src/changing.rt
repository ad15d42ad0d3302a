//! One node of a list, when its declarations or its text change.

ghost use Rattle.std.specs.Prelude.{◌≡◌, ◌<◌, length, OnOk, OnErr};
ghost use Rattle.lay_doc.specs.Changes.{with_style, without_style, with_text, changed_at};

use crate::node::Node;
use lay_style::{Decl, Property};
use lay_units::{NoMemory, Text};

/// Sets a declaration of the node at a place. On an error all is as before.
pub fn set_style(nodes: &mut Vec<Node>, place: usize, decl: Decl) -> Result<(), NoMemory>
    requires { place < length nodes.old.items }
    ensures ok { OnOk result (nodes.new.items ≡ changed_at place (with_style decl) nodes.old.items) }
    ensures err { OnErr result (nodes.new.items ≡ nodes.old.items) }
{
    nodes[place].decls.set(decl)?;
    Ok(())
}

/// Takes away what the node at a place declares for the property.
pub fn clear_style(nodes: &mut Vec<Node>, place: usize, property: Property)
    requires { place < length nodes.old.items }
    ensures { nodes.new.items ≡ changed_at place (without_style property) nodes.old.items }
{
    nodes[place].decls.clear(property);
}

/// Gives the node at a place another text.
pub fn set_text(nodes: &mut Vec<Node>, place: usize, text: Text)
    requires { place < length nodes.old.items }
    ensures { nodes.new.items ≡ changed_at place (with_text text) nodes.old.items }
{
    nodes[place].text = text;
}

//! Edits and their faults.

ghost use Rattle.std.specs.Prelude.{◌≡◌};
ghost use Rattle.lay_doc.specs.Edits.{bad_fault};

use crate::node::{NewNode, NodeId};
use lay_style::{Decl, Property};
use lay_units::Text;

/// A change of a document.
#[derive(Drop)]
pub enum Edit {
    /// Declares a value of a property on a node, in place of an earlier one.
    SetStyle {
        node: NodeId,
        decl: Decl,
    },
    /// Takes away what is declared for a property on a node. Where nothing is, it changes nothing.
    ClearStyle {
        node: NodeId,
        property: Property,
    },
    /// Gives a text node another text.
    SetText {
        node: NodeId,
        text: Text,
    },
    /// Puts a node below its parent, before the child that had the index, or last where the index is
    /// the number of children.
    Insert {
        parent: NodeId,
        index: u32,
        new: NewNode,
    },
    /// Takes a node and its descendants away.
    Remove {
        node: NodeId,
    },
    /// What an editor meant as `SetStyle` or `ClearStyle`, and that is neither. It is always refused.
    Bad {
        fault: BadDeclaration,
    },
}

/// Why there is no such declaration.
#[derive(Clone, Copy)]
pub enum BadDeclaration {
    /// There is no such property.
    Property,
    /// The value isn't one of the property's.
    Value,
}

impl BadDeclaration {
    /// The fault of an edit with it: E10 or E11.
    pub fn edit_fault(self) -> EditFault
        ensures { result ≡ bad_fault self }
    {
        match self {
            BadDeclaration::Property => EditFault::BadProperty,
            BadDeclaration::Value => EditFault::BadValue,
        }
    }
}

/// Why an edit is refused; a report says it as E1 to E11.
#[derive(Clone, Copy, Debug, PartialEq, Eq)]
pub enum EditFault {
    /// E1: the named node, or the parent of an insertion, isn't there.
    NoNode,
    /// E2: the parent of an insertion or the root isn't an element, or the node whose style is set or
    /// cleared is a text.
    NotElement,
    /// E3: the node whose text is set isn't a text.
    NotText,
    /// E4: the id of an insertion is there already, or is 0.
    IdTaken,
    /// E5: the index of an insertion is greater than the number of the parent's children.
    BadIndex,
    /// E6: the root can't be removed.
    RootFixed,
    /// E7: there would be more than 65,536 nodes.
    TooManyNodes,
    /// E8: the node would have a depth over 128.
    TooDeep,
    /// E9: a text would pass 65,536 bytes, or all texts together 1,048,576 bytes.
    TextTooLong,
    /// E10: there is no such property.
    BadProperty,
    /// E11: the value isn't one of the property's.
    BadValue,
}

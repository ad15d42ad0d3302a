//! The boxes of a context, as later layout takes them.

ghost use Rattle.std.specs.Prelude.{◌≡◌};

use lay_doc::NodeId;
use lay_style::Style;
use lay_units::{Text, Unit};
use std::marker::Model;

/// What a box is.
#[derive(Drop)]
pub enum BoxKind {
    Block,
    InlineBlock,
    Inline,
    /// An anonymous inline box, or what is directly in an inline box.
    Text(Text),
    /// A replaced element with its natural size, which is inline-level or block-level.
    Replaced { w: Unit, h: Unit, inline: bool },
    /// What holds the captions of a table and its table box (CSS 2.2, 17.4).
    Wrapper,
    /// What holds the captions of an inline-table and its table box.
    InlineWrapper,
    Table,
    Caption,
    RowGroup,
    HeaderGroup,
    FooterGroup,
    Row,
    ColumnGroup { span: u32 },
    Column { span: u32 },
    Cell { colspan: u32, rowspan: u32 },
    /// Where an absolute or fixed box would stand in flow.
    Anchor,
}

/// Whether a box is in flow (CSS 2.2, 9.3).
#[derive(Clone, Copy, PartialEq, Eq)]
pub enum Flow {
    InFlow,
    Floating,
    /// `position` is absolute or fixed.
    Absolute,
}

/// A box of a context.
#[derive(Drop)]
pub struct BoxNode {
    /// Its node; of an anonymous box the nearest element's around it.
    pub node: NodeId,
    /// The place of its parent box, which stands before it; 0 for the context's own box at place 0.
    pub parent: u32,
    pub kind: BoxKind,
    /// Whether it is in flow (9.3). An anchor isn't; the table box in a wrapper is.
    pub flow: Flow,
    pub anonymous: bool,
    /// It is the box of an inner context's element, or its anchor, and has no children here.
    pub inner: bool,
    /// The style of its node; of an anonymous box what is inherited from that, and else the initial
    /// values (9.2.1.1). An anchor has the style of its parent box.
    pub style: Style,
}

/// The boxes of a context in the order of the box tree, its own box first. Boxes of inner contexts stand
/// alone, and anchors for absolute and fixed ones.
#[derive(Drop)]
pub struct BoxTree {
    items: Vec<BoxNode>,
}

impl Model for BoxTree {
    ghost use Rattle.std.specs.Prelude.{List};
    ghost use Rattle.lay_box_tree.specs.BoxColumns.{IsBoxTree};
    ghost use Rattle.lay_box_tree.specs.declared.box_tree.BoxNode.{BoxNode};

    ghost Value = { List BoxNode };

    ghost view = { λ t. t.items.items };

    ghost invariant = { λ t. IsBoxTree t.items.items };
}

impl BoxTree {
    ghost use Rattle.lay_box_tree.specs.BoxColumns.{IsBoxTree};

    /// The tree of these boxes, which are taken over without a copy.
    pub fn new(items: Vec<BoxNode>) -> BoxTree
        requires { IsBoxTree items.items }
        ensures { result ≡ items.items }
    {
        BoxTree { items }
    }

    /// The boxes, in order: a tree in which the boxes of inner contexts and anchors are leaves.
    pub fn as_slice(&self) -> &[BoxNode]
        ensures boxes { result.now ≡ self.now }
        ensures tree { IsBoxTree self.now }
    {
        self.items.as_slice()
    }
}

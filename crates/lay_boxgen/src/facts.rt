//! What the rules of box generation see of a box.

use lay_box_tree::Flow;
use lay_doc::NodeId;
use lay_units::Unit;

/// What is seen of a text.
#[derive(Clone, Copy)]
pub enum TextForm {
    /// It has more than white space.
    Seen,
    /// It is white space alone, of which some is preserved.
    White,
    /// It is white space alone, which would be collapsed away (CSS 2.2, 16.6.1).
    Blank,
}

/// What a box is.
#[derive(Clone, Copy)]
pub enum Form {
    Block,
    InlineBlock,
    Inline,
    /// A text, which is in an inline box or is an anonymous one (9.2.2.1).
    Text(TextForm),
    /// A replaced element with its natural size, which is inline-level or block-level.
    Replaced { w: Unit, h: Unit, inline: bool },
    /// What holds a table and its captions (17.4). A table is its wrapper alone until the table box is
    /// made in it.
    Wrapper,
    /// The same for an inline-table.
    InlineWrapper,
    Table,
    Caption,
    RowGroup,
    HeaderGroup,
    FooterGroup,
    Row,
    ColumnGroup { span: u32 },
    Column { span: u32 },
    Cell { colspan: u32, rowspan: u32 },
    /// Where an absolute or fixed box would stand in flow.
    Anchor,
}

/// What is known of a box besides its children.
#[derive(Clone, Copy)]
pub struct Facts {
    /// Its node; of an anonymous box the nearest element's around it.
    pub node: NodeId,
    /// The place of this node in the document.
    pub place: usize,
    pub form: Form,
    pub anonymous: bool,
    pub flow: Flow,
    /// It is the box of a context other than that whose boxes are made.
    pub inner: bool,
}

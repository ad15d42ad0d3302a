//! What the kind of a box says of it.

ghost use Rattle.std.specs.Prelude.{◌≡◌};
ghost use Rattle.lay_box_tree.specs.Kinds.{is_caption_kind, is_cell_kind, is_wrapper};

use crate::box_tree::BoxKind;

/// Whether it is the wrapper of a table or of an inline-table.
pub fn is_wrapper(kind: &BoxKind) -> bool
    ensures { result ≡ is_wrapper kind.now }
{
    matches!(kind, BoxKind::Wrapper | BoxKind::InlineWrapper)
}

pub fn is_caption(kind: &BoxKind) -> bool
    ensures { result ≡ is_caption_kind kind.now }
{
    matches!(kind, BoxKind::Caption)
}

/// Whether it is a cell of a table.
pub fn is_cell(kind: &BoxKind) -> bool
    ensures { result ≡ is_cell_kind kind.now }
{
    matches!(kind, BoxKind::Cell { .. })
}

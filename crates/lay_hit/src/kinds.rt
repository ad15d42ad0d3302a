//! Kinds of nodes in painting (CSS 2.2, 9.9 and Appendix E).

ghost use Rattle.std.specs.Prelude.{◌≡◌, ◌<◌, length, true, false};
ghost use Rattle.lay_style.specs.Positions.{is_positioned};
ghost use Rattle.lay_doc.specs.NewNodes.{is_text};
ghost use Rattle.lay_boxgen.specs.Display.{used_display_of};
ghost use Rattle.lay_hit.specs.PaintKinds.{stack_level, kind_in_flow, is_stacking, forms_group, is_inline_paint};
ghost use Rattle.lay_hit.specs.PaintKinds.{is_replaced, is_out_of_flow, paint_kind, kind_at, stacking_level_of};

use lay_boxgen::used_display_of;
use lay_doc::{Kind, Node};
use lay_style::{Display, Float, Position, Style, ZIndex};

/// How a node is painted.
#[derive(Clone, Copy, Debug, PartialEq, Eq)]
pub enum PaintKind {
    /// It makes a stacking context.
    Stacking,
    /// It is positioned and makes none, but is painted like one.
    Layered,
    Float,
    /// An inline-level box that is painted as a whole.
    Atomic,
    /// A block, or a part of a table.
    Block,
    /// An inline box or a text.
    Inline,
}

impl PaintKind {
    /// Whether it makes a stacking context.
    pub(crate) fn is_stacking(self) -> bool
        ensures { result ≡ is_stacking self }
    {
        matches!(self, PaintKind::Stacking)
    }

    /// Whether it is painted as a whole, with what is in it.
    pub(crate) fn forms_group(self) -> bool
        ensures { result ≡ forms_group self }
    {
        !matches!(self, PaintKind::Block | PaintKind::Inline)
    }

    /// Whether it is an inline box or a text.
    pub(crate) fn is_inline(self) -> bool
        ensures { result ≡ is_inline_paint self }
    {
        matches!(self, PaintKind::Inline)
    }
}

/// The level of the stacking context that a node of this position and `z-index` makes (9.9.1).
fn stack_level(position: Position, z_index: ZIndex) -> Option<i64>
    ensures { result ≡ stack_level position z_index }
{
    match z_index {
        ZIndex::Auto => match position {
            Position::Fixed => Some(0),
            _ => None,
        },
        ZIndex::Number(level) => match position {
            Position::Static => None,
            _ => Some(level),
        },
    }
}

/// The kind of a node in flow by its used `display`.
fn kind_in_flow(is_replaced: bool, display: Display) -> PaintKind
    ensures { result ≡ kind_in_flow is_replaced display }
{
    match display {
        Display::InlineBlock | Display::InlineTable => PaintKind::Atomic,
        Display::Inline if is_replaced => PaintKind::Atomic,
        Display::Inline => PaintKind::Inline,
        _ => PaintKind::Block,
    }
}

fn is_replaced(kind: Kind) -> bool
    ensures { result ≡ is_replaced kind }
{
    matches!(kind, Kind::Replaced { .. })
}

/// The used `display` of a node in flow, which 9.7 leaves as it is.
fn display_in_flow(kind: Kind, style: &Style) -> Display
    requires { is_out_of_flow style.now ≡ false }
    ensures { result ≡ used_display_of false kind style.now }
{
    match kind {
        Kind::Element { .. } => style.display,
        _ => used_display_of(false, kind, style),
    }
}

/// How a node of this kind and style is painted.
pub fn paint_kind(is_root: bool, kind: Kind, style: &Style) -> PaintKind
    ensures { result ≡ paint_kind is_root kind style.now }
{
    if is_root {
        return PaintKind::Stacking;
    }
    if kind.is_text() {
        return PaintKind::Inline;
    }
    if !matches!(style.position, Position::Static) {
        return positioned_kind(style);
    }
    if !matches!(style.float, Float::None) {
        return PaintKind::Float;
    }
    kind_in_flow(is_replaced(kind), display_in_flow(kind, style))
}

/// The kind of a positioned node.
fn positioned_kind(style: &Style) -> PaintKind
    requires { is_positioned style.now.position ≡ true }
    ensures { (kind : Kind) → is_text kind ≡ false → result ≡ paint_kind false kind style.now }
{
    match stack_level(style.position, style.z_index) {
        Some(_) => PaintKind::Stacking,
        None => PaintKind::Layered,
    }
}

/// How the node at a place is painted.
pub(crate) fn kind_at(nodes: &[Node], styles: &[Style], place: usize) -> PaintKind
    requires node { place < length nodes.now }
    requires style { place < length styles.now }
    ensures { result ≡ kind_at nodes.now styles.now place }
{
    paint_kind(place == 0, nodes[place].kind, &styles[place])
}

/// The level of a node that is painted so.
pub(crate) fn level_of(kind: PaintKind, style: &Style) -> i64
    ensures { result ≡ stacking_level_of kind style.now }
{
    if !kind.is_stacking() {
        return 0;
    }
    match stack_level(style.position, style.z_index) {
        Some(level) => level,
        None => 0,
    }
}

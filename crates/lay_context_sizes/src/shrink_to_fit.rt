//! Which own boxes may shrink to fit.

ghost use Rattle.std.specs.Prelude.{◌≡◌};
ghost use Rattle.lay_context_sizes.specs.ShrinkToFit.{shrinks, shrinks_floating, shrinks_in_flow, shrinks_to_fit};

use lay_box_tree::{BoxKind, BoxNode, Flow};
use lay_style::Style;
use lay_table_sizes::{has_width, is_fixed};

/// Whether the own box of these boxes, the first one, may shrink to fit its content (CSS 2.2, 10.3.5, 10.3.7, 10.3.9 and
/// 17.5.2.2), so that its preferred widths count.
pub fn shrinks_to_fit(boxes: &[BoxNode]) -> bool
    ensures { result ≡ shrinks_to_fit boxes.now }
{
    match boxes.get(0) {
        Some(node) => shrinks(node.flow, &node.kind, &node.style),
        None => false,
    }
}

fn shrinks(flow: Flow, kind: &BoxKind, style: &Style) -> bool
    ensures { result ≡ shrinks flow kind.now style.now }
{
    match flow {
        Flow::InFlow => shrinks_in_flow(kind, style),
        Flow::Floating => shrinks_floating(kind, style),
        Flow::Absolute => true,
    }
}

fn shrinks_in_flow(kind: &BoxKind, style: &Style) -> bool
    ensures { result ≡ shrinks_in_flow kind.now style.now }
{
    match kind {
        BoxKind::InlineBlock => !has_width(style.sizing.width),
        BoxKind::Wrapper | BoxKind::InlineWrapper => !is_fixed(style),
        _ => false,
    }
}

fn shrinks_floating(kind: &BoxKind, style: &Style) -> bool
    ensures { result ≡ shrinks_floating kind.now style.now }
{
    match kind {
        BoxKind::Wrapper | BoxKind::InlineWrapper => true,
        _ => !has_width(style.sizing.width),
    }
}

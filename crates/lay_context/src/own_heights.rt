//! How high the own box of a formatting context is to be.

ghost use Rattle.std.specs.Prelude.{◌≡◌, ◌<◌, length};
ghost use Rattle.lay_sizes.specs.SizeBounds.{SizeFits};
ghost use Rattle.lay_flow_boxes.specs.PlaceInputs.{HeightRuleFits, height_rule_of};
ghost use Rattle.lay_context.specs.OwnHeights.{height_rule_as, own_height_rule};

use lay_box_tree::{BoxKind, ContextBoxes};
use lay_context_sizes::SizedContext;
use lay_flow::blocks::HeightRule;
use lay_flow_boxes::height_rule_of;
use lay_sizes::BoxSizes;
use lay_units::{Len, Unit};

/// The height that the content of the own box is to have among these boxes, which have these sizes.
pub(crate) fn own_height_rule(boxes: &ContextBoxes, sized: &SizedContext) -> HeightRule
    requires { 0 < length sized.now.boxes }
    ensures rule { result ≡ own_height_rule boxes.now sized.now.boxes sized.now.stretched }
    ensures fits { HeightRuleFits result }
{
    match sized.stretched() {
        None => height_rule_as(&boxes.as_slice()[0].kind, sized.boxes().as_slice()[0]),
        Some(height) => HeightRule {
            given: Len::Of(height),
            min: Unit(0),
            max: None,
        },
    }
}

fn height_rule_as(kind: &BoxKind, sizes: BoxSizes) -> HeightRule
    requires { SizeFits sizes }
    ensures rule { result ≡ height_rule_as kind.now sizes }
    ensures fits { HeightRuleFits result }
{
    match kind {
        BoxKind::Cell { .. } => AS_HIGH_AS_CONTENT,
        _ => height_rule_of(sizes),
    }
}

const AS_HIGH_AS_CONTENT: HeightRule = HeightRule {
    given: Len::Auto,
    min: Unit(0),
    max: None,
};

//! Which formatting contexts are absolutely positioned.

ghost use Rattle.std.specs.Prelude.{◌≡◌, ◌<◌, length};
ghost use Rattle.lay_positioned.specs.Absolute.{is_absolute, is_absolute_flow, is_fixed, is_fixed_position, is_own_absolute, is_own_fixed};

use lay_box_tree::{ContextBoxes, Flow};
use lay_contexts::FormattingContexts;
use lay_style::Position;

/// Whether the formatting context with this number is that of an absolutely positioned element (CSS 2.2, 9.6).
pub fn is_absolute(contexts: &FormattingContexts, i: usize) -> bool
    requires { i < length contexts.now }
    ensures { result ≡ is_absolute contexts.now i }
{
    is_own_absolute(contexts.at(i).boxes())
}

/// Whether it is fixed (9.6.1).
pub fn is_fixed(contexts: &FormattingContexts, i: usize) -> bool
    requires { i < length contexts.now }
    ensures { result ≡ is_fixed contexts.now i }
{
    is_own_fixed(contexts.at(i).boxes())
}

/// Whether the context with these boxes is.
pub fn is_own_absolute(boxes: &ContextBoxes) -> bool
    ensures { result ≡ is_own_absolute boxes.now }
{
    is_absolute_flow(boxes.as_slice()[0].flow)
}

/// Whether the context with these boxes is fixed.
pub fn is_own_fixed(boxes: &ContextBoxes) -> bool
    ensures { result ≡ is_own_fixed boxes.now }
{
    is_fixed_position(boxes.as_slice()[0].style.position)
}

fn is_absolute_flow(flow: Flow) -> bool
    ensures { result ≡ is_absolute_flow flow }
{
    matches!(flow, Flow::Absolute)
}

fn is_fixed_position(position: Position) -> bool
    ensures { result ≡ is_fixed_position position }
{
    matches!(position, Position::Fixed)
}

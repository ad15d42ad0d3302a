//! The used value of `display`, and the form of box that it gives (CSS 2.2, 9.7 and 17.2).

ghost use Rattle.std.specs.Prelude.{◌≡◌};
ghost use Rattle.lay_boxgen.specs.Display.{flow_of, as_block, used_display, replaced_display, used_display_of, element_form};

use crate::facts::Form;
use crate::forms::is_in_flow;
use lay_box_tree::Flow;
use lay_doc::Kind;
use lay_style::{Display, Float, Position, Style};

/// Whether what has this style is in flow. `float` counts as `none` where `position` is absolute or fixed.
pub fn flow_of(style: &Style) -> Flow
    ensures { result ≡ flow_of style.now }
{
    if matches!(style.position, Position::Absolute | Position::Fixed) {
        Flow::Absolute
    } else if !matches!(style.float, Float::None) {
        Flow::Floating
    } else {
        Flow::InFlow
    }
}

/// `display` by the table of 9.7.
fn as_block(display: Display) -> Display
    ensures { result ≡ as_block display }
{
    match display {
        Display::InlineTable => Display::Table,
        Display::Block | Display::ListItem | Display::Table | Display::None => display,
        _ => Display::Block,
    }
}

/// `display` after 9.7.
pub fn used_display(is_root: bool, flow: Flow, display: Display) -> Display
    ensures { result ≡ used_display is_root flow display }
{
    if is_root || !is_in_flow(flow) {
        as_block(display)
    } else {
        display
    }
}

/// `display` as it is read on a replaced element, before 9.7.
fn replaced_display(display: Display) -> Display
    ensures { result ≡ replaced_display display }
{
    match display {
        Display::Block | Display::ListItem | Display::Inline | Display::None => display,
        Display::Table => Display::Block,
        _ => Display::Inline,
    }
}

/// The used `display` of a node of this kind; a text is inline.
pub fn used_display_of(is_root: bool, kind: Kind, style: &Style) -> Display
    ensures { result ≡ used_display_of is_root kind style.now }
{
    match kind {
        Kind::Element { .. } => used_display(is_root, flow_of(style), style.display),
        Kind::Text => Display::Inline,
        Kind::Replaced { .. } => {
            used_display(is_root, flow_of(style), replaced_display(style.display))
        }
    }
}

/// The box of an element with these spans; None for `display: none`.
pub fn element_form(colspan: u32, rowspan: u32, display: Display) -> Option<Form>
    ensures { result ≡ element_form colspan rowspan display }
{
    let form = match display {
        Display::Inline => Form::Inline,
        Display::Block | Display::ListItem => Form::Block,
        Display::InlineBlock => Form::InlineBlock,
        Display::Table => Form::Wrapper,
        Display::InlineTable => Form::InlineWrapper,
        Display::TableRowGroup => Form::RowGroup,
        Display::TableHeaderGroup => Form::HeaderGroup,
        Display::TableFooterGroup => Form::FooterGroup,
        Display::TableRow => Form::Row,
        Display::TableColumnGroup => Form::ColumnGroup { span: colspan },
        Display::TableColumn => Form::Column { span: colspan },
        Display::TableCell => Form::Cell { colspan, rowspan },
        Display::TableCaption => Form::Caption,
        Display::None => return None,
    };
    Some(form)
}

//! The box that a node generates by itself, and which elements establish contexts (CSS 2.2, 9.2 and 9.4.1).

ghost use Rattle.std.specs.Prelude.{◌≡◌};
ghost use Rattle.lay_boxgen.specs.NodeBoxes.{replaced_form, form_of_text, form_of, node_flow};
ghost use Rattle.lay_boxgen.specs.NodeBoxes.{is_context_form, establishes_context, node_box};

use crate::display::{element_form, flow_of, used_display_of};
use crate::facts::{Facts, Form};
use crate::forms::is_in_flow;
use crate::white_space::text_form;
use lay_box_tree::Flow;
use lay_doc::{Kind, Node};
use lay_style::{Display, Overflow, Style};
use lay_units::Unit;

/// The box of a replaced element of this used `display`.
fn replaced_form(w: Unit, h: Unit, display: Display) -> Option<Form>
    ensures { result ≡ replaced_form w h display }
{
    match display {
        Display::None => None,
        Display::Inline => Some(Form::Replaced { w, h, inline: true }),
        _ => Some(Form::Replaced {
            w,
            h,
            inline: false,
        }),
    }
}

/// The box of a text, if it has a character.
fn form_of_text(style: &Style, text: &str) -> Option<Form>
    ensures { result ≡ form_of_text style.now text.now }
{
    if text.is_empty() {
        return None;
    }
    Some(Form::Text(text_form(style.text.white_space, text)))
}

/// The form of a node's box, if it generates one.
fn form_of(is_root: bool, node: &Node, style: &Style) -> Option<Form>
    ensures { result ≡ form_of is_root node.now.kind node.now.text style.now }
{
    let display = used_display_of(is_root, node.kind, style);
    match node.kind {
        Kind::Element { colspan, rowspan } => element_form(colspan, rowspan, display),
        Kind::Text => form_of_text(style, node.text.as_str()),
        Kind::Replaced { w, h } => replaced_form(w, h, display),
    }
}

/// Whether a node is in flow.
pub fn node_flow(kind: Kind, style: &Style) -> Flow
    ensures { result ≡ node_flow kind style.now }
{
    match kind {
        Kind::Text => Flow::InFlow,
        _ => flow_of(style),
    }
}

/// Whether boxes of this form establish contexts wherever they stand.
fn is_context_form(form: Form, overflow: Overflow) -> bool
    ensures { result ≡ is_context_form form overflow }
{
    match form {
        Form::InlineBlock
        | Form::Cell { .. }
        | Form::Caption
        | Form::Wrapper
        | Form::InlineWrapper
        | Form::Replaced { .. } => true,
        Form::Block => !matches!(overflow, Overflow::Visible),
        _ => false,
    }
}

/// Whether a box establishes a context.
fn establishes_context(is_root: bool, flow: Flow, form: Form, overflow: Overflow) -> bool
    ensures { result ≡ establishes_context is_root flow form overflow }
{
    is_root || !is_in_flow(flow) || is_context_form(form, overflow)
}

/// The box that the node at a place of the document generates by itself, if it does.
pub fn node_box(place: usize, node: &Node, style: &Style) -> Option<Facts>
    ensures { result ≡ node_box place node.now style.now }
{
    let form = form_of(place == 0, node, style)?;
    let flow = node_flow(node.kind, style);
    Some(Facts {
        node: node.id,
        place,
        form,
        anonymous: false,
        flow,
        inner: establishes_context(place == 0, flow, form, style.overflow),
    })
}

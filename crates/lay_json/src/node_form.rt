//! The forms of a node's fields.

ghost use Rattle.std.specs.Prelude.{◌≡◌, ◌≤◌, [], IfOk};
ghost use Rattle.serde_json.specs.View.{view, members_view};
ghost use Rattle.lay_doc.specs.NewNodes.{IsNodeForm};
ghost use Rattle.lay_json.specs.Fields.{map_read};
ghost use Rattle.lay_json.specs.NodeForms.{kind_named, kind_name, are_texts, texts_of, style_of, px_unit};
ghost use Rattle.lay_json.specs.NodeForms.{element_kind_of, text_kind_of, replaced_kind_of, node_kind_named, node_form};

use crate::fault::{Field, InputFault, Spot};
use crate::fields::{
    Bounds, IDS, NUMBERS, number_or, object_of, required_number, required_sides, required_text,
    value_in,
};
use lay_doc::{Kind, NodeId};
use lay_units::Unit;
use serde_json::{Map, Value};

/// How many columns or rows a cell spans.
const SPANS: Bounds = Bounds { low: 1, high: 64 };

/// What `kind` names.
#[derive(Clone, Copy)]
pub(crate) enum KindName {
    Element,
    Text,
    Replaced,
}

/// A node's fields but its style and its text. The parent is named by its id, 0 for none.
#[derive(Clone, Copy)]
pub(crate) struct NodeForm {
    pub id: NodeId,
    pub parent: NodeId,
    pub kind: Kind,
}

fn kind_named(text: &str) -> Option<KindName>
    ensures { result ≡ kind_named text.now }
{
    match text {
        "element" => Some(KindName::Element),
        "text" => Some(KindName::Text),
        "replaced" => Some(KindName::Replaced),
        _ => None,
    }
}

fn kind_name(object: &Value, place: Spot) -> Result<KindName, InputFault>
    ensures { result ≡ kind_name place (view object.now) }
{
    let field = Field::Kind;
    match kind_named(required_text(object, field, place)?) {
        Some(name) => Ok(name),
        None => Err(InputFault::WrongKind { field, place }),
    }
}

/// Whether all members have texts.
fn are_texts(members: &Map<String, Value>) -> bool
    ensures { result ≡ are_texts (members_view members.now.entries) }
{
    for (_, value) in members {
        if !value.is_string() {
            return false;
        }
    }
    true
}

/// The members of a `style`, whose values must be texts.
fn texts_of(style: &Value, place: Spot) -> Result<&Map<String, Value>, InputFault>
    ensures { map_read (λ m. members_view m.now.entries) result ≡ texts_of place (view style.now) }
{
    let members = object_of(style, Field::Style, place)?;
    if !are_texts(members) {
        return Err(InputFault::WrongKind {
            field: Field::Style,
            place,
        });
    }
    Ok(members)
}

/// The first fault of the form of `style`.
fn check_style(object: &Value, place: Spot) -> Result<(), InputFault>
    ensures { result ≡ map_read (λ m. tt) (style_of place (view object.now)) }
{
    if let Some(style) = value_in(object, Field::Style) {
        texts_of(style, place)?;
    }
    Ok(())
}

fn px(n: u64) -> Unit
    requires { n ≤ 1000000 }
    ensures { result ≡ px_unit n }
{
    Unit(64 * n as i64)
}

fn element_form(object: &Value, place: Spot) -> Result<Kind, InputFault>
    ensures value { result ≡ element_kind_of place (view object.now) }
    ensures form { IfOk result (λ k. IsNodeForm k [] []) }
{
    check_style(object, place)?;
    let colspan = number_or(1, SPANS, object, Field::Colspan, place)?;
    let rowspan = number_or(1, SPANS, object, Field::Rowspan, place)?;
    Ok(Kind::Element {
        colspan: colspan as u32,
        rowspan: rowspan as u32,
    })
}

fn text_form(object: &Value, place: Spot) -> Result<Kind, InputFault>
    ensures value { result ≡ text_kind_of place (view object.now) }
    ensures form { IfOk result (λ k. IsNodeForm k [] []) }
{
    required_text(object, Field::Text, place)?;
    Ok(Kind::Text)
}

fn replaced_form(object: &Value, place: Spot) -> Result<Kind, InputFault>
    ensures value { result ≡ replaced_kind_of place (view object.now) }
    ensures form { IfOk result (λ k. IsNodeForm k [] []) }
{
    check_style(object, place)?;
    let (w, h) = required_sides(object, Field::Natural, place)?;
    Ok(Kind::Replaced { w: px(w), h: px(h) })
}

fn form_named(object: &Value, place: Spot, name: KindName) -> Result<Kind, InputFault>
    ensures value { result ≡ node_kind_named place (view object.now) name }
    ensures form { IfOk result (λ k. IsNodeForm k [] []) }
{
    match name {
        KindName::Element => element_form(object, place),
        KindName::Text => text_form(object, place),
        KindName::Replaced => replaced_form(object, place),
    }
}

/// The forms of all fields of a node, in their order, or the first fault.
pub(crate) fn node_form(object: &Value, place: Spot) -> Result<NodeForm, InputFault>
    ensures value { result ≡ node_form place (view object.now) }
    ensures form { IfOk result (λ f. IsNodeForm f.kind [] []) }
{
    let id = required_number(IDS, object, Field::Id, place)?;
    let parent = required_number(NUMBERS, object, Field::Parent, place)?;
    let name = kind_name(object, place)?;
    let kind = form_named(object, place, name)?;
    Ok(NodeForm {
        id: NodeId(id as u32),
        parent: NodeId(parent as u32),
        kind,
    })
}

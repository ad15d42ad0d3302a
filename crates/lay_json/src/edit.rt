//! One edit, as a command of an editor or as one of a batch.

ghost use Rattle.std.specs.Prelude.{◌≡◌, IfOk};
ghost use Rattle.serde_json.specs.View.{view};
ghost use Rattle.lay_json.specs.Fields.{Gives};
ghost use Rattle.lay_json.specs.EditCommands.{change_named, change_of, named_node, set_command, clear_command};
ghost use Rattle.lay_json.specs.EditCommands.{text_command, insert_command, remove_command, edit_for, edit_of};

use crate::fault::{Field, InputFault, Spot};
use crate::fields::{NUMBERS, object_of, required_number, required_text};
use crate::new_node::{declaration_of, new_node};
use crate::node_form::node_form;
use lay_doc::{BadDeclaration, Edit, NodeId};
use lay_units::{NoMemory, Text};
use lay_values::property_of;
use serde_json::Value;
use std::alloc::Global;

/// What `do` names of edits.
#[derive(Clone, Copy)]
pub(crate) enum Change {
    Set,
    Clear,
    Text,
    Insert,
    Remove,
}

pub(crate) fn change_named(text: &str) -> Option<Change>
    ensures { result ≡ change_named text.now }
{
    match text {
        "set" => Some(Change::Set),
        "clear" => Some(Change::Clear),
        "text" => Some(Change::Text),
        "insert" => Some(Change::Insert),
        "remove" => Some(Change::Remove),
        _ => None,
    }
}

fn change_of(object: &Value, place: Spot) -> Result<Change, InputFault>
    ensures { result ≡ change_of place (view object.now) }
{
    let field = Field::Do;
    match change_named(required_text(object, field, place)?) {
        Some(change) => Ok(change),
        None => Err(InputFault::WrongKind { field, place }),
    }
}

/// The node that a command names.
fn named_node(object: &Value, place: Spot) -> Result<NodeId, InputFault>
    ensures { result ≡ named_node place (view object.now) }
{
    let id = required_number(NUMBERS, object, Field::Node, place)?;
    Ok(NodeId(id as u32))
}

fn set_command(alloc: Global, object: &Value, place: Spot) -> Result<Edit, InputFault>
    ensures { result ≡ set_command place (view object.now) }
{
    let node = named_node(object, place)?;
    let property = required_text(object, Field::Property, place)?;
    let value = required_text(object, Field::Value, place)?;
    match declaration_of(alloc, property, value) {
        Ok(decl) => Ok(Edit::SetStyle { node, decl }),
        Err(fault) => Ok(Edit::Bad { fault }),
    }
}

fn clear_command(object: &Value, place: Spot) -> Result<Edit, InputFault>
    ensures { result ≡ clear_command place (view object.now) }
{
    let node = named_node(object, place)?;
    let name = required_text(object, Field::Property, place)?;
    match property_of(name) {
        Some(property) => Ok(Edit::ClearStyle { node, property }),
        None => Ok(Edit::Bad {
            fault: BadDeclaration::Property,
        }),
    }
}

fn text_copy(alloc: Global, text: &str) -> Result<Text, NoMemory>
    ensures { IfOk result (λ t. t ≡ text.now) }
{
    Ok(Text::new(String::from_str(alloc, text)?))
}

fn text_command(alloc: Global, object: &Value, place: Spot) -> Result<Edit, InputFault>
    ensures { Gives result (text_command place (view object.now)) }
{
    let node = named_node(object, place)?;
    let text = required_text(object, Field::Text, place)?;
    Ok(Edit::SetText {
        node,
        text: text_copy(alloc, text)?,
    })
}

fn insert_command(alloc: Global, object: &Value, place: Spot) -> Result<Edit, InputFault>
    ensures { Gives result (insert_command place (view object.now)) }
{
    let index = required_number(NUMBERS, object, Field::Index, place)?;
    let form = node_form(object, place)?;
    match new_node(alloc, &form, object)? {
        Ok(new) => Ok(Edit::Insert {
            parent: form.parent,
            index: index as u32,
            new,
        }),
        Err(fault) => Ok(Edit::Bad { fault }),
    }
}

fn remove_command(object: &Value, place: Spot) -> Result<Edit, InputFault>
    ensures { result ≡ remove_command place (view object.now) }
{
    let node = named_node(object, place)?;
    Ok(Edit::Remove { node })
}

/// The edit that does this.
pub(crate) fn edit_for(
    alloc: Global,
    object: &Value,
    place: Spot,
    change: Change,
) -> Result<Edit, InputFault>
    ensures { Gives result (edit_for place (view object.now) change) }
{
    match change {
        Change::Set => set_command(alloc, object, place),
        Change::Clear => clear_command(object, place),
        Change::Text => text_command(alloc, object, place),
        Change::Insert => insert_command(alloc, object, place),
        Change::Remove => remove_command(object, place),
    }
}

/// The edit that a value is, or the first fault of its fields.
pub(crate) fn edit_of(alloc: Global, value: &Value, place: Spot) -> Result<Edit, InputFault>
    ensures { Gives result (edit_of place (view value.now)) }
{
    object_of(value, Field::Do, place)?;
    let change = change_of(value, place)?;
    edit_for(alloc, value, place, change)
}

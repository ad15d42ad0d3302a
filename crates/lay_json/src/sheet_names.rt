//! The style sheet of a run, and what its nodes are called.

ghost use Rattle.std.specs.Prelude.{◌≡◌, [], Some, length, min, IfOk};
ghost use Rattle.serde_json.specs.View.{view, items_view};
ghost use Rattle.lay_json.specs.Fields.{map_read, Gives, Changes};
ghost use Rattle.lay_json.specs.NodeForms.{text_in};
ghost use Rattle.lay_json.specs.SheetNames.{text_or_empty, items_are_texts, texts_in, class_items, names_of, is_a_text};
ghost use Rattle.lay_json.specs.SheetNames.{names_at, with_names, names_from, items_or_none, nodes_in, with_sheet, sheet_of};

use crate::fault::{Field, InputFault, Spot};
use crate::fields::{list_of, text_of, value_in};
use crate::sheet_in::SheetIn;
use lay_cascade::node_names::{Names, NamesList, TextList};
use lay_units::{NoMemory, Text};
use serde_json::Value;
use std::alloc::Global;

/// An equal text.
pub(crate) fn copied(alloc: Global, text: &str) -> Result<Text, NoMemory>
    ensures { IfOk result (λ t. t ≡ text.now) }
{
    Ok(Text::new(String::from_str(alloc, text)?))
}

/// The text of a field, which is empty where the object hasn't the field.
fn text_or_empty(object: &Value, field: Field, place: Spot) -> Result<&str, InputFault>
    ensures { map_read (λ s. s.now) result ≡ text_or_empty field place (view object.now) }
{
    match value_in(object, field) {
        Some(value) => text_of(value, field, place),
        None => Ok(""),
    }
}

/// Whether all items are texts.
fn items_are_texts(items: &[Value]) -> bool
    ensures { result ≡ items_are_texts (items_view items.now) }
{
    for item in items {
        if !item.is_string() {
            return false;
        }
    }
    true
}

/// The items of `classes`, which must be texts; none where the field is absent.
fn class_items(object: &Value, place: Spot) -> Result<&[Value], InputFault>
    ensures { map_read (λ v. items_view v.now) result ≡ class_items place (view object.now) }
{
    let field = Field::Classes;
    let Some(classes) = value_in(object, field) else {
        return Ok(&[]);
    };
    let items = list_of(classes, field, place)?;
    if items_are_texts(items) {
        Ok(items)
    } else {
        Err(InputFault::WrongKind { field, place })
    }
}

/// The text that an item is, after its form was judged.
fn text_in(alloc: Global, item: &Value) -> Result<Text, NoMemory>
    ensures { IfOk result (λ t. t ≡ text_in (Some (view item.now))) }
{
    copied(alloc, item.as_str().unwrap_or(""))
}

/// The texts that items are, after their forms were judged.
fn texts_in(alloc: Global, items: &[Value]) -> Result<TextList, NoMemory>
    ensures { IfOk result (λ l. l ≡ texts_in (items_view items.now)) }
{
    let mut texts = Vec::new(alloc);
    for item in items {
        texts.push(text_in(alloc, item)?)?;
    }
    Ok(TextList::new(texts))
}

/// What a node that isn't a text is called: its tag, its label and its classes, each of which may be absent.
fn names_of(alloc: Global, node: &Value, place: Spot) -> Result<Names, InputFault>
    ensures { Gives result (names_of place (view node.now)) }
{
    let tag = text_or_empty(node, Field::Tag, place)?;
    let label = text_or_empty(node, Field::Label, place)?;
    let classes = class_items(node, place)?;
    Ok(Names {
        tag: copied(alloc, tag)?,
        label: copied(alloc, label)?,
        classes: texts_in(alloc, classes)?,
    })
}

/// Whether a node is a text, after its form was judged.
fn is_a_text(node: &Value) -> bool
    ensures { result ≡ is_a_text (view node.now) }
{
    match value_in(node, Field::Kind) {
        Some(kind) => kind.as_str() == Some("text"),
        None => false,
    }
}

/// What the node with this number is called; a text has no names.
fn names_at(alloc: Global, number: u32, node: &Value) -> Result<Names, InputFault>
    ensures { Gives result (names_at number (view node.now)) }
{
    if is_a_text(node) {
        return Ok(Names::none(alloc));
    }
    names_of(alloc, node, Spot::Node(number))
}

/// How many nodes come before the next one. A run has fewer than 2^32 of them.
fn next_number(names: &NamesList) -> u32
    ensures { result ≡ min (length names.now) 4294967295 }
{
    names.len().min(4294967295) as u32
}

/// Reads what the next node is called, and adds it.
fn add_names(alloc: Global, names: &mut NamesList, node: &Value) -> Result<(), InputFault>
    ensures { Changes result names.new (with_names names.old (view node.now)) }
{
    let next = names_at(alloc, next_number(names), node)?;
    names.push(next)?;
    Ok(())
}

/// Reads what further nodes are called, and adds it.
pub(crate) fn add_all_names(
    alloc: Global,
    names: &mut NamesList,
    nodes: &[Value],
) -> Result<(), InputFault>
    ensures { Changes result names.new (names_from names.old (items_view nodes.now)) }
{
    for node in nodes {
        add_names(alloc, names, node)?;
    }
    Ok(())
}

/// What the nodes are called.
pub(crate) fn names_in(alloc: Global, nodes: &[Value]) -> Result<NamesList, InputFault>
    ensures { Gives result (names_from [] (items_view nodes.now)) }
{
    let mut names = NamesList::new(alloc);
    add_all_names(alloc, &mut names, nodes)?;
    Ok(names)
}

/// A run's nodes, after their forms were judged.
fn nodes_in(run: &Value) -> &[Value]
    ensures { items_view result.now ≡ nodes_in (view run.now) }
{
    match value_in(run, Field::Nodes) {
        Some(nodes) => items_in(nodes),
        None => &[],
    }
}

pub(crate) fn items_in(nodes: &Value) -> &[Value]
    ensures { items_view result.now ≡ items_or_none (view nodes.now) }
{
    match nodes.as_array() {
        Some(items) => items.as_slice(),
        None => &[],
    }
}

/// The text of a sheet, with what a run's nodes are called.
fn with_sheet(alloc: Global, run: &Value, sheet: &Value) -> Result<SheetIn, InputFault>
    ensures { Gives result (with_sheet (view run.now) (view sheet.now)) }
{
    let text = text_of(sheet, Field::Sheet, Spot::Run)?;
    let names = names_in(alloc, nodes_in(run))?;
    let text = copied(alloc, text)?;
    Ok(SheetIn {
        sheet: Some(text),
        names,
    })
}

/// The sheet of a run document, and what its nodes are called, or the first fault of these.
pub(crate) fn sheet_of(alloc: Global, run: &Value) -> Result<SheetIn, InputFault>
    ensures { Gives result (sheet_of (view run.now)) }
{
    match value_in(run, Field::Sheet) {
        Some(sheet) => with_sheet(alloc, run, sheet),
        None => Ok(SheetIn {
            sheet: None,
            names: NamesList::new(alloc),
        }),
    }
}

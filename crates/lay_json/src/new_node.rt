//! The node of a form: its declarations and its text.

ghost use Rattle.std.specs.Prelude.{◌≡◌, [], IfOk, option_map};
ghost use Rattle.serde_json.specs.View.{view, members_view};
ghost use Rattle.lay_doc.specs.NewNodes.{IsNodeForm};
ghost use Rattle.lay_json.specs.Fields.{map_read, value_in};
ghost use Rattle.lay_json.specs.NodeForms.{bad_declaration, declaration_of_texts, text_in};
ghost use Rattle.lay_json.specs.NodeForms.{declarations_from, declarations_in, node_with, new_node};

use crate::fault::Field;
use crate::fields::value_in;
use crate::node_form::NodeForm;
use lay_doc::{BadDeclaration, Kind, NewNode};
use lay_style::{Decl, Decls};
use lay_units::{NoMemory, Text, Unit};
use lay_values::{ValueFault, read};
use serde_json::{Map, Value};
use std::alloc::Global;

fn bad_declaration(fault: ValueFault) -> BadDeclaration
    ensures { result ≡ bad_declaration fault }
{
    match fault {
        ValueFault::BadProperty => BadDeclaration::Property,
        _ => BadDeclaration::Value,
    }
}

/// The declaration of a property's name and the text of its value.
pub(crate) fn declaration_of(alloc: Global, name: &str, text: &str) -> Result<Decl, BadDeclaration>
    ensures { result ≡ declaration_of_texts name.now text.now }
{
    match read(alloc, name, text) {
        Ok(decl) => Ok(decl),
        Err(fault) => Err(bad_declaration(fault)),
    }
}

/// A value that is a text, after its form was judged.
fn text_in(value: Option<&Value>) -> &str
    ensures { result.now ≡ text_in (option_map (λ v. view v.now) value.entry) }
{
    let Some(value) = value else {
        return "";
    };
    value.as_str().unwrap_or("")
}

/// The declarations of the members of a style, or the fault of the first that gives none.
fn declarations_in(
    alloc: Global,
    members: &Map<String, Value>,
) -> Result<Result<Decls, BadDeclaration>, NoMemory>
    ensures { IfOk result (λ r. r ≡ declarations_from [] (members_view members.now.entries)) }
{
    let mut decls = Decls::new(alloc);
    for (name, value) in members {
        match declaration_of(alloc, name.as_str(), text_in(Some(value))) {
            Ok(decl) => decls.set(decl)?,
            Err(bad) => return Ok(Err(bad)),
        }
    }
    Ok(Ok(decls))
}

/// The declarations of a node's `style`, after its form was judged.
fn declarations_of(alloc: Global, object: &Value) -> Result<Result<Decls, BadDeclaration>, NoMemory>
    ensures { IfOk result (λ r. r ≡ declarations_in (view object.now)) }
{
    let Some(style) = value_in(object, Field::Style) else {
        return Ok(Ok(Decls::new(alloc)));
    };
    match style.as_object() {
        Some(members) => declarations_in(alloc, members),
        None => Ok(Ok(Decls::new(alloc))),
    }
}

fn element(
    alloc: Global,
    form: &NodeForm,
    colspan: u32,
    rowspan: u32,
    object: &Value,
) -> Result<Result<NewNode, BadDeclaration>, NoMemory>
    requires kind { form.now.kind ≡ Kind.Element colspan rowspan }
    requires form { IsNodeForm form.now.kind [] [] }
    ensures { IfOk result (λ r. r ≡ map_read (node_with form.now []) (declarations_in (view object.now))) }
{
    match declarations_of(alloc, object)? {
        Ok(decls) => Ok(Ok(NewNode::element(alloc, form.id, colspan, rowspan, decls))),
        Err(bad) => Ok(Err(bad)),
    }
}

fn text(alloc: Global, form: &NodeForm, object: &Value) -> Result<NewNode, NoMemory>
    requires { form.now.kind ≡ Kind.Text }
    ensures { IfOk result (λ n. n ≡ node_with form.now (text_in (value_in Field.Text (view object.now))) []) }
{
    let text = String::from_str(alloc, text_in(value_in(object, Field::Text)))?;
    Ok(NewNode::text(alloc, form.id, Text::new(text)))
}

fn replaced(
    alloc: Global,
    form: &NodeForm,
    w: Unit,
    h: Unit,
    object: &Value,
) -> Result<Result<NewNode, BadDeclaration>, NoMemory>
    requires kind { form.now.kind ≡ Kind.Replaced w h }
    requires form { IsNodeForm form.now.kind [] [] }
    ensures { IfOk result (λ r. r ≡ map_read (node_with form.now []) (declarations_in (view object.now))) }
{
    match declarations_of(alloc, object)? {
        Ok(decls) => Ok(Ok(NewNode::replaced(alloc, form.id, w, h, decls))),
        Err(bad) => Ok(Err(bad)),
    }
}

/// The node of a form, or the fault of its first declaration that is none.
pub(crate) fn new_node(
    alloc: Global,
    form: &NodeForm,
    object: &Value,
) -> Result<Result<NewNode, BadDeclaration>, NoMemory>
    requires { IsNodeForm form.now.kind [] [] }
    ensures { IfOk result (λ r. r ≡ new_node form.now (view object.now)) }
{
    match form.kind {
        Kind::Element { colspan, rowspan } => element(alloc, form, colspan, rowspan, object),
        Kind::Text => Ok(Ok(text(alloc, form, object)?)),
        Kind::Replaced { w, h } => replaced(alloc, form, w, h, object),
    }
}

//! What a run document is read as, which the top call doesn't show: its nodes, its face and its commands.

use crate::answer::Answer;
use anyhow::Result;
use lay_doc::{BadDeclaration, Edit, Kind, NewNode, Node, NodeId};
use lay_face::Face;
use lay_history::edits::Cmd;
use lay_json::read_run;
use lay_run::RunDoc;
use lay_style::Decls;
use lay_units::Unit;
use std::alloc::{AllocError, Global};
use std::fmt::Write;

/// The reading of a run document, as lines under the status `Read`; the status `Fault` where it has none.
pub fn reading(alloc: Global, document: &[u8]) -> Result<Answer> {
    let mut text = String::new(alloc);
    let status = match read_run(alloc, document) {
        Ok(run) => {
            add_document(&mut text, &run)?;
            add_face(&mut text, run.face())?;
            add_scripts(&mut text, &run)?;
            "Read"
        }
        Err(_) => "Fault",
    };
    Ok(Answer::new(String::from_str(alloc, status)?, text.into_bytes()))
}

fn add_document(text: &mut String, run: &RunDoc) -> Result<(), AllocError> {
    writeln!(
        text,
        "viewport {} {}",
        run.doc().width(),
        run.doc().height()
    )?;
    text.push_str("listed")?;
    for id in run.listed().as_slice() {
        write!(text, " {}", id.0)?;
    }
    text.push_str("\n")?;
    for node in run.doc().nodes() {
        add_node(text, node)?;
    }
    Ok(())
}

/// The lines of a node: its id, the place of its parent, its depth, its kind, its text and its declarations.
fn add_node(text: &mut String, node: &Node) -> Result<(), AllocError> {
    write!(text, "node {} {} {}", node.id.0, node.parent, node.depth)?;
    add_kind(text, node.kind)?;
    writeln!(text, " \"{}\"", node.text.as_str())?;
    add_declarations(text, &node.decls)
}

fn add_kind(text: &mut String, kind: Kind) -> Result<(), AllocError> {
    match kind {
        Kind::Element { colspan, rowspan } => write!(text, " element {colspan} {rowspan}"),
        Kind::Text => text.push_str(" text"),
        Kind::Replaced { w, h } => write!(text, " replaced {} {}", w.0, h.0),
    }
}

fn add_declarations(text: &mut String, decls: &Decls) -> Result<(), AllocError> {
    for decl in decls.as_slice() {
        writeln!(text, "declared {:?} {:?}", decl.property(), decl.value())?;
    }
    Ok(())
}

/// The advances of a, b and c and the four measures of a line, in thousandths of the font size.
fn add_face(text: &mut String, face: &Face) -> Result<(), AllocError> {
    let size = Unit(1000);
    face.fits_at(size);
    for c in ['a', 'b', 'c'] {
        writeln!(text, "advance {c} {}", face.advance(c, size).0)?;
    }
    writeln!(text, "ascent {}", face.ascent(size).0)?;
    writeln!(text, "descent {}", face.descent(size).0)?;
    writeln!(text, "x-height {}", face.x_height(size).0)?;
    writeln!(text, "normal {}", face.normal_line_height(size).0)
}

/// The commands of each editor.
fn add_scripts(text: &mut String, run: &RunDoc) -> Result<(), AllocError> {
    let scripts = run.scripts();
    writeln!(
        text,
        "{} commands, {} reads",
        scripts.commands(),
        scripts.reads()
    )?;
    for script in scripts.as_slice() {
        writeln!(text, "editor")?;
        for command in script.as_slice() {
            add_command(text, command)?;
        }
    }
    Ok(())
}

fn add_command(text: &mut String, command: &Cmd) -> Result<(), AllocError> {
    match command {
        Cmd::Edits(edits) => add_edits(text, edits.as_slice()),
        Cmd::Latest => text.push_str("latest\n"),
        Cmd::Sync => text.push_str("sync\n"),
    }
}

/// One edit by itself, or each edit of a batch behind a line that says so.
fn add_edits(text: &mut String, edits: &[Edit]) -> Result<(), AllocError> {
    if edits.len() > 1 {
        writeln!(text, "batch {}", edits.len())?;
    }
    for edit in edits {
        add_edit(text, edit)?;
    }
    Ok(())
}

fn add_edit(text: &mut String, edit: &Edit) -> Result<(), AllocError> {
    match edit {
        Edit::SetStyle { node, decl } => {
            writeln!(
                text,
                "set {} {:?} {:?}",
                node.0,
                decl.property(),
                decl.value()
            )
        }
        Edit::ClearStyle { node, property } => writeln!(text, "clear {} {property:?}", node.0),
        Edit::SetText { node, text: new } => writeln!(text, "text {} \"{}\"", node.0, new.as_str()),
        Edit::Insert { parent, index, new } => add_insertion(text, *parent, *index, new),
        Edit::Remove { node } => writeln!(text, "remove {}", node.0),
        Edit::Bad {
            fault: BadDeclaration::Property,
        } => text.push_str("bad property\n"),
        Edit::Bad {
            fault: BadDeclaration::Value,
        } => text.push_str("bad value\n"),
    }
}

fn add_insertion(
    text: &mut String,
    parent: NodeId,
    index: u32,
    new: &NewNode,
) -> Result<(), AllocError> {
    write!(text, "insert {} {index} {}", parent.0, new.id().0)?;
    add_kind(text, new.kind())?;
    writeln!(text, " \"{}\"", new.content().as_str())?;
    add_declarations(text, new.decls())
}

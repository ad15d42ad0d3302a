//! Documents in a short notation: a letter a node, and its children in brackets.
//!
//! `b` block, `i` inline, `k` inline-block, `l` list-item, `t` table, `n` inline-table, `g` row
//! group, `h` header group, `f` footer group, `r` row, `c` cell, `p` caption, `G` column group, `C`
//! column, `x` with `display: none`. Texts are `.` a word, `_` a space, `^` a linefeed, `|` a
//! carriage return, `;` no character. A sign says more of the element behind it: `<` a float, `@`
//! absolute, `?` fixed, `!` hidden overflow, `=` pre, `-` pre-line, `+` a font size of 32 px, `~` a
//! left margin of 10 px, `%` replaced. A number behind the signs says how many such nodes stand
//! there.

use crate::rows::ample;
use anyhow::{Result, bail};
use lay_doc::{Doc, NewNode, NodeId};
use lay_style::Decls;
use lay_units::{Text, Unit};
use lay_values::read;
use std::alloc::Global;

/// A document on the way, with what the signs say of the next node.
#[derive(Drop)]
struct Page {
    doc: Option<Doc>,
    /// The ids of the elements whose brackets are open.
    open: Vec<u32>,
    last: u32,
    decls: Decls,
    replaced: bool,
    count: u32,
}

/// The document that a text is.
pub fn document(alloc: Global, text: &str) -> Result<Doc> {
    let mut page = Page::new(alloc);
    for letter in text.chars() {
        if !page.sign(alloc, letter)? && !page.bracket(letter)? {
            page.nodes(alloc, letter)?;
        }
    }
    let Page { doc, .. } = page;
    match doc {
        Some(doc) => Ok(doc),
        None => bail!("no document"),
    }
}

impl Page {
    fn new(alloc: Global) -> Page {
        Page {
            doc: None,
            open: Vec::new(alloc),
            last: 0,
            decls: Decls::new(alloc),
            replaced: false,
            count: 0,
        }
    }

    /// Reads a sign or a digit, or says that it is none.
    fn sign(&mut self, alloc: Global, letter: char) -> Result<bool> {
        match (letter, letter.to_digit(10)) {
            (_, Some(digit)) => self.count = self.count.saturating_mul(10).saturating_add(digit),
            ('<', _) => self.declare(alloc, "float", "left")?,
            ('@', _) => self.declare(alloc, "position", "absolute")?,
            ('?', _) => self.declare(alloc, "position", "fixed")?,
            ('!', _) => self.declare(alloc, "overflow", "hidden")?,
            ('=', _) => self.declare(alloc, "white-space", "pre")?,
            ('-', _) => self.declare(alloc, "white-space", "pre-line")?,
            ('+', _) => self.declare(alloc, "font-size", "32px")?,
            ('~', _) => self.declare(alloc, "margin-left", "10px")?,
            ('%', _) => self.replaced = true,
            _ => return Ok(false),
        }
        Ok(true)
    }

    /// Reads a bracket, or says that it is none.
    fn bracket(&mut self, letter: char) -> Result<bool> {
        match letter {
            '(' => self.open.push(self.last)?,
            ')' => {
                let _ = self.open.pop();
            }
            _ => return Ok(false),
        }
        Ok(true)
    }

    fn declare(&mut self, alloc: Global, property: &str, value: &str) -> Result<()> {
        match read(alloc, property, value) {
            Ok(decl) => ample(self.decls.set(decl)),
            Err(_) => bail!("{property} takes no {value}"),
        }
    }

    /// Puts the nodes of a letter.
    fn nodes(&mut self, alloc: Global, letter: char) -> Result<()> {
        for _ in 0..self.count.max(1) {
            let node = self.node(alloc, letter)?;
            self.put(alloc, node)?;
        }
        self.decls = Decls::new(alloc);
        self.replaced = false;
        self.count = 0;
        Ok(())
    }

    /// A node of this letter.
    fn node(&mut self, alloc: Global, letter: char) -> Result<NewNode> {
        self.last = self.last.saturating_add(1);
        let id = NodeId(self.last);
        if let Some(text) = text_of(letter) {
            let text = Text::new(String::from_str(alloc, text)?);
            return Ok(NewNode::text(alloc, id, text));
        }
        let Some(display) = display_of(letter) else {
            bail!("no node: {letter}");
        };
        self.declare(alloc, "display", display)?;
        let decls = ample(self.decls.copy(alloc))?;
        if self.replaced {
            Ok(NewNode::replaced(alloc, id, Unit(640), Unit(640), decls))
        } else {
            Ok(NewNode::element(alloc, id, 1, 1, decls))
        }
    }

    /// Puts a node as the last child of the open element, or as the root.
    fn put(&mut self, alloc: Global, node: NewNode) -> Result<()> {
        match (&mut self.doc, self.open.last()) {
            (Some(doc), Some(parent)) => push(doc, NodeId(*parent), node),
            (None, None) => {
                self.doc = Some(root(alloc, node)?);
                Ok(())
            }
            _ => bail!("one root, and all others below it"),
        }
    }
}

/// A document of one root.
fn root(alloc: Global, node: NewNode) -> Result<Doc> {
    match Doc::new(alloc, 800, 600, node) {
        Ok(doc) => Ok(doc),
        Err(_) => bail!("no root"),
    }
}

fn push(doc: &mut Doc, parent: NodeId, node: NewNode) -> Result<()> {
    if doc.check_last(parent, &node).is_some() {
        bail!("no place for a node");
    }
    ample(doc.push_last(parent, node))
}

fn display_of(letter: char) -> Option<&'static str> {
    let display = match letter {
        'b' => "block",
        'i' => "inline",
        'k' => "inline-block",
        'l' => "list-item",
        't' => "table",
        'n' => "inline-table",
        'g' => "table-row-group",
        'h' => "table-header-group",
        'f' => "table-footer-group",
        'r' => "table-row",
        'c' => "table-cell",
        'p' => "table-caption",
        'G' => "table-column-group",
        'C' => "table-column",
        'x' => "none",
        _ => return None,
    };
    Some(display)
}

fn text_of(letter: char) -> Option<&'static str> {
    let text = match letter {
        '.' => "word",
        '_' => " ",
        '^' => "\n",
        '|' => "\r",
        ';' => "",
        _ => return None,
    };
    Some(text)
}

//! The trees of a part as a list of boxes.

ghost use Rattle.std.specs.Prelude.{◌≡◌, ◌++◌, ◌∷◌, [], OnOk, IfOk, IfSome, length};
ghost use Rattle.lay_boxgen.specs.Boxes.{trees_of};
ghost use Rattle.lay_boxgen.specs.Listing.{text_at, box_style, kind_of, style_of, style_below, box_node, listed, all_listed, listed_part};
ghost use Rattle.lay_boxgen.specs.Parts.{put, all_put, put_list, nothing};

use crate::anonymous_style::anonymous_style;
use crate::facts::{Facts, Form};
use crate::forms::is_anchor;
use crate::node_trees::is_closed;
use crate::subtree::Subtree;
use lay_box_tree::{BoxKind, BoxNode};
use lay_doc::Node;
use lay_style::Style;
use lay_units::{NoMemory, Text};
use std::alloc::Global;

/// A document's nodes and their styles, to look up what boxes are of. A box names the place of a node that
/// is there; where it named none, the answer would be that there is no memory for it.
#[derive(Clone, Copy)]
pub struct Sources<'a> {
    pub nodes: &'a [Node],
    pub styles: &'a [Style],
}

impl<'a> Sources<'a> {
    /// An equal text of the node at a place.
    fn text_at(self, alloc: Global, place: usize) -> Result<Text, NoMemory>
        ensures { IfOk result (λ t. t ≡ text_at self.entry.nodes.now place) }
    {
        match self.nodes.get(place) {
            None => Err(NoMemory),
            Some(node) => node.text.copy(alloc),
        }
    }

    /// The style of a box.
    fn style_of(self, facts: Facts) -> Option<BoxStyle<'a>>
        ensures { IfSome result (λ s. box_style s.anonymous s.style.now ≡ style_of self.entry.styles.now facts) }
    {
        Some(BoxStyle {
            style: self.styles.get(facts.place)?,
            anonymous: facts.anonymous,
        })
    }

    /// The style of a box below another, which an anchor has too.
    fn style_below(self, above: Facts, facts: Facts) -> Option<BoxStyle<'a>>
        ensures { IfSome result (λ s. box_style s.anonymous s.style.now ≡ style_below self.entry.styles.now above facts) }
    {
        if is_anchor(facts.form) {
            self.style_of(above)
        } else {
            self.style_of(facts)
        }
    }
}

/// The style of a box, which is that of its node or of an anonymous box there. It is large, and copied once, into the
/// box.
#[derive(Clone, Copy)]
struct BoxStyle<'a> {
    style: &'a Style,
    anonymous: bool,
}

/// The kind of a box. That of a text has the text of its node.
fn kind_of(alloc: Global, sources: Sources<'_>, facts: Facts) -> Result<BoxKind, NoMemory>
    ensures { IfOk result (λ k. k ≡ kind_of (text_at sources.entry.nodes.now facts.place) facts.form) }
{
    Ok(match facts.form {
        Form::Block => BoxKind::Block,
        Form::InlineBlock => BoxKind::InlineBlock,
        Form::Inline => BoxKind::Inline,
        Form::Text(_) => BoxKind::Text(sources.text_at(alloc, facts.place)?),
        Form::Replaced { w, h, inline } => BoxKind::Replaced { w, h, inline },
        Form::Wrapper => BoxKind::Wrapper,
        Form::InlineWrapper => BoxKind::InlineWrapper,
        Form::Table => BoxKind::Table,
        Form::Caption => BoxKind::Caption,
        Form::RowGroup => BoxKind::RowGroup,
        Form::HeaderGroup => BoxKind::HeaderGroup,
        Form::FooterGroup => BoxKind::FooterGroup,
        Form::Row => BoxKind::Row,
        Form::ColumnGroup { span } => BoxKind::ColumnGroup { span },
        Form::Column { span } => BoxKind::Column { span },
        Form::Cell { colspan, rowspan } => BoxKind::Cell { colspan, rowspan },
        Form::Anchor => BoxKind::Anchor,
    })
}

/// A box that has others below it, and its place in the list.
#[derive(Clone, Copy)]
struct ParentBox {
    facts: Facts,
    place: u32,
}

/// A place in the list, where so many boxes can be numbered.
fn number(place: usize) -> Result<u32, NoMemory>
    ensures { IfOk result (λ n. n ≡ place) }
{
    match u32::try_from(place) {
        Ok(number) => Ok(number),
        Err(_) => Err(NoMemory),
    }
}

/// Puts a box below another at the end of `out`.
fn push_box(
    alloc: Global,
    sources: Sources<'_>,
    parent: ParentBox,
    facts: Facts,
    out: &mut Vec<BoxNode>,
) -> Result<(), NoMemory>
    ensures { OnOk result
        (out.new.items ≡ out.old.items ++ box_node sources.entry.nodes.now sources.entry.styles.now parent.facts parent.place facts ∷ []) }
{
    let Some(style) = sources.style_below(parent.facts, facts) else {
        return Err(NoMemory);
    };
    let mut node = BoxNode {
        node: facts.node,
        parent: parent.place,
        kind: kind_of(alloc, sources, facts)?,
        flow: facts.flow,
        anonymous: facts.anonymous,
        inner: facts.inner,
        style: *style.style,
    };
    inherit_alone(style.anonymous, &mut node);
    out.push(node)?;
    Ok(())
}

/// Makes the style of a box that of an anonymous one, where it is to be.
fn inherit_alone(anonymous: bool, node: &mut BoxNode)
    ensures { node.new ≡ record node.old { style = box_style anonymous node.old.style } }
{
    if anonymous {
        node.style = anonymous_style(&node.style);
    }
}

/// Puts the boxes of a tree below a box at the end of `out`.
#[cycle(list)]
fn list(
    alloc: Global,
    sources: Sources<'_>,
    parent: ParentBox,
    tree: &Subtree,
    out: &mut Vec<BoxNode>,
) -> Result<(), NoMemory>
    ensures { OnOk result
        (out.new.items
        ≡ out.old.items
        ++ listed sources.entry.nodes.now sources.entry.styles.now parent.facts parent.place
        (length out.old.items) (put nothing tree.now)) }
{
    let facts = tree.facts;
    let place = number(out.len())?;
    push_box(alloc, sources, parent, facts, out)?;
    if is_closed(facts) {
        return Ok(());
    }
    let below = ParentBox { facts, place };
    list_all(alloc, sources, below, tree.children.as_slice(), out)
}

/// Puts the boxes of some trees there.
#[cycle(list)]
fn list_all(
    alloc: Global,
    sources: Sources<'_>,
    parent: ParentBox,
    trees: &[Subtree],
    out: &mut Vec<BoxNode>,
) -> Result<(), NoMemory>
    ensures { OnOk result
        (out.new.items
        ≡ out.old.items
        ++ all_listed sources.entry.nodes.now sources.entry.styles.now parent.facts parent.place
        (length out.old.items) (all_put nothing (trees_of trees.now))) }
{
    for tree in trees {
        list(alloc, sources, parent, tree, out)?;
    }
    Ok(())
}

/// How many boxes a tree has that are not inside those of inner contexts.
#[cycle(count)]
fn count(tree: &Subtree) -> usize {
    if is_closed(tree.facts) {
        return 1;
    }
    count_all(tree.children.as_slice()).saturating_add(1)
}

/// The same of some trees.
#[cycle(count)]
fn count_all(trees: &[Subtree]) -> usize {
    let mut all: usize = 0;
    for tree in trees {
        all = all.saturating_add(count(tree));
    }
    all
}

/// The boxes of a context, of the trees that are generated in it. The first counts as its own parent box.
pub fn listed_part(
    alloc: Global,
    sources: Sources<'_>,
    trees: &[Subtree],
) -> Result<Vec<BoxNode>, NoMemory>
    ensures { IfOk result (λ v. v.items ≡ listed_part sources.entry.nodes.now sources.entry.styles.now (put_list nothing trees.now)) }
{
    let Some(first) = trees.first() else {
        return Ok(Vec::new(alloc));
    };
    let facts = first.facts();
    let mut out = Vec::with_capacity(alloc, count_all(trees))?;
    let own = ParentBox { facts, place: 0 };
    list_all(alloc, sources, own, trees, &mut out)?;
    Ok(out)
}

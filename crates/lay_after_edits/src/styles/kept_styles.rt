//! The computed styles of a document after an edit.

ghost use Rattle.std.specs.Prelude.{◌≡◌, ◌++◌, ◌+◌, ◌-◌, None, IfOk, OnOk};
ghost use Rattle.lay_style.specs.ComputedStyle.{HasStyles};
ghost use Rattle.lay_doc.specs.Document.{declarations_of, parents_of};
ghost use Rattle.lay_doc.specs.Edits.{after, fault};
ghost use Rattle.lay_doc.specs.Tree.{IsTree};
ghost use Rattle.lay_after_edits.specs.Styles.KeptStyles.{KeepsStyles};

use crate::styles::stretch::{Stretch, stretch_of};
use lay_doc::{Doc, Edit, Node};
use lay_inherit::push_style;
use lay_style::{Computed, Style};
use lay_units::NoMemory;
use std::alloc::Global;

/// The computed styles of a document's nodes after an edit, where those before it are known.
pub fn restyled(
    alloc: Global,
    doc: &Doc,
    was: &Computed,
    edit: &Edit,
    later: &Doc,
) -> Result<Computed, NoMemory>
    requires accepted { fault doc.now edit.now ≡ None }
    requires styles { HasStyles (parents_of doc.now.nodes) (declarations_of doc.now.nodes) was.now }
    requires later { later.now ≡ after doc.now edit.now }
    ensures { IfOk result (HasStyles (parents_of later.now.nodes) (declarations_of later.now.nodes)) }
{
    let _ = doc.nodes();
    let stretch = stretch_of(doc, later, edit);
    restyled_stretch(alloc, later.nodes(), was, stretch)
}

/// The styles of these nodes: made anew for the stretch, and taken over for the others.
fn restyled_stretch(
    alloc: Global,
    nodes: &[Node],
    was: &Computed,
    stretch: Stretch,
) -> Result<Computed, NoMemory>
    requires tree { IsTree (parents_of nodes.now) }
    requires kept { KeepsStyles (parents_of nodes.now) (declarations_of nodes.now) was.now stretch }
    ensures { IfOk result (HasStyles (parents_of nodes.now) (declarations_of nodes.now)) }
{
    let kept = was.as_slice();
    let mut styles = Vec::with_capacity(alloc, nodes.len())?;
    push_all(&mut styles, &kept[..stretch.from])?;
    for k in stretch.from..stretch.to {
        push_style(nodes, &mut styles, k)?;
    }
    push_all(&mut styles, &kept[stretch.until..])?;
    Ok(Computed::new(styles))
}

/// Adds these styles.
fn push_all(styles: &mut Vec<Style>, more: &[Style]) -> Result<(), NoMemory>
    ensures { OnOk result (styles.new.items ≡ styles.old.items ++ more.now) }
{
    styles.extend_from_slice(more)?;
    Ok(())
}

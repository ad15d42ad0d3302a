//! The computed styles of a document after an edit of declarations, written over a list of those before it.

ghost use Rattle.std.specs.Prelude.{◌≡◌, ◌<◌, None, length, slice_set};
ghost use Rattle.lay_style.specs.ComputedStyle.{HasStyles, computed_style, declarations_at, parent_style, style_at};
ghost use Rattle.lay_doc.specs.Document.{declarations_of, parents_of};
ghost use Rattle.lay_doc.specs.Edits.{after, fault};
ghost use Rattle.lay_doc.specs.Tree.{IsTree};
ghost use Rattle.lay_after_edits.specs.Contexts.Anchored.{IsStyleEdit};
ghost use Rattle.lay_after_edits.specs.Styles.KeptStyles.{KeepsStyles};
ghost use Rattle.lay_after_edits.specs.Styles.WrittenOver.{AreSameOutside};

use crate::styles::stretch::{Stretch, stretch_of};
use lay_doc::{Doc, Edit, Node};
use lay_inherit::style_of;
use lay_style::{Style, style_at};

/// Nodes beside each other, from the place `from` up to `until`.
#[derive(Clone, Copy)]
pub struct Part {
    pub from: usize,
    pub until: usize,
}

/// Makes the styles of a later document of those before an edit of declarations, which are written over. Answers which nodes have
/// other ones: that which the edit changes, and those below it.
pub fn write_over(doc: &Doc, styles: &mut Vec<Style>, edit: &Edit, later: &Doc) -> Part
    requires accepted { fault doc.now edit.now ≡ None }
    requires declares { IsStyleEdit edit.now }
    requires styles { HasStyles (parents_of doc.now.nodes) (declarations_of doc.now.nodes) styles.old.items }
    requires later { later.now ≡ after doc.now edit.now }
    ensures styles { HasStyles (parents_of later.now.nodes) (declarations_of later.now.nodes) styles.new.items }
    ensures same { AreSameOutside styles.old.items styles.new.items result }
{
    let _ = doc.nodes();
    let stretch = stretch_of(doc, later, edit);
    write_stretch(later.nodes(), styles, stretch);
    Part {
        from: stretch.from,
        until: stretch.until,
    }
}

/// Makes the styles of a stretch anew.
fn write_stretch(nodes: &[Node], styles: &mut Vec<Style>, stretch: Stretch)
    requires tree { IsTree (parents_of nodes.now) }
    requires kept { KeepsStyles (parents_of nodes.now) (declarations_of nodes.now) styles.old.items stretch }
    requires stays { stretch.to ≡ stretch.until }
    ensures styles { HasStyles (parents_of nodes.now) (declarations_of nodes.now) styles.new.items }
    ensures same { AreSameOutside styles.old.items styles.new.items (record { from = stretch.from; until = stretch.until }) }
{
    for k in stretch.from..stretch.until {
        write_style(nodes, styles, k);
    }
}

/// Makes the style of the node at k anew, where those of the nodes before it are known.
fn write_style(nodes: &[Node], styles: &mut Vec<Style>, k: usize)
    requires tree { IsTree (parents_of nodes.now) }
    requires within { k < length nodes.now }
    requires there { k < length styles.old.items }
    ensures { styles.new.items ≡ slice_set styles.old.items k
        (computed_style (parent_style (parents_of nodes.now) styles.old.items k) (declarations_at (declarations_of nodes.now) k)) }
{
    let style = style_of(nodes, styles, k);
    styles[k] = style;
}

/// Makes a list of styles equal to a later one, which has other styles in this part alone.
pub fn follow_part(styles: &mut Vec<Style>, later: &[Style], part: Part)
    requires { AreSameOutside styles.old.items later.now part }
    ensures { styles.new.items ≡ later.now }
{
    for k in part.from..part.until {
        follow_style(styles, later, k);
    }
}

/// Takes over the style at k of a later list.
fn follow_style(styles: &mut Vec<Style>, later: &[Style], k: usize)
    requires there { k < length styles.old.items }
    requires later { k < length later.now }
    ensures { styles.new.items ≡ slice_set styles.old.items k (style_at later.now k) }
{
    styles[k] = *style_at(later, k);
}

//! Whether nodes differ in nothing by which boxes are generated.

ghost use Rattle.std.specs.Prelude.{◌≡◌, ◌<◌, true, IsTrue, length};
ghost use Rattle.lay_after_edits.specs.Contexts.Changed.{AreAlikeTo, IsAlikeNode};
ghost use Rattle.lay_after_edits.specs.Contexts.Links.{is_made};
ghost use Rattle.lay_after_edits.specs.Contexts.Reach.{AreTextsAlike};

use crate::contexts::alike::is_alike;
use crate::contexts::doc_pair::DocPair;
use crate::contexts::texts::is_seen;
use lay_style::style_at;
use lay_units::Text;

fn same_text(a: &Text, b: &Text) -> bool
    ensures { IsTrue result → a.now ≡ b.now }
{
    a.as_str().as_bytes() == b.as_str().as_bytes()
}

/// Whether two texts are the same, or a box is generated of both.
fn are_texts_alike(a: &Text, b: &Text) -> bool
    ensures { IsTrue result → AreTextsAlike a.now b.now }
{
    same_text(a, b) || (is_seen(a.as_str()) && is_seen(b.as_str()))
}

/// Whether the nodes at k have alike styles and texts.
fn is_alike_node(of: &DocPair<'_>, k: usize) -> bool
    requires styles { length of.now.was.now ≡ length of.now.doc.now.nodes }
    requires later_styles { length of.now.styles.now ≡ length of.now.later.now.nodes }
    requires here { k < length of.now.doc.now.nodes }
    requires there { k < length of.now.later.now.nodes }
    ensures { IsTrue result → IsAlikeNode of.now.doc.now.nodes of.now.later.now.nodes of.now.was.now of.now.styles.now k }
{
    is_alike(of.was.at(k), of.styles.at(k))
        && are_texts_alike(&of.doc.nodes()[k].text, &of.later.nodes()[k].text)
}

/// Whether the nodes at k have, if they have a flag.
fn stays_alike(of: &DocPair<'_>, made: &[bool], k: usize) -> bool
    requires styles { length of.now.was.now ≡ length of.now.doc.now.nodes }
    requires later_styles { length of.now.styles.now ≡ length of.now.later.now.nodes }
    requires flags { k < length made.now }
    requires here { k < length of.now.doc.now.nodes }
    requires there { k < length of.now.later.now.nodes }
    ensures { IsTrue result → is_made made.now k ≡ true
        → IsAlikeNode of.now.doc.now.nodes of.now.later.now.nodes of.now.was.now of.now.styles.now k }
{
    !made[k] || is_alike_node(of, k)
}

/// Whether all nodes with a flag have.
pub(crate) fn are_alike_nodes(of: &DocPair<'_>, made: &[bool]) -> bool
    requires styles { length of.now.was.now ≡ length of.now.doc.now.nodes }
    requires later_styles { length of.now.styles.now ≡ length of.now.later.now.nodes }
    requires count { length made.now ≡ length of.now.doc.now.nodes }
    requires as_many { length of.now.later.now.nodes ≡ length of.now.doc.now.nodes }
    ensures { IsTrue result
        → AreAlikeTo of.now.doc.now.nodes of.now.later.now.nodes of.now.was.now of.now.styles.now made.now (length of.now.doc.now.nodes) }
{
    for k in 0..made.len() {
        if !stays_alike(of, made, k) {
            return false;
        }
    }
    true
}

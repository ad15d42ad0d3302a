//! The piece that is seen at a point.

ghost use Rattle.std.specs.Prelude.{◌≡◌, length, IfOk};
ghost use Rattle.lay_doc.specs.Document.{IsDocument};
ghost use Rattle.lay_frag.specs.Pieces.{frags_of};
ghost use Rattle.lay_hit.specs.Hits.{hit_of};
ghost use Rattle.lay_hit.specs.Questions.{AreNoted};
ghost use Rattle.lay_hit.specs.Waiting.{AreWaiting};

use crate::fronts::{front_at, fronts};
use crate::node_pieces::NodePieces;
use crate::noted::noted;
use crate::point::Point;
use crate::question::Question;
use crate::waiting::Waiting;
use lay_doc::Doc;
use lay_frag::{Frag, Tree};
use lay_style::Computed;
use lay_units::NoMemory;
use std::alloc::Global;

/// The last piece that is painted of those that hold the point, in page coordinates; None exactly where none of the painted
/// pieces holds it. `style` has the computed styles of the document's nodes.
pub fn hit(
    alloc: Global,
    doc: &Doc,
    style: &Computed,
    tree: &Tree,
    at: Point,
) -> Result<Option<Frag>, NoMemory>
    requires { length style.now ≡ length doc.now.nodes }
    ensures { IfOk result (λ f. f ≡ hit_of doc.now style.now tree.now at.x.0 at.y.0) }
{
    let q = Question {
        doc,
        styles: style.as_slice(),
        tree,
        at,
    };
    let noted = noted(alloc, &q)?;
    let fronts = fronts(alloc, &q, &noted)?;
    Ok(frontmost(&q, &noted, &fronts))
}

/// From the root on, the frontmost node that has a piece at the point.
fn frontmost(q: &Question<'_>, noted: &NodePieces, fronts: &[Waiting]) -> Option<Frag>
    requires styles { length q.now.styles.now ≡ length q.now.doc.now.nodes }
    requires valid { IsDocument q.now.doc.now }
    requires noted { AreNoted q.now (frags_of q.now.tree.now) noted.now }
    requires fronts { AreWaiting q.now fronts.now 1 }
    ensures { result ≡ hit_of q.now.doc.now q.now.styles.now q.now.tree.now q.now.at.x.0 q.now.at.y.0 }
{
    let mut at = 0;
    let mut next = front_at(q, fronts, at);
    while next != 0 {
        at = next;
        next = front_at(q, fronts, at);
    }
    noted.get(at)
}

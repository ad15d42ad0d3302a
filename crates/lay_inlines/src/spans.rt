//! From where to where boxes and texts reach on a line, and how far they are raised. They are found from the line's end
//! to its start.

ghost use Rattle.std.specs.Prelude.{◌≡◌, ◌||◌, ◌&&◌, ◌++◌, ◌∷◌, [], All, drop, reverse, OnOk};
ghost use Rattle.lay_inlines.specs.Bounds.{IsPlace, AreaWithin, RaiseWithin, StrokeWithin, SpanWithin};
ghost use Rattle.lay_inlines.specs.Behind.{BehindWithin, Within};
ghost use Rattle.lay_inlines.specs.Spans.{area_at, edge_at, edges_before, ended_right_edges, is_text, with_text_span};
ghost use Rattle.lay_inlines.specs.Spans.{with_shown, span_of, inline_span, atomic_span, spans_of, open_spans};
ghost use Rattle.lay_inlines.specs.Strokes.{is_content, stays, shown_of, begin_of, end_of, has_content};

use crate::arithmetic::{minus, plus};
use crate::line_piece::LinePieceKind;
use crate::raises::raise_at;
use crate::slices::from_end;
use crate::stroke_list::StrokeList;
use crate::strokes::{Shown, Stroke, is_content, place, shown_of};
use lay_lines::content::InlineArea;
use lay_units::{NoMemory, Unit};
use std::alloc::Global;

/// From where to where a box or a text reaches on its line, in places of the pen, and how far it is raised.
#[derive(Clone, Copy)]
pub struct Span {
    pub kind: LinePieceKind,
    pub node: u32,
    pub raise: Unit,
    pub from: Unit,
    pub to: Unit,
}

/// Where the content of a line begins and ends.
#[derive(Clone, Copy)]
pub struct Ends {
    pub start: Unit,
    pub end: Unit,
}

/// How far something is raised, and where it begins and ends, in places of the pen.
#[derive(Clone, Copy)]
pub struct Standing {
    pub raise: Unit,
    pub from: Unit,
    pub to: Unit,
}

/// The inline boxes that are open where a line begins, outermost first, by number, and how far they are raised.
#[derive(Clone, Copy)]
pub struct OpenBoxes<'a> {
    pub nodes: &'a [u32],
    pub raises: &'a [Unit],
}

/// What stands behind some part of a line, the last of it first: the boxes and texts that begin there, the right
/// edges of the boxes that end there only, and whether there is content.
#[derive(Drop)]
pub(crate) struct Behind {
    pub(crate) spans: Vec<Span>,
    edges: Vec<Unit>,
    followed: bool,
}

impl Behind {
    /// Nothing.
    pub(crate) fn new(alloc: Global) -> Behind
        ensures { result.spans.items ≡ [] }
    {
        Behind {
            spans: Vec::new(alloc),
            edges: Vec::new(alloc),
            followed: false,
        }
    }

    /// The boxes and texts of a line with these strokes, on which these inline boxes are open from its start; the
    /// last one first.
    pub(crate) fn fill(
        &mut self,
        areas: &[InlineArea],
        strokes: &StrokeList,
        open_boxes: &OpenBoxes,
        ends: Ends,
    ) -> Result<(), NoMemory>
        requires areas { All AreaWithin areas.now }
        requires raises { All RaiseWithin open_boxes.now.raises.now }
        requires strokes { All StrokeWithin strokes.now }
        requires start { IsPlace ends.start.0 }
        requires end { IsPlace ends.end.0 }
        ensures spans { OnOk result (reverse self.new.spans.items
            ≡ open_spans ends.start.0 ends.end.0 (ended_right_edges areas.now strokes.now) open_boxes.now.raises.now
            open_boxes.now.nodes.now ++ spans_of areas.now ends.end.0 strokes.now) }
        ensures within { OnOk result (All SpanWithin self.new.spans.items) }
    {
        self.spans.clear();
        self.edges.clear();
        self.followed = false;
        self.put_all(areas, strokes, ends.end)?;
        self.put_open(open_boxes, ends)
    }

    fn put_all(
        &mut self,
        areas: &[InlineArea],
        strokes: &StrokeList,
        end: Unit,
    ) -> Result<(), NoMemory>
        requires spans { self.old.spans.items ≡ [] }
        requires edges { self.old.edges.items ≡ [] }
        requires followed { self.old.followed ≡ has_content [] }
        requires within { BehindWithin self.old }
        requires areas { All AreaWithin areas.now }
        requires strokes { All StrokeWithin strokes.now }
        requires end { IsPlace end.0 }
        ensures spans { OnOk result (reverse self.new.spans.items ≡ spans_of areas.now end.0 strokes.now) }
        ensures edges { OnOk result (reverse self.new.edges.items ≡ ended_right_edges areas.now strokes.now) }
        ensures within { OnOk result (BehindWithin self.new) }
    {
        for done in 0..strokes.len() {
            self.put(areas, strokes.from_end(done), end)?;
        }
        Ok(())
    }

    /// Puts a stroke before what stands behind it.
    fn put(&mut self, areas: &[InlineArea], stroke: &Stroke, end: Unit) -> Result<(), NoMemory>
        requires within { BehindWithin self.old }
        requires areas { All AreaWithin areas.now }
        requires stroke { StrokeWithin stroke.now }
        requires end { IsPlace end.0 }
        ensures spans { OnOk result (reverse self.new.spans.items
            ≡ with_shown areas.now
            (shown_of stroke.now.part (stays stroke.now self.old.followed)) stroke.now.raise
            (begin_of stroke.now self.old.followed)
            (end_of stroke.now self.old.followed) (edge_at (reverse self.old.edges.items) 0 end.0)
            (reverse self.old.spans.items)) }
        ensures edges { OnOk result (reverse self.new.edges.items
            ≡ edges_before areas.now
            (shown_of stroke.now.part (stays stroke.now self.old.followed))
            (end_of stroke.now self.old.followed) (reverse self.old.edges.items)) }
        ensures followed { OnOk result (self.new.followed
            ≡ (is_content stroke.now.part || self.old.followed)) }
        ensures within { OnOk result (BehindWithin self.new) }
    {
        let has_content = is_content(&stroke.part) || self.followed;
        let shown = shown_of(&stroke.part, stroke.before.started && self.followed);
        let standing = Standing {
            raise: stroke.raise,
            from: place(stroke.before, has_content),
            to: place(stroke.after, self.followed),
        };
        self.put_shown(areas, shown, standing, end)?;
        self.followed = has_content;
        Ok(())
    }

    /// Puts what a part shows, which stands there.
    fn put_shown(
        &mut self,
        areas: &[InlineArea],
        shown: Shown,
        standing: Standing,
        end: Unit,
    ) -> Result<(), NoMemory>
        requires within { BehindWithin self.old }
        requires areas { All AreaWithin areas.now }
        requires raise { RaiseWithin standing.raise }
        requires from { IsPlace standing.from.0 }
        requires to { IsPlace standing.to.0 }
        requires end { IsPlace end.0 }
        ensures spans { OnOk result (reverse self.new.spans.items
            ≡ with_shown areas.now shown standing.raise standing.from.0 standing.to.0
            (edge_at (reverse self.old.edges.items) 0 end.0) (reverse self.old.spans.items)) }
        ensures edges { OnOk result (reverse self.new.edges.items
            ≡ edges_before areas.now shown standing.to.0 (reverse self.old.edges.items)) }
        ensures followed { self.new.followed ≡ self.old.followed }
        ensures within { OnOk result (BehindWithin self.new) }
    {
        match shown {
            Shown::OfText(text) => self.put_text(text, standing),
            Shown::OfAtomic(node) => self.put_atomic(areas, node, standing),
            Shown::Opens(node) => self.put_start(areas, node, standing, end),
            Shown::Closes(node) => self.put_end(areas, node, standing.to),
            Shown::Nothing => Ok(()),
        }
    }

    /// Puts a bit of a text: with what is left of the text on its line it makes one.
    fn put_text(&mut self, text: u32, standing: Standing) -> Result<(), NoMemory>
        requires within { BehindWithin self.old }
        requires raise { RaiseWithin standing.raise }
        requires from { IsPlace standing.from.0 }
        requires to { IsPlace standing.to.0 }
        ensures spans { OnOk result (reverse self.new.spans.items
            ≡ with_text_span text standing.raise standing.from.0 standing.to.0 (reverse self.old.spans.items)) }
        ensures edges { self.new.edges.items ≡ self.old.edges.items }
        ensures followed { self.new.followed ≡ self.old.followed }
        ensures within { OnOk result (BehindWithin self.new) }
    {
        let mut to = standing.to;
        if let Some(last) = self.spans.pop() {
            if is_text(last.kind) && last.node == text {
                to = last.to;
            } else {
                self.spans.push(last)?;
            }
        }
        self.put_span(Span {
            kind: LinePieceKind::Text,
            node: text,
            raise: standing.raise,
            from: standing.from,
            to,
        })
    }

    /// Puts an atomic box.
    fn put_atomic(
        &mut self,
        areas: &[InlineArea],
        node: u32,
        standing: Standing,
    ) -> Result<(), NoMemory>
        requires within { BehindWithin self.old }
        requires areas { All AreaWithin areas.now }
        requires raise { RaiseWithin standing.raise }
        requires from { IsPlace standing.from.0 }
        requires to { IsPlace standing.to.0 }
        ensures spans { OnOk result (reverse self.new.spans.items
            ≡ atomic_span areas.now node standing.raise standing.from.0 standing.to.0
            ∷ reverse self.old.spans.items) }
        ensures edges { self.new.edges.items ≡ self.old.edges.items }
        ensures followed { self.new.followed ≡ self.old.followed }
        ensures within { OnOk result (BehindWithin self.new) }
    {
        let area = area_at(areas, node);
        self.put_span(Span {
            kind: LinePieceKind::Atomic,
            node,
            raise: standing.raise,
            from: plus(standing.from, area.margin_left),
            to: minus(standing.to, area.margin_right),
        })
    }

    /// Puts an inline box that begins here.
    fn put_start(
        &mut self,
        areas: &[InlineArea],
        node: u32,
        standing: Standing,
        end: Unit,
    ) -> Result<(), NoMemory>
        requires within { BehindWithin self.old }
        requires areas { All AreaWithin areas.now }
        requires raise { RaiseWithin standing.raise }
        requires from { IsPlace standing.from.0 }
        requires end { IsPlace end.0 }
        ensures spans { OnOk result (reverse self.new.spans.items
            ≡ inline_span areas.now node standing.raise standing.from.0 (edge_at (reverse self.old.edges.items) 0 end.0)
            ∷ reverse self.old.spans.items) }
        ensures edges { OnOk result (reverse self.new.edges.items
            ≡ drop 1 (reverse self.old.edges.items)) }
        ensures followed { self.new.followed ≡ self.old.followed }
        ensures within { OnOk result (BehindWithin self.new) }
    {
        let to = self.next_edge(end);
        let margin = area_at(areas, node).margin_left;
        self.put_span(Span {
            kind: LinePieceKind::Inline,
            node,
            raise: standing.raise,
            from: plus(standing.from, margin),
            to,
        })
    }

    /// Puts the end of an inline box.
    fn put_end(&mut self, areas: &[InlineArea], node: u32, to: Unit) -> Result<(), NoMemory>
        requires within { BehindWithin self.old }
        requires areas { All AreaWithin areas.now }
        requires to { IsPlace to.0 }
        ensures spans { self.new.spans.items ≡ self.old.spans.items }
        ensures edges { OnOk result (reverse self.new.edges.items
            ≡ edges_before areas.now (Shown.Closes node) to.0 (reverse self.old.edges.items)) }
        ensures followed { self.new.followed ≡ self.old.followed }
        ensures within { OnOk result (BehindWithin self.new) }
    {
        let margin = area_at(areas, node).margin_right;
        self.edges.push(minus(to, margin))?;
        Ok(())
    }

    /// Puts the inline boxes that are open where the line's content begins.
    fn put_open(&mut self, open_boxes: &OpenBoxes, ends: Ends) -> Result<(), NoMemory>
        requires within { BehindWithin self.old }
        requires raises { All RaiseWithin open_boxes.now.raises.now }
        requires start { IsPlace ends.start.0 }
        requires end { IsPlace ends.end.0 }
        ensures spans { OnOk result (reverse self.new.spans.items
            ≡ open_spans ends.start.0 ends.end.0 (reverse self.old.edges.items) open_boxes.now.raises.now
            open_boxes.now.nodes.now ++ reverse self.old.spans.items) }
        ensures within { OnOk result (BehindWithin self.new) }
    {
        let nodes = open_boxes.nodes;
        for done in 0..nodes.len() {
            let raise = raise_at(open_boxes.raises, nodes.len() - 1 - done);
            self.put_one_open(*from_end(nodes, done), raise, ends)?;
        }
        Ok(())
    }

    /// Puts the innermost of these that is left.
    fn put_one_open(&mut self, node: u32, raise: Unit, ends: Ends) -> Result<(), NoMemory>
        requires within { BehindWithin self.old }
        requires raise { RaiseWithin raise }
        requires start { IsPlace ends.start.0 }
        requires end { IsPlace ends.end.0 }
        ensures spans { OnOk result (reverse self.new.spans.items
            ≡ span_of LinePieceKind.Inline node raise ends.start.0
            (edge_at (reverse self.old.edges.items) 0 ends.end.0)
            ∷ reverse self.old.spans.items) }
        ensures edges { OnOk result (reverse self.new.edges.items
            ≡ drop 1 (reverse self.old.edges.items)) }
        ensures within { OnOk result (BehindWithin self.new) }
    {
        let to = self.next_edge(ends.end);
        self.put_span(Span {
            kind: LinePieceKind::Inline,
            node,
            raise,
            from: ends.start,
            to,
        })
    }

    fn put_span(&mut self, span: Span) -> Result<(), NoMemory>
        requires within { BehindWithin self.old }
        requires span { SpanWithin span }
        ensures spans { OnOk result (reverse self.new.spans.items ≡ span ∷ reverse self.old.spans.items) }
        ensures edges { self.new.edges.items ≡ self.old.edges.items }
        ensures followed { self.new.followed ≡ self.old.followed }
        ensures within { OnOk result (BehindWithin self.new) }
    {
        self.spans.push(span)?;
        Ok(())
    }

    /// Where the innermost box ends that is open here, on a line whose content ends at `end`.
    fn next_edge(&mut self, end: Unit) -> Unit
        requires within { BehindWithin self.old }
        requires end { IsPlace end.0 }
        ensures edge { result.0 ≡ edge_at (reverse self.old.edges.items) 0 end.0 }
        ensures edges { reverse self.new.edges.items ≡ drop 1 (reverse self.old.edges.items) }
        ensures spans { self.new.spans.items ≡ self.old.spans.items }
        ensures followed { self.new.followed ≡ self.old.followed }
        ensures within { BehindWithin self.new }
        ensures edge_within { Within result }
    {
        match self.edges.pop() {
            Some(edge) => edge,
            None => end,
        }
    }
}

fn is_text(kind: LinePieceKind) -> bool
    ensures { result ≡ is_text kind }
{
    match kind {
        LinePieceKind::Line | LinePieceKind::Inline | LinePieceKind::Atomic => false,
        LinePieceKind::Text => true,
    }
}

/// The area of the box of this number, or none.
pub fn area_at(areas: &[InlineArea], node: u32) -> InlineArea
    requires { All AreaWithin areas.now }
    ensures area { result ≡ area_at areas.now node }
    ensures within { AreaWithin result }
{
    let place = node as usize;
    if place < areas.len() {
        return areas[place];
    }
    InlineArea {
        above: Unit(0),
        below: Unit(0),
        margin_left: Unit(0),
        margin_right: Unit(0),
    }
}

//! The content of a line, with the pen.

ghost use Rattle.std.specs.Prelude.{◌≡◌, ◌++◌, ◌∷◌, [], ◌||◌, IsFalse, IsTrue, IfOk, OnOk};
ghost use Rattle.lay_inlines.specs.Bounds.{PensWithin};
ghost use Rattle.lay_inlines.specs.Looks.{LookAs};
ghost use Rattle.lay_inlines.specs.Raises.{raise_of, raises_after, raises_after_all};
ghost use Rattle.lay_inlines.specs.Strokes.{is_content, shown_of, place, stroke_of, strokes, parts_of};
ghost use Rattle.lay_lines.specs.Content.Pens.{over_all};

use crate::raises::Raises;
use crate::stroke_list::StrokeList;
use lay_lines::content::{Frame, Part, Pen, Stretch};
use lay_units::{NoMemory, Unit};

/// A part of a line's content, with how far it is raised, and how far content comes before it and after it.
#[derive(Clone, Copy)]
pub struct Stroke {
    pub part: Part,
    pub raise: Unit,
    pub before: Pen,
    pub after: Pen,
}

/// What a part shows on its line, with the number of the text or the box: a bit of a text, an atomic box, or where an
/// inline box begins or ends.
#[derive(Clone, Copy)]
pub enum Shown {
    OfText(u32),
    OfAtomic(u32),
    Opens(u32),
    Closes(u32),
    Nothing,
}

/// Adds the strokes of these stretches, from a pen. The answer is the pen after them, and the raises are then those there.
pub fn draw(
    out: &mut StrokeList,
    raises: &mut Raises,
    frame: &Frame,
    pen: Pen,
    stretches: &[Stretch],
) -> Result<Pen, NoMemory>
    requires { PensWithin frame.now pen (parts_of stretches.now) }
    ensures strokes { OnOk result (LookAs out.new (out.old ++ strokes frame.now pen raises.old (parts_of stretches.now))) }
    ensures raises { OnOk result (raises.new ≡ raises_after_all raises.old (parts_of stretches.now)) }
    ensures pen { IfOk result (λ p. p ≡ over_all frame.now pen (parts_of stretches.now)) }
{
    let mut pen = pen;
    for k in 0..stretches.len() {
        pen = draw_parts(out, raises, frame, pen, stretches[k].parts.as_slice())?;
    }
    Ok(pen)
}

fn draw_parts(
    out: &mut StrokeList,
    raises: &mut Raises,
    frame: &Frame,
    pen: Pen,
    parts: &[Part],
) -> Result<Pen, NoMemory>
    requires { PensWithin frame.now pen parts.now }
    ensures strokes { OnOk result (LookAs out.new (out.old ++ strokes frame.now pen raises.old parts.now)) }
    ensures raises { OnOk result (raises.new ≡ raises_after_all raises.old parts.now) }
    ensures pen { IfOk result (λ p. p ≡ over_all frame.now pen parts.now) }
{
    let mut before = pen;
    for k in 0..parts.len() {
        let part = &parts[k];
        let after = before.over(frame, part);
        put(out, raises, part, &before, &after)?;
        before = after;
    }
    Ok(before)
}

/// Adds the stroke of a part between these pens, or lets the last one reach over it too where both are bits of one text, so
/// that a line has few. The raises are then those behind it.
fn put(
    out: &mut StrokeList,
    raises: &mut Raises,
    part: &Part,
    before: &Pen,
    after: &Pen,
) -> Result<(), NoMemory>
    ensures strokes { OnOk result
        (LookAs out.new (out.old ++ stroke_of part.now (raise_of raises.old part.now) before.now after.now ∷ [])) }
    ensures raises { OnOk result (raises.new ≡ raises_after raises.old part.now) }
{
    if !reach_over(out, raises, part, before, after) {
        out.push(Stroke {
            part: *part,
            raise: raises.of(part),
            before: *before,
            after: *after,
        })?;
        raises.pass(part)?;
    }
    Ok(())
}

/// Lets the last of these reach over a part too, which stands between these pens, if both are bits of one text. Whether
/// they are.
fn reach_over(
    strokes: &mut StrokeList,
    raises: &Raises,
    part: &Part,
    before: &Pen,
    after: &Pen,
) -> bool
    ensures over { IsTrue result
        → LookAs strokes.new (strokes.old ++ stroke_of part.now (raise_of raises.now part.now) before.now after.now ∷ []) }
    ensures raises { IsTrue result → raises_after raises.now part.now ≡ raises.now }
    ensures apart { IsFalse result → strokes.new ≡ strokes.old }
{
    if let Some(last) = &mut strokes.last {
        if goes_on(last, raises, part, before, after) {
            last.after = *after;
            return true;
        }
    }
    false
}

/// Whether a part between these pens shows one more bit of the text of which the stroke before it shows a bit. A space at
/// the end of a line, where it shows nothing, leaves the end of the content where it is.
fn goes_on(last: &Stroke, raises: &Raises, part: &Part, before: &Pen, after: &Pen) -> bool
    ensures over { IsTrue result
        → LookAs (record last.now { after = after.now } ∷ [])
        (last.now ∷ stroke_of part.now (raise_of raises.now part.now) before.now after.now ∷ []) }
    ensures raises { IsTrue result → raises_after raises.now part.now ≡ raises.now }
{
    match &last.part {
        Part::Text(bit) => {
            is_bit_of(part, bit.text, before.started)
                && raises.of(part).0 == last.raise.0
                && (is_content(part) || after.solid.0 == last.after.solid.0)
        }
        _ => false,
    }
}

/// Whether a part shows a bit of this text where content follows it. A collapsible space does where it stays.
fn is_bit_of(part: &Part, text: u32, stays: bool) -> bool
    ensures shows { IsTrue result → shown_of part.now stays ≡ Shown.OfText text }
{
    match part {
        Part::Text(bit) | Part::PreservedSpace(bit) => bit.text == text,
        Part::Space(space) => stays && space.text == text,
        Part::Tab(of) => *of == text,
        Part::Linefeed | Part::Start(_) | Part::End(_) | Part::Atomic(_) => false,
    }
}

/// Whether collapsible spaces beside it stay.
pub fn is_content(part: &Part) -> bool
    ensures { result ≡ is_content part.now }
{
    match part {
        Part::PreservedSpace(_) | Part::Tab(_) | Part::Text(_) | Part::Atomic(_) => true,
        Part::Space(_) | Part::Linefeed | Part::Start(_) | Part::End(_) => false,
    }
}

/// What a part shows. A collapsible space is a part of its text where it stays on the line.
pub fn shown_of(part: &Part, stays: bool) -> Shown
    ensures { result ≡ shown_of part.now stays }
{
    match part {
        Part::Space(space) if stays => Shown::OfText(space.text),
        Part::PreservedSpace(space) => Shown::OfText(space.text),
        Part::Tab(text) => Shown::OfText(*text),
        Part::Text(text) => Shown::OfText(text.text),
        Part::Start(start) => Shown::Opens(start.node),
        Part::End(end) => Shown::Closes(end.node),
        Part::Atomic(atomic) => Shown::OfAtomic(atomic.node),
        Part::Space(_) | Part::Linefeed => Shown::Nothing,
    }
}

/// Where the pen stands, with content following it on its line or without.
pub fn place(pen: Pen, followed: bool) -> Unit
    ensures { result.0 ≡ place pen followed }
{
    if followed { pen.at } else { pen.solid }
}

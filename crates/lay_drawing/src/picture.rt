//! The picture of pieces.

ghost use Rattle.std.specs.Prelude.{◌≡◌, ◌++◌, IfOk, OnOk, string_bytes};
ghost use Rattle.std.specs.List.{All};
ghost use Rattle.std.specs.Fmt.{decimal};
ghost use Rattle.lay_frag.specs.Lines.{kind_word};
ghost use Rattle.lay_drawing.specs.Marks.{IsMarked};
ghost use Rattle.lay_drawing.specs.Picture.{length_text, outer_edge, full_size, full_sizes, view_text, opening};
ghost use Rattle.lay_drawing.specs.Picture.{class_text, title_text, place_text, size, sizes, number_left};
ghost use Rattle.lay_drawing.specs.Picture.{number_base, label_text, label_texts, shape, shapes, picture};

use crate::frame::{Frame, Span, edges, frame_of};
use crate::label::{Label, labels_of};
use crate::mark::Marked;
use crate::pixels::push_px;
use crate::style::push_style;
use lay_frag::kind_word;
use lay_units::{NoMemory, Text};
use std::alloc::Global;
use std::fmt::Write;

/// The picture of these pieces.
pub(crate) fn picture(alloc: Global, pieces: &[Marked]) -> Result<Text, NoMemory>
    requires { All IsMarked pieces.now }
    ensures { IfOk result (λ t. t ≡ picture pieces.now) }
{
    let mut text = String::new(alloc);
    push_opening(&mut text, frame_of(pieces))?;
    push_style(&mut text)?;
    push_shapes(&mut text, pieces)?;
    let labels = labels_of(alloc, pieces)?;
    push_labels(&mut text, &labels)?;
    push(&mut text, "</svg>\n")?;
    Ok(Text::new(text))
}

fn push_opening(text: &mut String, frame: Frame) -> Result<(), NoMemory>
    ensures { OnOk result (string_bytes text.new ≡ string_bytes text.old ++ opening frame) }
{
    push(
        text,
        "<svg xmlns=\"http://www.w3.org/2000/svg\" class=\"lay\"",
    )?;
    push_full_sizes(text, frame)?;
    push(text, " viewBox=\"")?;
    push_view(text, frame)?;
    push(
        text,
        "\" font-family=\"monospace\" font-size=\"10\" pointer-events=\"all\">\n",
    )?;
    Ok(())
}

fn push_full_sizes(text: &mut String, frame: Frame) -> Result<(), NoMemory>
    ensures { OnOk result (string_bytes text.new ≡ string_bytes text.old ++ full_sizes frame) }
{
    push_length(text, "width", full_size(frame.across))?;
    push_length(text, "height", full_size(frame.down))?;
    Ok(())
}

fn push_view(text: &mut String, frame: Frame) -> Result<(), NoMemory>
    ensures { OnOk result (string_bytes text.new ≡ string_bytes text.old ++ view_text frame) }
{
    push_px(text, outside(frame.across))?;
    push(text, " ")?;
    push_px(text, outside(frame.down))?;
    push(text, " ")?;
    push_px(text, full_size(frame.across))?;
    push(text, " ")?;
    push_px(text, full_size(frame.down))?;
    Ok(())
}

/// The outer edge of the margin.
fn outside(span: Span) -> i128
    ensures { result ≡ outer_edge span }
{
    i128::from(span.low) - 64
}

/// From the outer edge of the margin to the other.
fn full_size(span: Span) -> i128
    ensures { result ≡ full_size span }
{
    size(span) + 128
}

fn size(span: Span) -> i128
    ensures { result ≡ size span }
{
    i128::from(span.high) - i128::from(span.low)
}

fn low(span: Span) -> i128
    ensures { result ≡ span.low }
{
    i128::from(span.low)
}

/// Where the number of a label begins, from the left.
fn number_left(span: Span) -> i128
    ensures { result ≡ number_left span }
{
    i128::from(span.low) + 192
}

/// Its baseline, from the top.
fn number_base(span: Span) -> i128
    ensures { result ≡ number_base span }
{
    i128::from(span.low) + 640
}

/// Adds a text.
pub(crate) fn push(text: &mut String, more: &str) -> Result<(), NoMemory>
    ensures { OnOk result (string_bytes text.new ≡ string_bytes text.old ++ more.now) }
{
    text.push_str(more)?;
    Ok(())
}

/// Adds an attribute with a length.
fn push_length(text: &mut String, name: &str, units: i128) -> Result<(), NoMemory>
    ensures { OnOk result (string_bytes text.new ≡ string_bytes text.old ++ length_text name.now units) }
{
    push(text, " ")?;
    push(text, name)?;
    push(text, "=\"")?;
    push_px(text, units)?;
    push(text, "\"")?;
    Ok(())
}

fn push_shapes(text: &mut String, pieces: &[Marked]) -> Result<(), NoMemory>
    requires { All IsMarked pieces.now }
    ensures { OnOk result (string_bytes text.new ≡ string_bytes text.old ++ shapes pieces.now) }
{
    for piece in pieces {
        push_shape(text, piece)?;
    }
    Ok(())
}

fn push_shape(text: &mut String, piece: &Marked) -> Result<(), NoMemory>
    requires { IsMarked piece.now }
    ensures { OnOk result (string_bytes text.new ≡ string_bytes text.old ++ shape piece.now) }
{
    let frame = edges(&piece.piece);
    push(text, "<rect")?;
    push_place(text, low(frame.across), low(frame.down))?;
    push_sizes(text, frame)?;
    push_class(text, piece)?;
    push(text, ">")?;
    push_title(text, piece)?;
    push(text, "</rect>\n")?;
    Ok(())
}

fn push_place(text: &mut String, left: i128, top: i128) -> Result<(), NoMemory>
    ensures { OnOk result (string_bytes text.new ≡ string_bytes text.old ++ place_text left top) }
{
    push_length(text, "x", left)?;
    push_length(text, "y", top)?;
    Ok(())
}

fn push_sizes(text: &mut String, frame: Frame) -> Result<(), NoMemory>
    ensures { OnOk result (string_bytes text.new ≡ string_bytes text.old ++ sizes frame) }
{
    push_length(text, "width", size(frame.across))?;
    push_length(text, "height", size(frame.down))?;
    Ok(())
}

/// Adds the classes of a piece: its kind, and what is said of it.
fn push_class(text: &mut String, piece: &Marked) -> Result<(), NoMemory>
    ensures { OnOk result (string_bytes text.new ≡ string_bytes text.old ++ class_text piece.now) }
{
    push(text, " class=\"")?;
    push(text, kind_word(piece.piece.kind))?;
    push(text, piece.mark.word())?;
    push(text, "\"")?;
    Ok(())
}

fn push_title(text: &mut String, piece: &Marked) -> Result<(), NoMemory>
    ensures { OnOk result (string_bytes text.new ≡ string_bytes text.old ++ title_text piece.now) }
{
    push(text, "<title>")?;
    push(text, kind_word(piece.piece.kind))?;
    push(text, " ")?;
    push_number(text, piece.piece.node.0)?;
    push(text, " ")?;
    push_number(text, piece.piece.part)?;
    push(text, piece.mark.word())?;
    push(text, "</title>")?;
    Ok(())
}

fn push_number(text: &mut String, n: u32) -> Result<(), NoMemory>
    ensures { OnOk result (string_bytes text.new ≡ string_bytes text.old ++ decimal n) }
{
    write!(text, "{n}")?;
    Ok(())
}

fn push_labels(text: &mut String, labels: &[Label]) -> Result<(), NoMemory>
    ensures { OnOk result (string_bytes text.new ≡ string_bytes text.old ++ label_texts labels.now) }
{
    for label in labels {
        push_label(text, label)?;
    }
    Ok(())
}

fn push_label(text: &mut String, label: &Label) -> Result<(), NoMemory>
    ensures { OnOk result (string_bytes text.new ≡ string_bytes text.old ++ label_text label.now) }
{
    push(text, "<text")?;
    push_place(
        text,
        number_left(label.frame.across),
        number_base(label.frame.down),
    )?;
    push(text, " class=\"label")?;
    push(text, label.mark.word())?;
    push(text, "\">")?;
    push_number(text, label.node)?;
    push(text, "</text>\n")?;
    Ok(())
}

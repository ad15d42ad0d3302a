//! The stretches of a container whose lines hold one text.

ghost use Rattle.std.specs.Prelude.{◌≡◌, ◌∷◌, ◌++◌, [], true, IfOk, OnOk};
ghost use Rattle.lay_space.specs.declared.item.Item.TheVariants as item;
ghost use Rattle.lay_space.specs.Modes.{collapses, wraps};
ghost use Rattle.lay_space.specs.Segments.{segments_of};
ghost use Rattle.lay_space.specs.Tokens.{kind_of};
ghost use Rattle.lay_space.specs.BreakPlaces.{is_linefeed};
ghost use Rattle.lay_line_measures.specs.declared.container.Container.{Container};
ghost use Rattle.lay_line_measures.specs.BoxMeasuresValue.{BoxMeasuresValue};
ghost use Rattle.lay_line_measures.specs.Stretches.{stretches_of};
ghost use Rattle.lay_line_measures.specs.TextStretches.{breaks, cut_parts, cuts, is_space, last_stretch, text_stretch};

use crate::box_measures::BoxMeasures;
use crate::container::Container;
use crate::stretches::stretches_of;
use crate::text_parts::{TextBox, TextRun, push_part, put_cluster};
use lay_lines::content::{Advance, LineFloatList, Part, PartList, Stretch};
use lay_space::{ClusterKind, Item, cluster_kind, is_boundary, next_place, segments};
use lay_units::{ClusterWidth, NoMemory};
use std::alloc::Global;

/// The stretches of the content of a container, of which these are the items. One text, as most containers have, is cut
/// here, without segments.
pub(crate) fn stretches_of_items(
    alloc: Global,
    measures: &BoxMeasures<'_>,
    container: Container,
    items: &[Item],
) -> Result<Vec<Stretch>, NoMemory>
    ensures { IfOk result (λ v. v.items ≡ stretches_of measures.now container true (segments_of items.now)) }
{
    if items.len() == 1
        && let Item::Text {
            node,
            text,
            mode,
            widths,
        } = &items[0]
        && mode.collapses()
        && mode.wraps()
    {
        let run = TextRun {
            of: TextBox {
                node: *node,
                mode: *mode,
            },
            text: text.as_str(),
        };
        let stretches = text_stretches(alloc, run, widths.as_slice())?;
        return Ok(stretches);
    }
    let segments = segments(alloc, items)?;
    stretches_of(alloc, measures, container, segments.as_slice())
}

/// The stretches of a text that stands alone in lines, where white space collapses and wraps.
fn text_stretches(
    alloc: Global,
    run: TextRun<'_>,
    widths: &[ClusterWidth],
) -> Result<Vec<Stretch>, NoMemory>
    requires collapses { collapses run.of.mode ≡ true }
    requires wraps { wraps run.of.mode ≡ true }
    ensures { IfOk result (λ v. (m : BoxMeasuresValue) (c : Container) → v.items
        ≡ stretches_of m c true (segments_of (item.Text run.entry.of.node run.entry.text.now run.entry.of.mode widths.now ∷ []))) }
{
    let mut done = Vec::with_capacity(alloc, widths.len() / 2 + 1)?;
    let mut parts = Vec::with_capacity(alloc, 2)?;
    let mut first = true;
    for k in 0..widths.len() {
        let to = next_place(run.text.as_bytes(), &widths[k + 1..]);
        let kind = cluster_kind(run.of.mode, run.text.as_bytes(), widths[k].place, to);
        if first && is_space(kind) {
            continue;
        }
        put_cut(&mut parts, run, widths[k], to, kind)?;
        first = is_linefeed(kind);
        if breaks(kind) {
            put_stretch(alloc, &mut done, &mut parts, first)?;
        }
    }
    put_last(alloc, &mut done, &mut parts)?;
    Ok(done)
}

/// Puts what stands behind the last break, if it is anything.
fn put_last(alloc: Global, done: &mut Vec<Stretch>, parts: &mut Vec<Part>) -> Result<(), NoMemory>
    ensures { OnOk result (done.new.items ≡ done.old.items ++ last_stretch parts.old.items) }
{
    if !parts.is_empty() {
        put_stretch(alloc, done, parts, false)?;
    }
    Ok(())
}

/// Puts a stretch of these parts, of which none are left.
#[inline(always)]
fn put_stretch(
    alloc: Global,
    done: &mut Vec<Stretch>,
    parts: &mut Vec<Part>,
    forced: bool,
) -> Result<(), NoMemory>
    ensures done { OnOk result (done.new.items ≡ done.old.items ++ text_stretch parts.old.items forced ∷ []) }
    ensures parts { OnOk result (parts.new.items ≡ []) }
{
    let stretch = Stretch {
        heads: LineFloatList::new(Vec::new(alloc)),
        parts: PartList::copied(alloc, parts)?,
        floats: LineFloatList::new(Vec::new(alloc)),
        forced,
    };
    done.push(stretch)?;
    parts.clear();
    Ok(())
}

/// Puts a cluster of this kind, cut out of its text.
fn put_cut(
    parts: &mut Vec<Part>,
    run: TextRun<'_>,
    width: ClusterWidth,
    to: usize,
    kind: ClusterKind,
) -> Result<(), NoMemory>
    requires { kind ≡ kind_of run.of.mode run.text.now width.place to }
    ensures { OnOk result (parts.new.items ≡ parts.old.items ++ cut_parts run.entry.of run.entry.text.now width to) }
{
    if !cuts(run.text, width.place, to) {
        let advance = Advance {
            text: run.of.node,
            width: width.width,
        };
        return push_part(parts, Part::Text(advance));
    }
    let lone = to - width.place == 1;
    put_cluster(parts, run.of, kind, lone, width.width)
}

fn is_space(kind: ClusterKind) -> bool
    ensures { result ≡ is_space kind }
{
    match kind {
        ClusterKind::CollapsibleSpace => true,
        _ => false,
    }
}

fn is_linefeed(kind: ClusterKind) -> bool
    ensures { result ≡ is_linefeed kind }
{
    match kind {
        ClusterKind::Linefeed => true,
        _ => false,
    }
}

fn breaks(kind: ClusterKind) -> bool
    ensures { result ≡ breaks kind }
{
    match kind {
        ClusterKind::CollapsibleSpace | ClusterKind::Linefeed | ClusterKind::ZeroWidthSpace => true,
        _ => false,
    }
}

fn cuts(text: &str, from: usize, to: usize) -> bool
    ensures { result ≡ cuts text.now from to }
{
    from <= to && is_boundary(text, from) && is_boundary(text, to)
}

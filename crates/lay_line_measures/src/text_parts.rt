//! Texts in lines.

ghost use Rattle.std.specs.Prelude.{◌≡◌, ◌+◌, ◌==◌, ◌++◌, ◌∷◌, [], OnOk};
ghost use Rattle.lay_line_measures.specs.TextParts.{cluster_parts, linefeed_parts, parts_between, text_parts};

use lay_lines::content::{Advance, Part};
use lay_space::{ClusterKind, Mode, cluster_kind, next_place};
use lay_units::{ClusterWidth, NoMemory, Unit};

/// The number of a text's box, and its `white-space`.
#[derive(Clone, Copy)]
pub(crate) struct TextBox {
    pub node: u32,
    pub mode: Mode,
}

/// A text, and its box.
#[derive(Clone, Copy)]
pub(crate) struct TextRun<'a> {
    pub of: TextBox,
    pub text: &'a str,
}

/// Puts the clusters of a text, as parts of a line.
pub(crate) fn put_text(
    parts: &mut Vec<Part>,
    run: TextRun<'_>,
    widths: &[ClusterWidth],
) -> Result<(), NoMemory>
    ensures { OnOk result (parts.new.items ≡ parts.old.items ++ text_parts run.entry.of run.entry.text.now widths.now) }
{
    for k in 0..widths.len() {
        let to = next_place(run.text.as_bytes(), &widths[k + 1..]);
        put_between(parts, run, widths[k], to)?;
    }
    Ok(())
}

/// Puts the cluster that ends before a place.
fn put_between(
    parts: &mut Vec<Part>,
    run: TextRun<'_>,
    width: ClusterWidth,
    to: usize,
) -> Result<(), NoMemory>
    ensures { OnOk result (parts.new.items ≡ parts.old.items ++ parts_between run.entry.of run.entry.text.now width to) }
{
    let kind = cluster_kind(run.of.mode, run.text.as_bytes(), width.place, to);
    let lone = to > width.place && to - width.place == 1;
    put_cluster(parts, run.of, kind, lone, width.width)
}

/// Puts a cluster of this kind and width. `lone` says that it is one byte.
pub(crate) fn put_cluster(
    parts: &mut Vec<Part>,
    of: TextBox,
    kind: ClusterKind,
    lone: bool,
    width: Unit,
) -> Result<(), NoMemory>
    ensures { OnOk result (parts.new.items ≡ parts.old.items ++ cluster_parts of kind lone width) }
{
    let advance = Advance {
        text: of.node,
        width,
    };
    let part = match kind {
        ClusterKind::CollapsibleSpace => Part::Space(advance),
        ClusterKind::PreservedSpace if of.mode.wraps() => Part::PreservedSpace(advance),
        ClusterKind::Linefeed => return put_linefeed(parts, lone, advance),
        ClusterKind::Tab => Part::Tab(of.node),
        ClusterKind::PreservedSpace | ClusterKind::ZeroWidthSpace | ClusterKind::Other => {
            Part::Text(advance)
        }
    };
    push_part(parts, part)
}

/// Puts a linefeed, behind the CR of a cluster that isn't it alone.
fn put_linefeed(parts: &mut Vec<Part>, lone: bool, advance: Advance) -> Result<(), NoMemory>
    ensures { OnOk result (parts.new.items ≡ parts.old.items ++ linefeed_parts lone advance) }
{
    if !lone {
        push_part(parts, Part::Text(advance))?;
    }
    push_part(parts, Part::Linefeed)
}

/// Puts a part behind these.
pub(crate) fn push_part(parts: &mut Vec<Part>, part: Part) -> Result<(), NoMemory>
    ensures { OnOk result (parts.new.items ≡ parts.old.items ++ part ∷ []) }
{
    parts.push(part)?;
    Ok(())
}

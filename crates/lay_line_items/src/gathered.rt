//! The clusters of a text, gathered.

ghost use Rattle.std.specs.Prelude.{◌≡◌, ◌+ℤ◌, ◌&&◌, ◌∷◌, ◌++◌, true, option_to_list, IfOk, OnOk};
ghost use Rattle.lay_space.specs.Tokens.{next_place};
ghost use Rattle.lay_line_items.specs.GatheredWidths.{gathered, gathered_after, joins_cluster, is_small, stands_alone, with_cluster};

use lay_face::put_width;
use lay_space::{ClusterKind, Mode, cluster_kind, next_place};
use lay_units::{ClusterWidth, NoMemory, Unit, WidthList};
use std::alloc::Global;

/// The widths of the clusters of a text, with those that no line breaks between as one.
pub fn gathered(alloc: Global, text: &[u8], widths: &[ClusterWidth]) -> Result<WidthList, NoMemory>
    ensures { IfOk result (λ l. l ≡ gathered text.now widths.now) }
{
    let mut out = Vec::new(alloc);
    let mut before = None;
    for k in 0..widths.len() {
        before = put_after(&mut out, text, before, widths[k], &widths[k + 1..])?;
    }
    put_before(&mut out, before)?;
    Ok(WidthList::new(out))
}

/// Puts a cluster behind those that are gathered so far, or gathers it too. Answers what is gathered then.
fn put_after(
    out: &mut Vec<ClusterWidth>,
    text: &[u8],
    before: Option<ClusterWidth>,
    width: ClusterWidth,
    rest: &[ClusterWidth],
) -> Result<Option<ClusterWidth>, NoMemory>
    ensures { IfOk result (λ after. out.old.items ++ gathered_after text.now before (width ∷ rest.now)
        ≡ out.new.items ++ gathered_after text.now after rest.now) }
{
    if stands_alone(text, width.place, next_place(text, rest)) {
        put_before(out, before)?;
        put_width(out, width.place, width.width)?;
        return Ok(None);
    }
    if goes_on(before, width) {
        return Ok(Some(with_cluster(before, width)));
    }
    put_before(out, before)?;
    Ok(Some(width))
}

/// Whether the cluster between two places is more than text.
fn stands_alone(text: &[u8], from: usize, to: usize) -> bool
    ensures { result ≡ stands_alone text.now from to }
{
    match cluster_kind(Mode::Pre, text, from, to) {
        ClusterKind::Other => false,
        _ => true,
    }
}

fn goes_on(before: Option<ClusterWidth>, width: ClusterWidth) -> bool
    ensures { result ≡ joins_cluster before width }
{
    match before {
        Some(before) => are_small(before.width, width.width),
        None => true,
    }
}

fn with_cluster(before: Option<ClusterWidth>, width: ClusterWidth) -> ClusterWidth
    requires { joins_cluster before width ≡ true }
    ensures { result ≡ with_cluster before width }
{
    match before {
        Some(before) => ClusterWidth {
            place: before.place,
            width: sum(before.width, width.width),
        },
        None => width,
    }
}

/// Whether both widths are added up.
fn are_small(a: Unit, b: Unit) -> bool
    ensures { result ≡ (is_small a.0 && is_small b.0) }
{
    is_small(a) && is_small(b)
}

pub fn sum(a: Unit, b: Unit) -> Unit
    requires { (is_small a.0 && is_small b.0) ≡ true }
    ensures { result.0 ≡ a.0 +ℤ b.0 }
{
    Unit(a.0 + b.0)
}

/// Widths from here on are not added up.
const MOST_SMALL: i64 = 1 << 61;

fn is_small(width: Unit) -> bool
    ensures { result ≡ is_small width.0 }
{
    -MOST_SMALL <= width.0 && width.0 < MOST_SMALL
}

/// Puts what is gathered so far, if there is anything.
fn put_before(out: &mut Vec<ClusterWidth>, before: Option<ClusterWidth>) -> Result<(), NoMemory>
    ensures { OnOk result (out.new.items ≡ out.old.items ++ option_to_list before) }
{
    if let Some(width) = before {
        put_width(out, width.place, width.width)?;
    }
    Ok(())
}

//! Which boxes of a root are those of other roots of the same context.

ghost use Rattle.std.specs.Prelude.{◌≡◌, ◌<◌, IfOk, length, map, slice_index};
ghost use Rattle.std.specs.List.{list_any};
ghost use Rattle.lay_context.specs.DocumentLayout.{flow_number, flow_numbers};
ghost use Rattle.lay_contexts.specs.FormattingContexts.{formatting_context_at};
ghost use Rattle.lay_cell_work.specs.CellColumns.{is_link, link_to, links_of};

use lay_contexts::FormattingContexts;
use lay_positioned::is_absolute;
use lay_units::NoMemory;
use std::alloc::Global;

/// For each box of the formatting context with the number i which root of the same context stands there, where `first` is the number of
/// that of the context's own box. Where none does, no column.
pub(crate) fn links_of(
    alloc: Global,
    all: &FormattingContexts,
    first: usize,
    i: usize,
) -> Result<Vec<Option<usize>>, NoMemory>
    requires { i < length all.now }
    ensures { IfOk result (λ v. v.items ≡ links_of all.now first i) }
{
    let links = all_links(alloc, all, first, i)?;
    if has_link(&links) {
        return Ok(links);
    }
    Ok(Vec::new(alloc))
}

/// The same, also where none does.
fn all_links(
    alloc: Global,
    all: &FormattingContexts,
    first: usize,
    i: usize,
) -> Result<Vec<Option<usize>>, NoMemory>
    requires { i < length all.now }
    ensures { IfOk result (λ v. v.items ≡ map (link_to all.now first) (flow_numbers all.now i)) }
{
    let count = all.at(i).inner().len();
    let mut links = Vec::with_capacity(alloc, count)?;
    for k in 0..count {
        links.push(link_at(all, first, i, k))?;
    }
    Ok(links)
}

/// That of the box at k.
fn link_at(all: &FormattingContexts, first: usize, i: usize, k: usize) -> Option<usize>
    requires within { i < length all.now }
    requires place { k < length (formatting_context_at all.now i).inner }
    ensures { result ≡ link_to all.now first (flow_number all.now (slice_index (formatting_context_at all.now i).inner k)) }
{
    link_to(all, first, all.at(i).inner()[k])
}

/// Which root the formatting context with this number is, where it is an anonymous one in flow or floating. 0 stands for none.
fn link_to(all: &FormattingContexts, first: usize, number: usize) -> Option<usize>
    requires { number < length all.now }
    ensures { result ≡ link_to all.now first (flow_number all.now number) }
{
    if number == 0 || is_absolute(all, number) || !all.at(number).is_anonymous() {
        return None;
    }
    Some(number.saturating_sub(first))
}

/// Whether another root stands anywhere.
fn has_link(links: &[Option<usize>]) -> bool
    ensures { result ≡ list_any is_link links.now }
{
    links.iter().any(|link| is_link(link))
}

fn is_link(link: &Option<usize>) -> bool
    ensures { result ≡ is_link link.now }
{
    link.is_some()
}

//! The row groups of a table among its rows (CSS 2.2, 17.2).

ghost use Rattle.std.specs.Prelude.{ℕ, ◌≡◌, ◌<◌, ◌≤◌, ◌+◌, ◌==◌, length, slice_index, IfOk, OnOk, if◌then◌else◌};
ghost use Rattle.std.specs.List.{count_by};
ghost use Rattle.lay_table.specs.GroupCounts.{AreBodyRows, AreGroupCounts, AreRowsWithin, sum_before};
ghost use Rattle.lay_table.specs.Groups.{is_at, is_body_row, is_header_row, outer_groups, rows_before, rows_within};

use lay_box_tree::BoxNode;
use lay_table_grid::{TableRow, footer_place, header_place};
use lay_units::NoMemory;
use std::alloc::Global;
use std::marker::Model;

/// The header group and the footer group of a table, if it has any.
#[derive(Clone, Copy, Drop)]
pub struct OuterGroups {
    pub header: Option<usize>,
    pub footer: Option<usize>,
}

/// How many rows stand in each box, and how many that are in neither of the outer groups stand before it.
#[derive(Drop)]
pub(crate) struct GroupCounts {
    outer: OuterGroups,
    header_rows: usize,
    within: Vec<usize>,
    body_before: Vec<usize>,
}

impl Model for GroupCounts {
    ghost use Rattle.lay_table.specs.GroupCounts.{GroupCounts as Plain};

    ghost Value = { Plain };

    ghost view = { λ g.
        record { outer = g.outer; header_rows = g.header_rows; within = g.within.items; body_before = g.body_before.items } };
}

/// The counts of these rows.
pub(crate) fn group_counts(
    alloc: Global,
    boxes: &[BoxNode],
    rows: &[TableRow],
) -> Result<GroupCounts, NoMemory>
    ensures { IfOk result (AreGroupCounts boxes.now rows.now) }
{
    let outer = outer_groups(boxes);
    let body = body_rows(alloc, outer, rows, boxes.len())?;
    Ok(GroupCounts {
        outer,
        header_rows: header_rows(outer, rows),
        within: rows_within(alloc, rows, boxes.len())?,
        body_before: sums_before(alloc, &body)?,
    })
}

fn outer_groups(boxes: &[BoxNode]) -> OuterGroups
    ensures { result ≡ outer_groups boxes.now }
{
    OuterGroups {
        header: header_place(boxes),
        footer: footer_place(boxes),
    }
}

/// Whether there is a place, and it is this one.
fn is_at(place: Option<usize>, k: usize) -> bool
    ensures { result ≡ is_at place k }
{
    match place {
        Some(place) => k == place,
        None => false,
    }
}

fn is_body_row(outer: OuterGroups, row: TableRow) -> bool
    ensures { result ≡ is_body_row outer row }
{
    !(is_at(outer.header, row.group) || is_at(outer.footer, row.group))
}

/// How many rows stand in the header group.
fn header_rows(outer: OuterGroups, rows: &[TableRow]) -> usize
    ensures { result ≡ count_by (is_header_row outer) rows.now }
{
    let mut count = 0;
    for row in rows {
        if is_at(outer.header, row.group) {
            count += 1;
        }
    }
    count
}

/// For each of so many boxes how many rows stand in it.
fn rows_within(alloc: Global, rows: &[TableRow], count: usize) -> Result<Vec<usize>, NoMemory>
    ensures count { IfOk result (λ v. length v.items ≡ count) }
    ensures each { IfOk result (λ v. AreRowsWithin rows.now (length rows.now) v.items) }
{
    let mut within = vec![in alloc; 0; count]?;
    for n in 0..rows.len() {
        count_within(&mut within, rows, n)?;
    }
    Ok(within)
}

fn count_within(within: &mut Vec<usize>, rows: &[TableRow], n: usize) -> Result<(), NoMemory>
    requires place { n < length rows.now }
    requires known { AreRowsWithin rows.now n within.old.items }
    ensures count { OnOk result (length within.new.items ≡ length within.old.items) }
    ensures each { OnOk result (AreRowsWithin rows.now (n + 1) within.new.items) }
{
    count_one(within, rows[n].group)
}

/// For each of so many boxes how many rows are it, and in neither of the outer groups.
fn body_rows(
    alloc: Global,
    outer: OuterGroups,
    rows: &[TableRow],
    count: usize,
) -> Result<Vec<usize>, NoMemory>
    ensures count { IfOk result (λ v. length v.items ≡ count) }
    ensures each { IfOk result (λ v. AreBodyRows outer rows.now (length rows.now) v.items) }
{
    let mut body = vec![in alloc; 0; count]?;
    for n in 0..rows.len() {
        count_body(&mut body, outer, rows, n)?;
    }
    Ok(body)
}

fn count_body(
    body: &mut Vec<usize>,
    outer: OuterGroups,
    rows: &[TableRow],
    n: usize,
) -> Result<(), NoMemory>
    requires place { n < length rows.now }
    requires known { AreBodyRows outer rows.now n body.old.items }
    ensures count { OnOk result (length body.new.items ≡ length body.old.items) }
    ensures each { OnOk result (AreBodyRows outer rows.now (n + 1) body.new.items) }
{
    if !is_body_row(outer, rows[n]) {
        return Ok(());
    }
    count_one(body, rows[n].place)
}

/// Counts one more at k, if there is such an entry.
fn count_one(counts: &mut Vec<usize>, k: usize) -> Result<(), NoMemory>
    ensures count { OnOk result (length counts.new.items ≡ length counts.old.items) }
    ensures each { OnOk result
        ((j : ℕ) → j < length counts.old.items
        → slice_index counts.new.items j ≡ slice_index counts.old.items j + (if k == j then 1 else 0)) }
{
    if k >= counts.len() {
        return Ok(());
    }
    let Some(count) = counts[k].checked_add(1) else {
        return Err(NoMemory);
    };
    counts[k] = count;
    Ok(())
}

/// For each of these the sum of those before it.
fn sums_before(alloc: Global, counts: &[usize]) -> Result<Vec<usize>, NoMemory>
    ensures count { IfOk result (λ v. length v.items ≡ length counts.now) }
    ensures each { IfOk result (λ v. (k : ℕ) → k < length counts.now → slice_index v.items k ≡ sum_before counts.now k) }
{
    let mut sums = Vec::new(alloc);
    let mut sum: usize = 0;
    for k in 0..counts.len() {
        sums.push(sum)?;
        sum = match sum.checked_add(counts[k]) {
            Some(sum) => sum,
            None => return Err(NoMemory),
        };
    }
    Ok(sums)
}

impl GroupCounts {
    fn outer(&self) -> OuterGroups
        ensures { result ≡ self.now.outer }
    {
        self.outer
    }

    fn header_rows(&self) -> usize
        ensures { result ≡ self.now.header_rows }
    {
        self.header_rows
    }

    fn within(&self, k: usize) -> usize
        requires { k < length self.now.within }
        ensures { result ≡ slice_index self.now.within k }
    {
        self.within[k]
    }

    fn body_before(&self, k: usize) -> usize
        requires { k < length self.now.body_before }
        ensures { result ≡ slice_index self.now.body_before k }
    {
        self.body_before[k]
    }
}

/// How many rows stand in the box at k, where these are the counts of the rows.
pub(crate) fn rows_within_box(
    counts: &GroupCounts,
    boxes: &[BoxNode],
    rows: &[TableRow],
    k: usize,
) -> usize
    requires counts { AreGroupCounts boxes.now rows.now counts.now }
    requires place { k < length boxes.now }
    ensures { result ≡ rows_within rows.now k }
{
    let _ = boxes;
    let _ = rows;
    counts.within(k)
}

/// How many rows are drawn before the row group at k, where these are the counts of the rows.
pub(crate) fn rows_before(
    counts: &GroupCounts,
    boxes: &[BoxNode],
    rows: &[TableRow],
    k: usize,
) -> usize
    requires counts { AreGroupCounts boxes.now rows.now counts.now }
    requires place { k < length boxes.now }
    ensures value { result ≡ rows_before boxes.now rows.now k }
    ensures few { result ≤ length rows.now }
{
    let _ = boxes;
    let outer = counts.outer();
    if is_at(outer.header, k) {
        return 0;
    }
    if is_at(outer.footer, k) {
        return rows.len() - counts.within(k);
    }
    counts.header_rows() + counts.body_before(k)
}

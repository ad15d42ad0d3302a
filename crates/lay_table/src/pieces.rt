//! The pieces of a table.

ghost use Rattle.std.specs.Prelude.{◌≡◌, ◌<◌, ◌≤◌, length, IfOk, OnOk};
ghost use Rattle.lay_box_tree.specs.ContextBoxes.{is_inner};
ghost use Rattle.lay_placements.specs.NearPieces.{AreNearPieces};
ghost use Rattle.lay_placements.specs.PieceParts.{with_pieces};
ghost use Rattle.lay_placements.specs.Standings.{IsStandingNear};
ghost use Rattle.lay_sizes.specs.BoxSizes.{border_width};
ghost use Rattle.lay_sizes.specs.SizeColumns.{sizes_at};
ghost use Rattle.lay_table_grid.specs.TableBoxes.{kind_at};
ghost use Rattle.lay_table.specs.PlaceBounds.{AreStandings};
ghost use Rattle.lay_table.specs.TablePieces.{extent_by_kind, inner_width, piece_of, table_pieces_of_box, pieces_to, rows_width};
ghost use Rattle.lay_table.specs.TableStandings.{standing_of};

use crate::cells::{own_box_at, sizes_at, table_sizes};
use crate::places::TablePlaces;
use crate::table_input::TableInput;
use lay_box_tree::BoxKind;
use lay_doc::NodeId;
use lay_frag::{Frag, FragKind};
use lay_placements::{PieceList, Standing};
use lay_sizes::border_width;
use lay_units::{NoMemory, Rect, Unit};
use std::alloc::Global;

/// How wide the piece of a box of a table is.
#[derive(Clone, Copy)]
pub enum Extent {
    /// As the box is sized.
    Own,
    /// As rows are.
    Rows,
    /// It has no piece here.
    Nothing,
}

/// How wide the piece of a box of this kind is.
fn extent_by_kind(kind: &BoxKind) -> Extent
    ensures { result ≡ extent_by_kind kind.now }
{
    match kind {
        BoxKind::Wrapper | BoxKind::InlineWrapper | BoxKind::Table => Extent::Own,
        BoxKind::RowGroup | BoxKind::HeaderGroup | BoxKind::FooterGroup | BoxKind::Row => {
            Extent::Rows
        }
        _ => Extent::Nothing,
    }
}

/// The pieces of a table whose boxes stand so, in order. NoMemory is also the answer where one stands more than 2^60 units away,
/// which it does in no document within the limits, or there are more than 2^31.
pub(crate) fn pieces_of(
    alloc: Global,
    input: &TableInput,
    places: &TablePlaces,
    standings: &[Standing],
) -> Result<Vec<Frag>, NoMemory>
    requires { AreStandings input.now places.now standings.now }
    ensures pieces { IfOk result (λ v. v.items ≡ pieces_to input.now places.now (length input.now.boxes)) }
    ensures near { IfOk result (λ v. AreNearPieces v.items) }
    ensures few { IfOk result (λ v. length v.items ≤ 2147483648) }
{
    let mut pieces = PieceList::new(alloc);
    for k in 0..input.boxes().len() {
        push_box(&mut pieces, input, places, standings, k)?;
    }
    Ok(pieces.into_vec())
}

/// Puts the pieces of the box at k behind these.
fn push_box(
    pieces: &mut PieceList,
    input: &TableInput,
    places: &TablePlaces,
    standings: &[Standing],
    k: usize,
) -> Result<(), NoMemory>
    requires standings { AreStandings input.now places.now standings.now }
    requires place { k < length input.now.boxes }
    ensures { OnOk result (pieces.new ≡ with_pieces pieces.old (table_pieces_of_box input.now places.now k)) }
{
    let standing = standing_at(input, places, standings, k);
    if is_inner(input, k) {
        return pieces.push_spliced(inner_width(input, k), standing, input.pieces(k));
    }
    match extent_of(input, k) {
        Extent::Own => pieces.push(piece_of(input, standing, k, own_width(input, k))),
        Extent::Rows => {
            let width = rows_width(input, places)?;
            pieces.push(piece_of(input, standing, k, width))
        }
        Extent::Nothing => Ok(()),
    }
}

/// Where the box at k stands.
fn standing_at(
    input: &TableInput,
    places: &TablePlaces,
    standings: &[Standing],
    k: usize,
) -> Standing
    requires standings { AreStandings input.now places.now standings.now }
    requires place { k < length input.now.boxes }
    ensures value { result ≡ standing_of input.now places.now k }
    ensures near { IsStandingNear result }
{
    let _ = input;
    let _ = places;
    standings[k]
}

/// How wide the piece of the box at k is.
fn extent_of(input: &TableInput, k: usize) -> Extent
    requires { k < length input.now.boxes }
    ensures { result ≡ extent_by_kind (kind_at input.now.boxes k) }
{
    extent_by_kind(&input.boxes()[k].kind)
}

/// Whether the box at k is that of an inner formatting context.
fn is_inner(input: &TableInput, k: usize) -> bool
    requires { k < length input.now.boxes }
    ensures { result ≡ is_inner input.now.boxes k }
{
    input.boxes()[k].inner
}

/// The width of the border box at k, which is that of an inner formatting context.
fn inner_width(input: &TableInput, k: usize) -> Unit
    requires { k < length input.now.boxes }
    ensures { result ≡ inner_width input.now k }
{
    match input.table().cell(k) {
        Some(cell) => cell.width,
        None => own_box_at(input, k).width,
    }
}

/// The width of the border box at k as it is sized.
fn own_width(input: &TableInput, k: usize) -> Unit
    requires { k < length input.now.boxes }
    ensures { result ≡ record { 0 = border_width (sizes_at input.now.sizes k) } }
{
    let _ = input.boxes();
    border_width(&sizes_at(input.sizes(), k))
}

/// How wide rows and row groups are: as far as the columns reach, or without any as the content of the table box.
fn rows_width(input: &TableInput, places: &TablePlaces) -> Result<Unit, NoMemory>
    ensures { IfOk result (λ u. u ≡ rows_width input.now places.now.columns) }
{
    if places.columns.len() == 0 {
        return Ok(table_sizes(input).widths.width);
    }
    places.columns.extent(0, places.columns.len())
}

/// The border box at k, which stands so and is so wide.
fn piece_of(input: &TableInput, standing: Standing, k: usize, width: Unit) -> Frag
    requires { k < length input.now.boxes }
    ensures { result ≡ piece_of input.now.boxes standing k width }
{
    Frag {
        kind: FragKind::Box,
        node: input.boxes()[k].node,
        part: 0,
        rect: Rect {
            x: standing.corner.x,
            y: standing.corner.y,
            w: width,
            h: standing.height,
        },
    }
}

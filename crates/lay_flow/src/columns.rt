//! Reading and writing a column of lengths.

ghost use Rattle.std.specs.Prelude.{◌≡◌, ◌<◌, length, slice_set};
ghost use Rattle.lay_flow.specs.Blocks.Lengths.{length_at};
ghost use Rattle.lay_flow.specs.Pass.Bounds.{clears_of};
ghost use Rattle.lay_flow.specs.Blocks.FlowPlaces.{corner_at};
ghost use Rattle.lay_flow.specs.Blocks.Children.{flag_at};

use lay_floats::Place;
use lay_units::Unit;

pub(crate) fn length_at(column: &[Unit], k: usize) -> Unit
    requires { k < length column.now }
    ensures { result.0 ≡ length_at column.now k }
{
    column[k]
}

pub(crate) fn write_at(column: &mut Vec<Unit>, k: usize, v: Unit)
    requires { k < length column.old.items }
    ensures { column.new.items ≡ slice_set column.old.items k v }
{
    column[k] = v;
}

pub(crate) fn is_cleared(clear_edges: &[Option<Unit>], k: usize) -> bool
    requires { k < length clear_edges.now }
    ensures { result ≡ flag_at (clears_of clear_edges.now) k }
{
    clear_edges[k].is_some()
}

pub(crate) fn write_edge(clear_edges: &mut Vec<Option<Unit>>, k: usize, edge: Unit)
    requires { k < length clear_edges.old.items }
    ensures { clear_edges.new.items ≡ slice_set clear_edges.old.items k (Some edge) }
{
    clear_edges[k] = Some(edge);
}

pub(crate) fn flag_at(flags: &[bool], k: usize) -> bool
    requires { k < length flags.now }
    ensures { result ≡ flag_at flags.now k }
{
    flags[k]
}

pub(crate) fn write_flag(flags: &mut Vec<bool>, k: usize, v: bool)
    requires { k < length flags.old.items }
    ensures { flags.new.items ≡ slice_set flags.old.items k v }
{
    flags[k] = v;
}

pub(crate) fn place_at(places: &[Place], k: usize) -> Place
    requires { k < length places.now }
    ensures { result ≡ corner_at places.now k }
{
    places[k]
}

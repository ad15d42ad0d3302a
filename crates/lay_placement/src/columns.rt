//! Reading the columns of one formatting context.

ghost use Rattle.std.specs.Prelude.{◌≡◌, ◌<◌, length};
ghost use Rattle.lay_flow.specs.Blocks.FlowPlaces.{box_place_at};
ghost use Rattle.lay_flow.specs.Blocks.Lengths.{length_at};

use lay_flow::blocks::BoxPlace;
use lay_units::Unit;

pub(crate) fn place_at(places: &[BoxPlace], k: usize) -> BoxPlace
    requires { k < length places.now }
    ensures { result ≡ box_place_at places.now k }
{
    places[k]
}

pub(crate) fn length_at(column: &[Unit], k: usize) -> Unit
    requires { k < length column.now }
    ensures { result ≡ record { 0 = length_at column.now k } }
{
    column[k]
}

//! The values of formatting contexts of which nothing is known.

ghost use Rattle.std.specs.Prelude.{◌≡◌, [], IfOk};
ghost use Rattle.lay_context.specs.PlacedContexts.{not_placed};
ghost use Rattle.lay_context_sizes.specs.ContextSizes.{not_sized};

use crate::placed_context::PlacedContext;
use lay_context_sizes::SizedContext;
use lay_frag::Pieces;
use lay_placements::{ContextSizes, Corner, Placement};
use lay_units::{NoMemory, Unit};
use std::alloc::Global;
use std::sync::Arc;

/// Nothing is known of its sizes.
pub fn not_sized(alloc: Global) -> Result<SizedContext, NoMemory>
    ensures { IfOk result (λ s. s ≡ not_sized) }
{
    let no_sizes = ContextSizes::new(alloc, Vec::new(alloc))?;
    Ok(SizedContext::new(no_sizes, None, Unit(0), None))
}

/// No pieces, for those of whose places nothing is known to share.
pub fn no_pieces(alloc: Global) -> Result<Arc<Pieces>, NoMemory>
    ensures { IfOk result (λ p. p.value ≡ []) }
{
    Ok(Arc::new(alloc, Pieces::new(Vec::new(alloc)))?)
}

/// Nothing is known of its places.
pub fn not_placed(alloc: Global, no_pieces: &Arc<Pieces>) -> Result<PlacedContext, NoMemory>
    requires { no_pieces.now.value ≡ [] }
    ensures { IfOk result (λ p. p ≡ not_placed) }
{
    let placement = Placement::none(alloc, no_pieces.clone()?);
    let corner = Corner {
        x: Unit(0),
        y: Unit(0),
    };
    Ok(PlacedContext::new(placement, corner))
}

//! Which formatting contexts are measured.

ghost use Rattle.std.specs.Prelude.{◌≡◌, ◌<◌, length, IfOk};
ghost use Rattle.lay_context.specs.Measured.{is_measured, shrinks_within};
ghost use Rattle.lay_context.specs.MeasuredFlags.{AreMeasured};

use lay_context_sizes::shrinks_to_fit;
use lay_contexts::FormattingContexts;
use lay_units::NoMemory;
use std::alloc::Global;

/// For each formatting context whether it is measured.
pub fn measured_flags(alloc: Global, contexts: &FormattingContexts) -> Result<Vec<bool>, NoMemory>
    ensures { IfOk result (λ v. AreMeasured contexts.now v.items) }
{
    let count = contexts.len();
    let mut flags = Vec::with_capacity(alloc, count)?;
    for i in 0..count {
        flags.push(is_measured(contexts, i))?;
    }
    Ok(flags)
}

/// Whether the own box of the formatting context with this number may shrink to fit, or that of one around it, so that its
/// preferred widths count.
pub fn is_measured(contexts: &FormattingContexts, i: usize) -> bool
    requires { i < length contexts.now }
    ensures { result ≡ is_measured contexts.now i }
{
    shrinks_within(i, contexts, i)
}

/// Whether it or one of the next so many around it shrinks to fit.
fn shrinks_within(many: usize, contexts: &FormattingContexts, i: usize) -> bool
    requires { i < length contexts.now }
    ensures { result ≡ shrinks_within many contexts.now i }
{
    let context = contexts.at(i);
    if shrinks_to_fit(context.boxes().as_slice()) {
        return true;
    }
    if many == 0 || i == 0 {
        return false;
    }
    shrinks_within(many - 1, contexts, context.outer())
}

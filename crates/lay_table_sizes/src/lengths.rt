//! Lengths that columns can be asked for.

ghost use Rattle.std.specs.Prelude.{◌≡◌, IfOk};
ghost use Rattle.lay_units.specs.Units.{IsSize};

use lay_units::{NoMemory, Unit};

/// No length of a document within its limits is so great.
const FAR: i64 = 1 << 62;

/// A length from 0 on. NoMemory is the answer where it is none or isn't below 2^62 units; no document within its limits has such a one.
pub(crate) fn size(length: Unit) -> Result<Unit, NoMemory>
    ensures value { IfOk result (λ v. v ≡ length) }
    ensures size { IfOk result (λ v. IsSize v.0) }
{
    if length.0 < 0 || length.0 >= FAR {
        return Err(NoMemory);
    }
    Ok(length)
}

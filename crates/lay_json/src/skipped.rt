//! The members of a run that nobody asks for: they are read and dropped, a few values at a time.

ghost use Rattle.std.specs.Prelude.{◌≡◌, ◌<◌, ◌∷◌, Some, OnOk, length};
ghost use Rattle.json.specs.Token.{end_array};
ghost use Rattle.json.specs.Json.{value};
ghost use Rattle.serde_json.specs.Data.{Data, Items};
ghost use Rattle.serde_json.specs.Read.{of_json, converted};
ghost use Rattle.lay_json.specs.Spans.Readings.{ReadsItems};
ghost use Rattle.lay_json.specs.Pulled.{is_asked};

use crate::spans::{Cursor, Halt};
use std::alloc::Global;

/// How many items of a list are read at a time.
pub(crate) const AT_A_TIME: usize = 64;

/// Whether a member of this name is asked for beside the nodes.
pub(crate) fn is_asked(name: &[u8]) -> bool
    ensures { result ≡ is_asked name.now }
{
    name == b"viewport".as_slice()
        || name == b"face".as_slice()
        || name == b"sheet".as_slice()
        || name == b"editors".as_slice()
}

/// Passes the items of a list, and the bracket that closes it.
fn skip_items(alloc: Global, cursor: &mut Cursor<'_>, kept: &mut Vec<u8>) -> Result<(), Halt>
    ensures { OnOk result ((ds : Items) × ReadsItems 124 cursor.old ds (end_array ∷ cursor.new)) }
{
    'items: while !cursor.end_array() {
        drop(cursor.next_values(alloc, kept, AT_A_TIME)?);
    }
    Ok(())
}

/// Passes the next value. Of a list only some items at a time stand in memory.
pub(crate) fn skip_value(
    alloc: Global,
    cursor: &mut Cursor<'_>,
    kept: &mut Vec<u8>,
) -> Result<(), Halt>
    ensures value { OnOk result ((d : Data) × (converted of_json (value 126 cursor.old) ≡ Some (d, cursor.new))) }
    ensures shorter { OnOk result (length cursor.new < length cursor.old) }
{
    if cursor.begin_array() {
        return skip_items(alloc, cursor, kept);
    }
    drop(cursor.next_value(alloc, kept)?);
    Ok(())
}

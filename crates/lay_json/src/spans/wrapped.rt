//! Values that are read by themselves.

ghost use Rattle.std.specs.Prelude.{◌≡◌, ◌∷◌, ◌++◌, [], Some, true, IfOk, OnOk, IsTrue};
ghost use Rattle.json.specs.Lex.{between};
ghost use Rattle.serde_json.specs.Data.{Data, Items, array, item, no_items};
ghost use Rattle.serde_json.specs.Read.{read as read_text};
ghost use Rattle.serde_json.specs.View.{view};
ghost use Rattle.lay_json.specs.Spans.Modes.{behind, is_closed};
ghost use Rattle.lay_json.specs.Spans.Readings.{wrapped, StandAs};

use crate::spans::halt::Halt;
use serde_json::{Category, Value};
use std::alloc::Global;

/// Copies the values' text between brackets.
fn wrap(kept: &mut Vec<u8>, own: &[u8]) -> Result<(), Halt>
    ensures { OnOk result (kept.new.items ≡ wrapped own.now) }
{
    kept.clear();
    kept.extend_from_slice(b"[[[")?;
    kept.extend_from_slice(own)?;
    kept.extend_from_slice(b"]]]")?;
    Ok(())
}

/// The one item of a list.
pub fn only(value: Value) -> Result<Value, Halt>
    ensures { IfOk result (λ v. view value ≡ array (item (view v) no_items)) }
{
    let Value::Array(mut items) = value else {
        return Err(Halt::Doubt);
    };
    let item = items.pop().ok_or(Halt::Doubt)?;
    if items.is_empty() {
        Ok(item)
    } else {
        Err(Halt::Doubt)
    }
}

fn read(alloc: Global, text: &[u8]) -> Result<Value, Halt>
    ensures { IfOk result (λ v. read_text text.now ≡ Some (view v)) }
{
    match Value::from_slice(alloc, text) {
        Ok(value) => Ok(value),
        Err(fault) if fault.classify() == Category::Memory => Err(Halt::NoMemory),
        Err(_) => Err(Halt::Doubt),
    }
}

/// Whether a value is a list in which something stands.
fn is_filled(value: &Value) -> bool
    ensures { IsTrue result → (d : Data) × (ds : Items) × (view value.now ≡ array (item d ds)) }
{
    match value.as_array() {
        Some(items) => !items.is_empty(),
        None => false,
    }
}

/// The list of the values that a text is, with commas between them.
pub(crate) fn read_values(alloc: Global, kept: &mut Vec<u8>, own: &[u8]) -> Result<Value, Halt>
    requires { is_closed (behind between own.now) ≡ true }
    ensures { IfOk result (λ v. (first : Data) × (rest : Items) × (view v ≡ array (item first rest)) × StandAs 124 own.now (item first rest)) }
{
    wrap(kept, own)?;
    let values = only(only(read(alloc, kept.as_slice())?)?)?;
    if is_filled(&values) {
        Ok(values)
    } else {
        Err(Halt::Doubt)
    }
}

//! The values of fields.

ghost use Rattle.std.specs.Prelude.{◌≡◌, ◌≤◌, ◌&&◌, Some, length, nat_le, option_map, IfOk, IfSome};
ghost use Rattle.serde_json.specs.View.{view, items_view, members_view};
ghost use Rattle.lay_json.specs.Fields.{map_read, has_at_most, value_in, required, object_of, list_of};
ghost use Rattle.lay_json.specs.Fields.{text_of, whole_within, number_of, required_number, number_or};
ghost use Rattle.lay_json.specs.Fields.{required_text, has_number, is_pair, pair_within, sides_of, required_sides};

use crate::fault::{Field, InputFault, Spot};
use serde_json::{Map, Value};

/// The value of a field, where the object has it.
pub(crate) fn value_in(object: &Value, field: Field) -> Option<&Value>
    ensures { option_map (λ v. view v.now) result ≡ value_in field (view object.now) }
{
    object.get(field.name())
}

/// The value of a field that must be there.
pub(crate) fn required(object: &Value, field: Field, place: Spot) -> Result<&Value, InputFault>
    ensures { map_read (λ v. view v.now) result ≡ required field place (view object.now) }
{
    match value_in(object, field) {
        Some(value) => Ok(value),
        None => Err(InputFault::Missing { field, place }),
    }
}

/// The members of a value that must be an object.
pub(crate) fn object_of(
    value: &Value,
    field: Field,
    place: Spot,
) -> Result<&Map<String, Value>, InputFault>
    ensures { map_read (λ m. members_view m.now.entries) result ≡ object_of field place (view value.now) }
{
    match value.as_object() {
        Some(members) => Ok(members),
        None => Err(InputFault::WrongKind { field, place }),
    }
}

/// The items of a value that must be a list.
pub(crate) fn list_of(value: &Value, field: Field, place: Spot) -> Result<&Vec<Value>, InputFault>
    ensures { map_read (λ v. items_view v.now.items) result ≡ list_of field place (view value.now) }
{
    match value.as_array() {
        Some(items) => Ok(items),
        None => Err(InputFault::WrongKind { field, place }),
    }
}

/// Whether there are at most so many items.
#[tactic(auto, using(crate::proofs::Counts::count_of_view))]
pub(crate) fn has_at_most(most: usize, items: &[Value]) -> bool
    ensures value { result ≡ has_at_most most (items_view items.now) }
    ensures count { result ≡ nat_le (length items.now) most }
{
    items.len() <= most
}

/// A value that must be a text.
pub(crate) fn text_of(value: &Value, field: Field, place: Spot) -> Result<&str, InputFault>
    ensures { map_read (λ s. s.now) result ≡ text_of field place (view value.now) }
{
    match value.as_str() {
        Some(text) => Ok(text),
        None => Err(InputFault::WrongKind { field, place }),
    }
}

/// A text that must be there.
pub(crate) fn required_text(object: &Value, field: Field, place: Spot) -> Result<&str, InputFault>
    ensures { map_read (λ s. s.now) result ≡ required_text field place (view object.now) }
{
    text_of(required(object, field, place)?, field, place)
}

/// The whole numbers from `low` to `high`.
#[derive(Clone, Copy)]
pub(crate) struct Bounds {
    pub low: u64,
    pub high: u64,
}

/// The ids that nodes have.
pub(crate) const IDS: Bounds = Bounds {
    low: 1,
    high: 4294967295,
};

/// What names a node, where 0 names none, or a place among children.
pub(crate) const NUMBERS: Bounds = Bounds {
    low: 0,
    high: 4294967295,
};

/// The whole number that a value is, where it is one of these.
pub(crate) fn whole_within(bounds: Bounds, value: Option<&Value>) -> Option<u64>
    ensures value { result ≡ whole_within bounds.low bounds.high (option_map (λ v. view v.now) value.entry) }
    ensures low { IfSome result (λ n. bounds.low ≤ n) }
    ensures high { IfSome result (λ n. n ≤ bounds.high) }
{
    let n = value?.as_u64()?;
    if bounds.low <= n && n <= bounds.high {
        Some(n)
    } else {
        None
    }
}

/// A value that must be one of these whole numbers.
pub(crate) fn number_of(
    bounds: Bounds,
    value: &Value,
    field: Field,
    place: Spot,
) -> Result<u64, InputFault>
    ensures value { result ≡ number_of bounds.low bounds.high field place (view value.now) }
    ensures low { IfOk result (λ n. bounds.low ≤ n) }
    ensures high { IfOk result (λ n. n ≤ bounds.high) }
{
    if !value.is_number() {
        return Err(InputFault::WrongKind { field, place });
    }
    match whole_within(bounds, Some(value)) {
        Some(n) => Ok(n),
        None => Err(InputFault::BadNumber { field, place }),
    }
}

/// One of these whole numbers, which must be there.
pub(crate) fn required_number(
    bounds: Bounds,
    object: &Value,
    field: Field,
    place: Spot,
) -> Result<u64, InputFault>
    ensures value { result ≡ required_number bounds.low bounds.high field place (view object.now) }
    ensures low { IfOk result (λ n. bounds.low ≤ n) }
    ensures high { IfOk result (λ n. n ≤ bounds.high) }
{
    number_of(bounds, required(object, field, place)?, field, place)
}

/// One of these whole numbers, which is `absent` where the object hasn't the field.
pub(crate) fn number_or(
    absent: u64,
    bounds: Bounds,
    object: &Value,
    field: Field,
    place: Spot,
) -> Result<u64, InputFault>
    requires low { bounds.low ≤ absent }
    requires high { absent ≤ bounds.high }
    ensures value { result ≡ number_or absent bounds.low bounds.high field place (view object.now) }
    ensures low { IfOk result (λ n. bounds.low ≤ n) }
    ensures high { IfOk result (λ n. n ≤ bounds.high) }
{
    match value_in(object, field) {
        Some(value) => number_of(bounds, value, field, place),
        None => Ok(absent),
    }
}

fn has_number(value: Option<&Value>) -> bool
    ensures { result ≡ has_number (option_map (λ v. view v.now) value.entry) }
{
    match value {
        Some(value) => value.is_number(),
        None => false,
    }
}

/// Whether a value is a list of two numbers.
pub(crate) fn is_pair(value: &Value) -> bool
    ensures { result ≡ is_pair (view value.now) }
{
    let first = has_number(value.get(0usize));
    let second = has_number(value.get(1usize));
    let third = value.get(2usize).is_none();
    first && second && third
}

/// The two whole numbers of a list, where both are at least `low`, the first is at most `first` and the
/// second at most `second`.
pub(crate) fn pair_within(low: u64, first: u64, second: u64, value: &Value) -> Option<(u64, u64)>
    ensures value { result ≡ pair_within low first second (view value.now) }
    ensures low { IfSome result (λ p. (low ≤ p.0) × (low ≤ p.1)) }
    ensures high { IfSome result (λ p. (p.0 ≤ first) × (p.1 ≤ second)) }
{
    let a = whole_within(Bounds { low, high: first }, value.get(0usize))?;
    let b = whole_within(Bounds { low, high: second }, value.get(1usize))?;
    Some((a, b))
}

/// A value that must be a width and a height: a list of two whole numbers from 1 to 1,000,000, in px.
fn sides_of(value: &Value, field: Field, place: Spot) -> Result<(u64, u64), InputFault>
    ensures value { result ≡ sides_of field place (view value.now) }
    ensures low { IfOk result (λ s. (1 ≤ s.0) × (1 ≤ s.1)) }
    ensures high { IfOk result (λ s. (s.0 ≤ 1000000) × (s.1 ≤ 1000000)) }
{
    if !is_pair(value) {
        return Err(InputFault::WrongKind { field, place });
    }
    match pair_within(1, 1000000, 1000000, value) {
        Some(sides) => Ok(sides),
        None => Err(InputFault::BadNumber { field, place }),
    }
}

/// A width and a height that must be there, from 1 to 1,000,000 px.
pub(crate) fn required_sides(
    object: &Value,
    field: Field,
    place: Spot,
) -> Result<(u64, u64), InputFault>
    ensures value { result ≡ required_sides field place (view object.now) }
    ensures low { IfOk result (λ s. (1 ≤ s.0) × (1 ≤ s.1)) }
    ensures high { IfOk result (λ s. (s.0 ≤ 1000000) × (s.1 ≤ 1000000)) }
{
    sides_of(required(object, field, place)?, field, place)
}

//! A run document that is read some nodes at a time, so that no tree of the whole stands in memory.

ghost use Rattle.std.specs.Prelude.{◌≡◌, ◌≤◌, ◌<◌, [], ◌∷◌, List, Some, false, is_some, length, IfOk, OnOk, IsTrue};
ghost use Rattle.json.specs.Token.{Token, begin_array, end_array};
ghost use Rattle.json.specs.Json.{value};
ghost use Rattle.serde_json.specs.Data.{Data, Items, item, put};
ghost use Rattle.serde_json.specs.Read.{of_json, converted};
ghost use Rattle.serde_json.specs.View.{view, items_view, members_view};
ghost use Rattle.lay_json.specs.Spans.Readings.{ReadsItems};
ghost use Rattle.lay_json.specs.Fields.{Gives, value_in};
ghost use Rattle.lay_json.specs.Pulled.{Adds, IsTaken, Keeps, AreMembers, IsAfter, scripts_in, sheet_text, read_with, SayInput};
ghost use Rattle.lay_run.specs.Runs.{IsListed};

use crate::editors::scripts_of;
use crate::face_fields::run_face;
use crate::fault::{Field, InputFault, Spot};
use crate::fields::{text_of, value_in};
use crate::listing::listed_in;
use crate::nodes::gathered;
use crate::run::{editor_list, shared, viewport_of};
use crate::sheet_in::SheetIn;
use crate::sheet_names::{copied, items_in, names_in};
use crate::skipped::{AT_A_TIME, is_asked, skip_value};
use crate::spans::{Cursor, Halt};
use crate::taken::Taken;
use lay_cascade::node_names::NamesList;
use lay_run::{RunDoc, ScriptList};
use lay_units::Text;
use serde_json::{Map, Value};
use std::alloc::Global;

/// Adds a member, in the place of one with an equal name.
fn put_member(
    alloc: Global,
    members: &mut Map<String, Value>,
    name: &[u8],
    value: Value,
) -> Result<(), Halt>
    ensures { OnOk result (members_view members.new.entries ≡ put name.now (view value) (members_view members.old.entries)) }
{
    let Ok(name) = std::str::from_utf8(name) else {
        return Err(Halt::Doubt);
    };
    members.insert(String::from_str(alloc, name)?, value)?;
    Ok(())
}

/// Reads the next value, and keeps it if a member of this name is asked for.
fn take_member(
    alloc: Global,
    cursor: &mut Cursor<'_>,
    kept: &mut Vec<u8>,
    members: &mut Map<String, Value>,
    name: &[u8],
) -> Result<(), Halt>
    ensures value { OnOk result ((d : Data) × (converted of_json (value 126 cursor.old) ≡ Some (d, cursor.new))
        × Keeps (members_view members.old.entries) name.now d (members_view members.new.entries)) }
    ensures shorter { OnOk result (length cursor.new < length cursor.old) }
{
    if !is_asked(name) {
        return skip_value(alloc, cursor, kept);
    }
    let value = cursor.next_value(alloc, kept)?;
    put_member(alloc, members, name, value)
}

/// The members that are asked for, up to the next one named `nodes` or to the end of the object, and whether it is `nodes`.
fn members_before(
    alloc: Global,
    cursor: &mut Cursor<'_>,
    kept: &mut Vec<u8>,
) -> Result<(Value, bool), Halt>
    ensures { IfOk result (λ r. AreMembers cursor.old (view r.0) r.1 cursor.new) }
{
    let mut members = Map::new(alloc);
    'members: while let Some(name) = cursor.next_name()? {
        if name == b"nodes".as_slice() {
            return Ok((Value::Object(members), true));
        }
        take_member(alloc, cursor, kept, &mut members, name)?;
    }
    Ok((Value::Object(members), false))
}

/// What the first nodes give.
fn first_taken(
    alloc: Global,
    viewport: (u32, u32),
    named: bool,
    nodes: &[Value],
) -> Result<Taken, Halt>
    requires low { (1 ≤ viewport.0) × (1 ≤ viewport.1) }
    requires high { (viewport.0 ≤ 1000000) × (viewport.1 ≤ 1000000) }
    ensures { IfOk result (λ t. (first : Data) × (rest : Items) × (items_view nodes.now ≡ item first rest) × IsTaken viewport named first rest t) }
{
    let Some((first, rest)) = nodes.split_first() else {
        return Err(Halt::Doubt);
    };
    let doc = gathered(alloc, viewport, first, rest)?;
    let listed = listed_in(alloc, first, rest)?;
    let names = if named {
        names_in(alloc, nodes)?
    } else {
        NamesList::new(alloc)
    };
    Ok(Taken { doc, listed, names })
}

/// Takes the next nodes of the list.
fn take_more(
    alloc: Global,
    cursor: &mut Cursor<'_>,
    kept: &mut Vec<u8>,
    named: bool,
    taken: &mut Taken,
) -> Result<(), Halt>
    ensures value { OnOk result ((ds : Items) × ReadsItems 124 cursor.old ds cursor.new × Adds named taken.old ds taken.new) }
    ensures shorter { OnOk result (length cursor.new < length cursor.old) }
{
    let nodes = cursor.next_values(alloc, kept, AT_A_TIME)?;
    taken.add(alloc, named, items_in(&nodes))
}

/// What the nodes of the list give whose bracket comes next.
fn taken_of(
    alloc: Global,
    cursor: &mut Cursor<'_>,
    kept: &mut Vec<u8>,
    viewport: (u32, u32),
    named: bool,
) -> Result<Taken, Halt>
    requires low { (1 ≤ viewport.0) × (1 ≤ viewport.1) }
    requires high { (viewport.0 ≤ 1000000) × (viewport.1 ≤ 1000000) }
    ensures { IfOk result (λ t. (ts : List Token) × (first : Data) × (rest : Items) × (cursor.old ≡ begin_array ∷ ts)
        × ReadsItems 124 ts (item first rest) (end_array ∷ cursor.new) × IsTaken viewport named first rest t) }
{
    if !cursor.begin_array() {
        return Err(Halt::Doubt);
    }
    let nodes = cursor.next_values(alloc, kept, AT_A_TIME)?;
    let mut taken = first_taken(alloc, viewport, named, items_in(&nodes))?;
    'nodes: while !cursor.end_array() {
        take_more(alloc, cursor, kept, named, &mut taken)?;
    }
    Ok(taken)
}

/// Whether an object hasn't what is read before the nodes.
fn is_after(members: &Value) -> bool
    ensures { IsTrue result → IsAfter (view members.now) }
{
    value_in(members, Field::Viewport).is_none()
        && value_in(members, Field::Face).is_none()
        && value_in(members, Field::Sheet).is_none()
}

/// The members that are asked for after the nodes, up to the end of the text.
fn members_after(alloc: Global, cursor: &mut Cursor<'_>, kept: &mut Vec<u8>) -> Result<Value, Halt>
    ensures { IfOk result (λ m. AreMembers cursor.old (view m) false [] × IsAfter (view m)) }
{
    let (members, more_nodes) = members_before(alloc, cursor, kept)?;
    if more_nodes {
        return Err(Halt::Doubt);
    }
    if !is_after(&members) {
        return Err(Halt::Doubt);
    }
    if !cursor.is_at_end() {
        return Err(Halt::Doubt);
    }
    Ok(members)
}

/// Whether an object has a sheet.
fn has_sheet(members: &Value) -> bool
    ensures { result ≡ is_some (value_in Field.Sheet (view members.now)) }
{
    value_in(members, Field::Sheet).is_some()
}

/// The scripts of the editors that stand after the nodes, or else of those before them.
fn scripts_in(alloc: Global, before: &Value, after: &Value) -> Result<ScriptList, InputFault>
    ensures { Gives result (scripts_in (view before.now) (view after.now)) }
{
    let members = match value_in(after, Field::Editors) {
        Some(_) => after,
        None => before,
    };
    scripts_of(alloc, editor_list(members)?)
}

/// The text of a sheet, where there is one.
fn sheet_text(alloc: Global, members: &Value) -> Result<Option<Text>, InputFault>
    ensures { Gives result (sheet_text (view members.now)) }
{
    match value_in(members, Field::Sheet) {
        Some(sheet) => {
            let text = text_of(sheet, Field::Sheet, Spot::Run)?;
            Ok(Some(copied(alloc, text)?))
        }
        None => Ok(None),
    }
}

/// The run, the sheet and the names of what was taken of the nodes, and of the members before the nodes and after them.
fn read_with(
    alloc: Global,
    before: &Value,
    after: &Value,
    taken: Taken,
) -> Result<(RunDoc, SheetIn), InputFault>
    requires { IsListed taken.doc taken.listed }
    ensures { Gives result (read_with (view before.now) (view after.now) taken) }
{
    let Taken { doc, listed, names } = taken;
    let face = run_face(alloc, before)?;
    let scripts = scripts_in(alloc, before, after)?;
    let sheet = sheet_text(alloc, before)?;
    let doc = doc.into_doc(alloc)?;
    let face = shared(alloc, face)?;
    let run = RunDoc::new(doc, face, scripts, listed);
    Ok((run, SheetIn { sheet, names }))
}

/// The run, the sheet and the names that a text says, if its nodes stand after its viewport, its face and its sheet.
pub(crate) fn pulled_input(alloc: Global, bytes: &[u8]) -> Result<(RunDoc, SheetIn), Halt>
    ensures { IfOk result (SayInput bytes.now) }
{
    let Ok(_) = simdutf8::compat::from_utf8(bytes) else {
        return Err(Halt::Doubt);
    };
    let mut cursor = Cursor::new(bytes);
    let mut kept = Vec::new(alloc);
    cursor.begin_object()?;
    let (before, is_nodes) = members_before(alloc, &mut cursor, &mut kept)?;
    if !is_nodes {
        return Err(Halt::Doubt);
    }
    let viewport = viewport_of(&before)?;
    let named = has_sheet(&before);
    let taken = taken_of(alloc, &mut cursor, &mut kept, viewport, named)?;
    let after = members_after(alloc, &mut cursor, &mut kept)?;
    Ok(read_with(alloc, &before, &after, taken)?)
}

//! Laws of the definitions. The functions do nothing.

ghost use Rattle.lay_json.specs.Spans.Laws.{ListsAreRead, ObjectsAreRead, LastNamesStay};

/// Items that are read one after the other, up to a bracket that closes, are a list.
pub fn lists_are_read()
    ensures { ListsAreRead }
{}

/// Members that are read one after the other, up to a brace that closes, are a text's object.
pub fn objects_are_read()
    ensures { ObjectsAreRead }
{}

/// Of members with equal names the last one stays.
pub fn last_names_stay()
    ensures { LastNamesStay }
{}

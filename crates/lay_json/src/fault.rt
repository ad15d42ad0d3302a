//! Faults of a run document.

ghost use Rattle.std.specs.Prelude.{◌≡◌};
ghost use Rattle.lay_json.specs.Fields.{field_name};

use lay_doc::EditFault;
use lay_units::NoMemory;

/// A field of a run document, of a face, of a node, of a command or of a check. `Run` is the run document itself, and `Check`
/// the whole of what a check is asked of.
#[derive(Clone, Copy, PartialEq, Eq)]
pub enum Field {
    Run,
    Viewport,
    Face,
    Advance,
    Default,
    Ascent,
    Descent,
    XHeight,
    Normal,
    Nodes,
    Editors,
    Id,
    Parent,
    Kind,
    Style,
    Colspan,
    Rowspan,
    Text,
    Natural,
    Do,
    Node,
    Property,
    Value,
    Index,
    Edits,
    Sheet,
    Tag,
    Label,
    Classes,
    Check,
    Report,
}

impl Field {
    /// Its name, as the run document writes it.
    pub fn name(self) -> &'static str
        ensures { result.now ≡ field_name self }
    {
        match self {
            Field::Run => "run",
            Field::Viewport => "viewport",
            Field::Face => "face",
            Field::Advance => "advance",
            Field::Default => "default",
            Field::Ascent => "ascent",
            Field::Descent => "descent",
            Field::XHeight => "xheight",
            Field::Normal => "normal",
            Field::Nodes => "nodes",
            Field::Editors => "editors",
            Field::Id => "id",
            Field::Parent => "parent",
            Field::Kind => "kind",
            Field::Style => "style",
            Field::Colspan => "colspan",
            Field::Rowspan => "rowspan",
            Field::Text => "text",
            Field::Natural => "natural",
            Field::Do => "do",
            Field::Node => "node",
            Field::Property => "property",
            Field::Value => "value",
            Field::Index => "index",
            Field::Edits => "edits",
            Field::Sheet => "sheet",
            Field::Tag => "tag",
            Field::Label => "label",
            Field::Classes => "classes",
            Field::Check => "check",
            Field::Report => "report",
        }
    }
}

/// Where a field stands.
#[derive(Clone, Copy, PartialEq, Eq)]
pub enum Spot {
    /// In the run document itself, in its face, or beside it.
    Run,
    /// In this node of the list `nodes`, counted from 0.
    Node(u32),
    /// In this command: editors count from 1, the commands of each from 0.
    Command { editor: u32, index: u32 },
}

/// Why bytes give no run. A report says it as I1 to I11.
#[derive(Clone, Copy, PartialEq, Eq)]
pub enum InputFault {
    /// I1: more than 16,777,216 bytes.
    TooLong,
    /// I2: the bytes have no JSON reading, or nest more than 127 deep.
    BadJson,
    /// I3: a required field is absent. An empty list of nodes counts as absent.
    Missing { field: Field, place: Spot },
    /// I4: a value has another JSON kind, a list another length, or a text that chooses is another one.
    WrongKind { field: Field, place: Spot },
    /// I9: a number isn't whole or isn't in its range, or there are too many advances.
    BadNumber { field: Field, place: Spot },
    /// I5: this node, counted from 0, can't be put into the document.
    BadNode { node: u32, fault: EditFault },
    /// I6: a declaration of this node names no property, or has a text that is none of its values;
    /// `known` says that the property is one.
    BadDecl { node: u32, known: bool },
    /// I7: more than 16 editors.
    TooManyEditors,
    /// I8: more than 8,192 commands, or more than 256 that read.
    TooManyCommands,
    /// I10: the batch that this command is has more than 1,024 edits.
    BatchTooLong { editor: u32, index: u32 },
    /// I11: the style sheet has more than 4,096 selectors. It is found where the sheet is read (`styled`).
    TooManySelectors,
    /// Memory ran out.
    NoMemory,
}

impl From<NoMemory> for InputFault {
    ghost use Rattle.std.specs.Prelude.{◌≡◌};
    ghost use Rattle.lay_json.specs.declared.fault.InputFault.TheVariants.{NoMemory as ran_out};

    ghost from_gives = { λ _ e. e ≡ ran_out };

    fn from(_: NoMemory) -> InputFault {
        InputFault::NoMemory
    }
}

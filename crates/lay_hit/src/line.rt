//! The line that says which piece is seen.

ghost use Rattle.std.specs.Prelude.{◌≡◌, ◌++◌, IfOk, OnOk, codes, string_bytes};
ghost use Rattle.std.specs.Fmt.{decimal};
ghost use Rattle.lay_frag.specs.Lines.{kind_word};
ghost use Rattle.lay_hit.specs.HitLines.{hit_line, piece_name};

use lay_frag::{Frag, kind_word};
use lay_units::{NoMemory, Text};
use std::alloc::Global;
use std::fmt::Write;

/// The line of the piece that is seen: its kind, its node and its part, or that none is.
pub fn hit_line(alloc: Global, seen: Option<Frag>) -> Result<Text, NoMemory>
    ensures { IfOk result (λ t. t ≡ hit_line seen) }
{
    let mut text = String::from_str(alloc, "hit ")?;
    match seen {
        Some(frag) => push_name(&mut text, frag)?,
        None => text.push_str("none")?,
    }
    text.push_str("\n")?;
    Ok(Text::new(text))
}

fn push_name(text: &mut String, frag: Frag) -> Result<(), NoMemory>
    ensures { OnOk result (string_bytes text.new ≡ string_bytes text.old ++ piece_name frag) }
{
    text.push_str(kind_word(frag.kind))?;
    push_count(text, frag.node.0)?;
    push_count(text, frag.part)?;
    Ok(())
}

fn push_count(text: &mut String, n: u32) -> Result<(), NoMemory>
    ensures { OnOk result (string_bytes text.new ≡ string_bytes text.old ++ codes " " ++ decimal n) }
{
    write!(text, " {n}")?;
    Ok(())
}

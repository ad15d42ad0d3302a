//! The line of a verdict.

ghost use Rattle.std.specs.Prelude.{◌≡◌, ◌++◌, IfOk, OnOk, codes, string_bytes};
ghost use Rattle.std.specs.Fmt.{decimal};
ghost use Rattle.lay_audit.specs.Check.Judging.{verdict_line};

use crate::Verdict;
use lay_report::push_number;
use lay_units::{NoMemory, Text};
use std::alloc::Global;

/// The line that says what was found of a report.
pub(crate) fn verdict_line(alloc: Global, verdict: Verdict) -> Result<Text, NoMemory>
    ensures { IfOk result (λ t. t ≡ verdict_line verdict) }
{
    let mut text = String::new(alloc);
    match verdict {
        Verdict::Yes => text.push_str("yes\n")?,
        Verdict::No(number) => push_no(&mut text, number)?,
    }
    Ok(Text::new(text))
}

fn push_no(text: &mut String, number: u64) -> Result<(), NoMemory>
    ensures { OnOk result (string_bytes text.new ≡ string_bytes text.old ++ codes "no " ++ decimal number ++ codes "\n") }
{
    push_number(text, "no ", number)?;
    text.push_str("\n")?;
    Ok(())
}

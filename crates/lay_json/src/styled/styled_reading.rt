//! The run that bytes say, styled by their sheet.

ghost use Rattle.std.specs.Prelude.{◌≢◌, Err, IfOk};
ghost use Rattle.lay_json.specs.Styled.StyledReading.{IsStyledRun, IsStyledBy, IsStyledInput, IsStyledReading};

use crate::styled::by_place::by_place;
use crate::{InputFault, SheetIn, read_input};
use lay_cascade::node_names::NamesList;
use lay_cascade::styled::styled;
use lay_run::RunDoc;
use lay_sheet::{Sheet, read_sheet, selectors};
use lay_units::{NoMemory, Text};
use std::alloc::Global;

/// The most selectors of a sheet.
const MOST_SELECTORS: u64 = 4096;

/// The run whose document a sheet has styled.
fn styled_run(
    alloc: Global,
    run: RunDoc,
    sheet: &Sheet,
    names: NamesList,
) -> Result<RunDoc, NoMemory>
    ensures { IfOk result (IsStyledRun run sheet.now names) }
{
    let (doc, face, scripts, listed) = run.into_parts();
    let names = by_place(alloc, &doc, listed.as_slice(), names)?;
    match styled(alloc, doc, sheet, names.as_slice()) {
        Ok(doc) => Ok(RunDoc::new(doc, face, scripts, listed)),
        Err(_) => Err(NoMemory),
    }
}

/// The run whose document the sheet of this text has styled, where it hasn't too many selectors.
fn styled_by(
    alloc: Global,
    run: RunDoc,
    text: &Text,
    names: NamesList,
) -> Result<RunDoc, InputFault>
    ensures { result ≢ Err InputFault.NoMemory → IsStyledBy run text.now names result }
{
    let sheet = read_sheet(alloc, text.as_str())?;
    if selectors(&sheet) > MOST_SELECTORS {
        return Err(InputFault::TooManySelectors);
    }
    Ok(styled_run(alloc, run, &sheet, names)?)
}

/// The run, styled by its sheet where it has one.
pub(crate) fn styled_input(alloc: Global, run: RunDoc, input: SheetIn) -> Result<RunDoc, InputFault>
    ensures { result ≢ Err InputFault.NoMemory → IsStyledInput run input result }
{
    let SheetIn { sheet, names } = input;
    match sheet {
        Some(text) => styled_by(alloc, run, &text, names),
        None => Ok(run),
    }
}

/// The run that the bytes of a run document say, styled by its sheet where it has one, or their first fault.
pub fn read_styled(alloc: Global, bytes: &[u8]) -> Result<RunDoc, InputFault>
    ensures { result ≢ Err InputFault.NoMemory → IsStyledReading bytes.now result }
{
    match read_input(alloc, bytes) {
        Ok((run, input)) => styled_input(alloc, run, input),
        Err(fault) => Err(fault),
    }
}

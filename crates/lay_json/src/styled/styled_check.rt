//! The run and the report of a check, the run styled by its sheet.

ghost use Rattle.std.specs.Prelude.{◌≢◌, Err};
ghost use Rattle.lay_json.specs.Styled.StyledChecks.{IsCheckStyled, IsStyledCheck};

use crate::styled::check::Check;
use crate::styled::styled_reading::styled_input;
use crate::{CheckIn, InputFault, read_check};
use std::alloc::Global;

/// A check whose run its sheet has styled.
fn styled_check(alloc: Global, check: CheckIn) -> Result<Check, InputFault>
    ensures { result ≢ Err InputFault.NoMemory → IsCheckStyled check result }
{
    let CheckIn { run, sheet, report } = check;
    match styled_input(alloc, run, sheet) {
        Ok(styled) => Ok(Check {
            run: styled,
            report,
        }),
        Err(fault) => Err(fault),
    }
}

/// The run that the bytes of a check say, styled by its sheet where it has one, with the report, or their first fault.
pub fn read_styled_check(alloc: Global, bytes: &[u8]) -> Result<Check, InputFault>
    ensures { result ≢ Err InputFault.NoMemory → IsStyledCheck bytes.now result }
{
    match read_check(alloc, bytes) {
        Ok(check) => styled_check(alloc, check),
        Err(fault) => Err(fault),
    }
}

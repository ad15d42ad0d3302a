//! Texts, line by line.

ghost use Rattle.std.specs.Prelude.{◌≡◌, IfErr, IfOk};
ghost use Rattle.lay_audit.specs.Lines.{behind_line, first_line};
ghost use Rattle.lay_audit.specs.Readings.{IsFrontOf, PartsFrom};
ghost use Rattle.lay_audit.specs.WholeLines.{IsOfLines};

use crate::lines::behind;

/// The first line of a text, and what stands behind it.
pub(crate) fn split_line(text: &[u8]) -> (&[u8], &[u8])
    ensures first { result.0.now ≡ first_line text.now }
    ensures rest { result.1.now ≡ behind_line text.now }
{
    for (i, b) in text.iter().enumerate() {
        if *b == b'\n' {
            return text.split_at(i + 1);
        }
    }
    text.split_at(text.len())
}

/// Goes along the lines of a text as long as those of another one are the same: how many there are, and what stands
/// behind them; or after how many another line stands.
pub(crate) fn compare<'a>(wanted: &[u8], text: &'a [u8]) -> Result<(u64, &'a [u8]), u64>
    requires { IsOfLines wanted.now }
    ensures ok { IfOk result (λ r. IsFrontOf wanted.now text.now r.0 r.1.now) }
    ensures err { IfErr result (PartsFrom wanted.now text.now) }
{
    let _most = text.len();
    let mut left = wanted;
    let mut rest = text;
    let mut lines = 0;
    while !left.is_empty() {
        let (line, next) = split_line(left);
        let Some(more) = behind(rest, line) else {
            return Err(lines);
        };
        left = next;
        rest = more;
        lines += 1;
    }
    Ok((lines, rest))
}

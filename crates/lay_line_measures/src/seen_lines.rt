//! Lines that are seen.

ghost use Rattle.std.specs.Prelude.{◌≡◌};
ghost use Rattle.std.specs.List.{list_any};
ghost use Rattle.lay_line_measures.specs.SeenLines.{has_seen_line, is_seen};

use lay_lines::content::{Part, Stretch};

/// Whether some line of this content is seen (CSS 2.2, 9.4.2), however it falls into lines.
pub fn has_seen_line(stretches: &[Stretch]) -> bool
    ensures { result ≡ has_seen_line stretches.now }
{
    for k in 0..stretches.len() {
        if has_seen_part(stretches[k].parts.as_slice()) {
            return true;
        }
    }
    false
}

fn has_seen_part(parts: &[Part]) -> bool
    ensures { result ≡ list_any is_seen parts.now }
{
    parts.iter().any(|part| is_seen(*part))
}

fn is_seen(part: Part) -> bool
    ensures { result ≡ is_seen part }
{
    match part {
        Part::Space(_) => false,
        Part::PreservedSpace(_) | Part::Tab(_) | Part::Linefeed | Part::Text(_) | Part::Atomic(_) =>
            true,
        Part::Start(start) => start.seen,
        Part::End(end) => end.seen,
    }
}

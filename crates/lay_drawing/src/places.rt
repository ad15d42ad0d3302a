//! Which line may stand where, and which shows the wanted tree.

ghost use Rattle.std.specs.Prelude.{◌≡◌};
ghost use Rattle.lay_drawing.specs.Reports.{place_behind_line, after_entry, after_read, after_final, after_piece};
ghost use Rattle.lay_drawing.specs.Reports.{after_laid, is_report_whole, is_wanted_version, shows, shows_read, shows_final};

use crate::line::Line;

/// Where the next line of a report stands.
#[derive(Clone, Copy)]
pub enum Place {
    /// In the history, where no tree is shown.
    History,
    /// Among the pieces of a tree that is shown in the history.
    Tree,
    /// Among the pieces of the last tree.
    LastTree,
    /// Behind the last line.
    End,
}

/// Where a line leads that stands in a place, if it may stand there.
pub(crate) fn next_place(line: &Line, place: Place) -> Option<Place>
    ensures { result ≡ place_behind_line line.now place }
{
    match line {
        Line::Edit(_, _, _) => after_entry(place),
        Line::Publish(_) => after_entry(place),
        Line::Latest(_, _, shown) => after_read(*shown, place),
        Line::Sync(_, _, shown) => after_read(*shown, place),
        Line::Final(_) => after_final(place),
        Line::Laid(_) => after_laid(place),
        Line::Piece(_) => after_piece(place),
    }
}

fn after_entry(place: Place) -> Option<Place>
    ensures { result ≡ after_entry place }
{
    match place {
        Place::History | Place::Tree => Some(Place::History),
        Place::LastTree | Place::End => None,
    }
}

fn after_read(shown: Option<u64>, place: Place) -> Option<Place>
    ensures { result ≡ after_read shown place }
{
    match shown {
        None => after_entry(place),
        Some(_) => match place {
            Place::History | Place::Tree => Some(Place::Tree),
            Place::LastTree | Place::End => None,
        },
    }
}

fn after_final(place: Place) -> Option<Place>
    ensures { result ≡ after_final place }
{
    match place {
        Place::History | Place::Tree => Some(Place::LastTree),
        Place::LastTree | Place::End => None,
    }
}

fn after_piece(place: Place) -> Option<Place>
    ensures { result ≡ after_piece place }
{
    match place {
        Place::Tree => Some(Place::Tree),
        Place::LastTree => Some(Place::LastTree),
        Place::History | Place::End => None,
    }
}

fn after_laid(place: Place) -> Option<Place>
    ensures { result ≡ after_laid place }
{
    match place {
        Place::LastTree => Some(Place::End),
        Place::History | Place::Tree | Place::End => None,
    }
}

/// Whether a report may end there.
pub(crate) fn is_whole(place: Place) -> bool
    ensures { result ≡ is_report_whole place }
{
    match place {
        Place::LastTree | Place::End => true,
        Place::History | Place::Tree => false,
    }
}

/// Whether the line shows the wanted tree: that of a version, or else the last one.
pub(crate) fn shows(wanted: Option<u64>, line: &Line) -> bool
    ensures { result ≡ shows wanted line.now }
{
    match line {
        Line::Latest(_, _, shown) => shows_read(wanted, *shown),
        Line::Sync(_, _, shown) => shows_read(wanted, *shown),
        Line::Final(version) => shows_final(wanted, *version),
        _ => false,
    }
}

fn shows_read(wanted: Option<u64>, shown: Option<u64>) -> bool
    ensures { result ≡ shows_read wanted shown }
{
    match shown {
        None => false,
        Some(version) => is_version(wanted, version),
    }
}

fn is_version(wanted: Option<u64>, version: u64) -> bool
    ensures { result ≡ is_wanted_version wanted version }
{
    match wanted {
        None => false,
        Some(wanted) => version == wanted,
    }
}

fn shows_final(wanted: Option<u64>, version: u64) -> bool
    ensures { result ≡ shows_final wanted version }
{
    match wanted {
        None => true,
        Some(wanted) => version == wanted,
    }
}

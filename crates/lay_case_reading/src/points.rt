//! Points of a run.

use lay_outside::Point;
use lay_units::NoMemory;
use std::alloc::Global;

/// The points that a text names with commas between them; None where one is none.
pub(crate) fn points(alloc: Global, text: &str) -> Result<Option<Vec<Point>>, NoMemory> {
    let mut points = Vec::new(alloc);
    for text in text.split(", ") {
        let Some(point) = point(text) else {
            return Ok(None);
        };
        points.push(point)?;
    }
    Ok(Some(points))
}

/// `LayStart NUMBER`, `LayEnd NUMBER`, `CallStart EDITOR INDEX` or `CallEnd EDITOR INDEX`; None where a text is none of these.
pub fn point(text: &str) -> Option<Point> {
    let (name, numbers) = text.split_once(' ')?;
    match numbers.split_once(' ') {
        None => lay_point(name, numbers.parse::<u64>().ok()?),
        Some((editor, index)) => call_point(
            name,
            editor.parse::<u32>().ok()?,
            index.parse::<u32>().ok()?,
        ),
    }
}

fn lay_point(name: &str, number: u64) -> Option<Point> {
    match name {
        "LayStart" => Some(Point::LayStart(number)),
        "LayEnd" => Some(Point::LayEnd(number)),
        _ => None,
    }
}

fn call_point(name: &str, editor: u32, index: u32) -> Option<Point> {
    match name {
        "CallStart" => Some(Point::CallStart(editor, index)),
        "CallEnd" => Some(Point::CallEnd(editor, index)),
        _ => None,
    }
}

//! The terms of a call: its words, how its source and sink behave, and which threads are to meet.

use lay_case_reading::point;
use lay_outside::Point;

/// The terms of a call.
#[derive(Clone, Copy)]
pub struct Terms<'a> {
    words: &'a str,
    document: Option<&'a str>,
    reading: Steps,
    writing: Steps,
    room: usize,
    front: Option<usize>,
    shows_kept: bool,
    hold: Option<Point>,
    until: Option<Point>,
    sweep: Option<Sweep>,
}

/// Which calls a case makes in a row (`sweep.rt` of lay_cases).
#[derive(Clone, Copy)]
pub enum Sweep {
    Reads,
    Writes,
    Fronts,
}

/// How many bytes a stream takes at most in a call, and the number of the call that fails, from 1; 0 where none does.
#[derive(Clone, Copy)]
pub struct Steps {
    pub most: usize,
    pub failing: u64,
}

const EASY: Steps = Steps {
    most: 4096,
    failing: 0,
};

/// The terms of a document that is laid out from scratch, between streams that don't fail.
pub const PLAIN: Terms<'static> = Terms {
    words: "scratch",
    document: None,
    reading: EASY,
    writing: EASY,
    room: 65536,
    front: None,
    shows_kept: false,
    hold: None,
    until: None,
    sweep: None,
};

impl Sweep {
    fn read(word: &str) -> Option<Sweep> {
        match word {
            "reads" => Some(Sweep::Reads),
            "writes" => Some(Sweep::Writes),
            "fronts" => Some(Sweep::Fronts),
            _ => None,
        }
    }
}

impl<'a> Terms<'a> {
    /// The terms of a line, `KEY VALUE, KEY VALUE ..`, and else the plain ones; None where a key is none.
    pub fn read(line: &'a str) -> Option<Terms<'a>> {
        let mut terms = PLAIN;
        if !line.is_empty() {
            for term in line.split(", ") {
                terms.set(term)?;
            }
        }
        Some(terms)
    }

    fn set(&mut self, term: &'a str) -> Option<()> {
        let (key, value) = term.split_once(' ')?;
        match key {
            "words" => self.words = value,
            "document" => self.document = Some(value),
            "hold" => self.hold = Some(point(value)?),
            "until" => self.until = Some(point(value)?),
            "sweep" => self.sweep = Some(Sweep::read(value)?),
            _ => return self.set_number(key, value.parse::<usize>().ok()?),
        }
        Some(())
    }

    fn set_number(&mut self, key: &str, number: usize) -> Option<()> {
        match key {
            "room" => self.room = number,
            "front" => self.front = Some(number),
            "show-kept" => self.shows_kept = number > 0,
            "read-step" => self.reading.most = number,
            "read-fails" => self.reading.failing = number as u64,
            "write-step" => self.writing.most = number,
            "write-fails" => self.writing.failing = number as u64,
            _ => return None,
        }
        Some(())
    }

    /// The words of the command line, parted by blanks.
    pub fn words(&self) -> &'a str {
        self.words
    }

    /// The document's name from the data folder on, where the case has none of its own.
    pub fn document(&self) -> Option<&'a str> {
        self.document
    }

    /// How the source behaves.
    pub fn reading(&self) -> Steps {
        self.reading
    }

    /// How the sink behaves.
    pub fn writing(&self) -> Steps {
        self.writing
    }

    /// How many bytes the sink takes.
    pub fn room(&self) -> usize {
        self.room
    }

    /// Whether the answer tells the core that is kept.
    pub fn shows_kept(&self) -> bool {
        self.shows_kept
    }

    /// The point where a thread is to be held, and the one that another thread is to reach meanwhile.
    pub fn meeting(&self) -> Option<(Point, Point)> {
        match (self.hold, self.until) {
            (Some(hold), Some(until)) => Some((hold, until)),
            _ => None,
        }
    }

    /// How many bytes of the answer are wanted, where it isn't all of them.
    pub fn front(&self) -> Option<usize> {
        self.front
    }

    /// Which calls are made in a row; None where there is one call.
    pub fn sweep(&self) -> Option<Sweep> {
        self.sweep
    }

    /// The same terms, but that the call of this number of one stream fails.
    pub fn failing(&self, sweep: Sweep, number: u64) -> Terms<'a> {
        let mut terms = *self;
        match sweep {
            Sweep::Reads => terms.reading.failing = number,
            Sweep::Writes => terms.writing.failing = number,
            Sweep::Fronts => {}
        }
        terms
    }
}

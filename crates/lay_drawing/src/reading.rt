//! A report that is read byte by byte: where it is, and the pieces of the wanted tree so far.
ghost use Rattle.std.specs.Prelude.{◌≡◌, ◌+◌, ◌∷◌, [], ◌++◌, ◌&&◌, ◌||◌, not, if◌then◌else◌, OnOk, OnErr, IfErr, ℕ, List};
ghost use Rattle.lay_drawing.specs.Lines.{IsLine};
ghost use Rattle.lay_drawing.specs.Reports.{is_piece, piece_in, shows};
ghost use Rattle.lay_drawing.specs.States.{HasRead, Adds, CantAdd, IsNextLineNumber, Reads, Stops, WasReport, StopsAtEnd};

use crate::fields::read_line;
use crate::line::Line;
use crate::places::{Place, is_whole, next_place, shows};
use crate::state::{Reading, Stop};
use lay_frag::Frag;
use lay_units::NoMemory;
use std::alloc::Global;

/// The most bytes of a line.
const LONGEST: usize = 200;

impl Reading {
    /// Nothing was read so far.
    pub(crate) fn new(alloc: Global, wanted: Option<u64>) -> Reading
        ensures wanted { result.wanted ≡ wanted }
        ensures read { HasRead result [] }
    {
        Reading {
            wanted,
            place: Place::History,
            count: 0,
            is_shown: false,
            is_open: false,
            pieces: Vec::new(alloc),
            text: Vec::new(alloc),
        }
    }

    /// Reads these bytes.
    pub(crate) fn read(&mut self, alloc: Global, bytes: &[u8]) -> Result<(), Stop>
        ensures ok { OnOk result (Reads self.old bytes.now self.new) }
        ensures err { IfErr result (Stops self.old bytes.now) }
    {
        for byte in bytes {
            match self.read_byte(alloc, *byte) {
                Ok(()) => {}
                Err(stop) => return Err(stop),
            }
        }
        Ok(())
    }

    fn read_byte(&mut self, alloc: Global, byte: u8) -> Result<(), Stop>
        ensures ok { OnOk result (Reads self.old (byte ∷ []) self.new) }
        ensures err { IfErr result (Stops self.old (byte ∷ [])) }
    {
        if byte == b'\n' {
            return self.end_line(alloc);
        }
        if self.text.len() == LONGEST {
            return Err(self.bad_line());
        }
        push_byte(&mut self.text, byte)
    }

    /// Reads the line that is ended.
    fn end_line(&mut self, alloc: Global) -> Result<(), Stop>
        ensures ok { OnOk result (Reads self.old (10 ∷ []) self.new) }
        ensures err { IfErr result (Stops self.old (10 ∷ [])) }
    {
        let Ok(line) = read_line(alloc, &self.text) else {
            return Err(Stop::NoMemory);
        };
        let Some(line) = line else {
            return Err(self.bad_line());
        };
        match self.add(&line) {
            Ok(()) => {
                self.text.clear();
                Ok(())
            }
            Err(stop) => Err(stop),
        }
    }

    /// Adds a line, if it may stand here.
    fn add(&mut self, line: &Line) -> Result<(), Stop>
        requires { IsLine line.now }
        ensures ok { OnOk result (Adds self.old line.now self.new) }
        ensures err { IfErr result (CantAdd self.old line.now) }
    {
        let Some(place) = next_place(line, self.place) else {
            return Err(self.bad_line());
        };
        let Some(count) = self.count.checked_add(1) else {
            return Err(Stop::NoMemory);
        };
        self.keep(line)?;
        self.place = place;
        self.count = count;
        Ok(())
    }

    /// Keeps a piece of the wanted tree.
    fn keep(&mut self, line: &Line) -> Result<(), Stop>
        requires { IsLine line.now }
        ensures same { (self.new.place ≡ self.old.place) × (self.new.count ≡ self.old.count)
            × (self.new.wanted ≡ self.old.wanted) × (self.new.text ≡ self.old.text) }
        ensures shown { OnOk result
            (self.new.is_shown ≡ (if self.old.is_open then self.old.is_shown else self.old.is_shown || shows self.old.wanted line.now)) }
        ensures open { OnOk result
            (self.new.is_open ≡ (if self.old.is_open then is_piece line.now else not self.old.is_shown && shows self.old.wanted line.now)) }
        ensures pieces { OnOk result
            (self.new.pieces.items ≡ self.old.pieces.items ++ (if self.old.is_open then piece_in line.now else [])) }
        ensures err { IfErr result (λ e. e ≡ Stop.NoMemory) }
    {
        if self.is_open {
            match line {
                Line::Piece(f) => push_piece(&mut self.pieces, *f)?,
                _ => self.is_open = false,
            }
        } else if !self.is_shown && shows(self.wanted, line) {
            self.is_shown = true;
            self.is_open = true;
        }
        Ok(())
    }

    /// Nothing comes any more.
    pub(crate) fn end(&self) -> Result<(), Stop>
        ensures ok { OnOk result ((bytes : List ℕ) → HasRead self.now bytes → WasReport self.now bytes) }
        ensures err { IfErr result (StopsAtEnd self.now) }
    {
        if self.text.is_empty() && is_whole(self.place) {
            Ok(())
        } else {
            Err(self.bad_line())
        }
    }

    fn bad_line(&self) -> Stop
        ensures { IsNextLineNumber self.now.count result }
    {
        match self.count.checked_add(1) {
            Some(number) => Stop::BadLine(number),
            None => Stop::NoMemory,
        }
    }
}

fn push_byte(text: &mut Vec<u8>, byte: u8) -> Result<(), Stop>
    ensures ok { OnOk result (text.new.items ≡ text.old.items ++ byte ∷ []) }
    ensures err { IfErr result (λ e. e ≡ Stop.NoMemory) }
{
    match text.push(byte) {
        Ok(()) => Ok(()),
        Err(_) => Err(Stop::NoMemory),
    }
}

fn push_piece(pieces: &mut Vec<Frag>, piece: Frag) -> Result<(), Stop>
    ensures ok { OnOk result (pieces.new.items ≡ pieces.old.items ++ piece ∷ []) }
    ensures same { OnErr result (pieces.new.items ≡ pieces.old.items) }
    ensures err { IfErr result (λ e. e ≡ Stop.NoMemory) }
{
    match pieces.push(piece) {
        Ok(()) => Ok(()),
        Err(_) => Err(Stop::NoMemory),
    }
}

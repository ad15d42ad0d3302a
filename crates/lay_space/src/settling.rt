//! Content, cut where its breaks settle.

ghost use Rattle.std.specs.Prelude.{◌≡◌, [], ◌∷◌, ◌++◌, List, None, false, IfOk, OnOk};
ghost use Rattle.lay_space.specs.declared.breaks.Entry.{Entry};
ghost use Rattle.lay_space.specs.declared.breaks.Entry.TheVariants as entry;
ghost use Rattle.lay_space.specs.Breaks.{front_break, back_break, settled, goes_back, waits, is_start, flushed};
ghost use Rattle.lay_space.specs.Segments.{cut, segments_of};

use crate::breaks::{Around, Entry, Seen, breaks_around, is_start};
use crate::cutting::Cutter;
use crate::item::Item;
use crate::segment::SegmentList;
use crate::tokens::{Token, tokens_of};
use lay_units::NoMemory;
use std::alloc::Global;

/// The segments of inline content that white space processing left, with the widths of the clusters of
/// its texts (CSS 2.2, 16.6 and 9.4.2).
pub fn segments(alloc: Global, items: &[Item]) -> Result<SegmentList, NoMemory>
    ensures { IfOk result (λ l. l ≡ segments_of items.now) }
{
    let tokens = tokens_of(alloc, items)?;
    let mut settler = Settler {
        cutter: Cutter::new(alloc, tokens.len())?,
        at: None,
        started: false,
        waiting: Vec::new(alloc),
    };
    let mut seen = Seen {
        solid: false,
        atomic: None,
    };
    for k in 0..tokens.len() {
        let around = breaks_around(tokens[k], &tokens[k + 1..], seen);
        settler.put_with_breaks(alloc, items, tokens[k], around)?;
        seen = around.seen;
    }
    settler.end(alloc, items)
}

/// The segments so far; the break behind which things may still go back, whether the start of an inline box waits behind
/// it, over which no end goes back, and all that waits there.
#[derive(Drop)]
struct Settler {
    cutter: Cutter,
    at: Option<bool>,
    started: bool,
    waiting: Vec<Entry>,
}

impl Settler {
    /// Puts a token with the breaks before and after it.
    fn put_with_breaks(
        &mut self,
        alloc: Global,
        items: &[Item],
        token: Token,
        around: Around,
    ) -> Result<(), NoMemory>
        ensures { OnOk result ((xs : List Entry)
            → self.old.cutter.done.items ++ cut items.now self.old.cutter.current.items self.old.cutter.held.items
            (settled self.old.at self.old.started self.old.waiting.items
            (front_break around.before ++ entry.Content token ∷ back_break around.after ++ xs))
            ≡ self.new.cutter.done.items ++ cut items.now self.new.cutter.current.items self.new.cutter.held.items
            (settled self.new.at self.new.started self.new.waiting.items xs)) }
    {
        self.put_front(alloc, items, around.before)?;
        self.put_content(alloc, items, token)?;
        self.put_back(alloc, items, around.after)
    }

    fn put_front(&mut self, alloc: Global, items: &[Item], here: bool) -> Result<(), NoMemory>
        ensures { OnOk result ((xs : List Entry)
            → self.old.cutter.done.items ++ cut items.now self.old.cutter.current.items self.old.cutter.held.items
            (settled self.old.at self.old.started self.old.waiting.items (front_break here ++ xs))
            ≡ self.new.cutter.done.items ++ cut items.now self.new.cutter.current.items self.new.cutter.held.items
            (settled self.new.at self.new.started self.new.waiting.items xs)) }
    {
        if here {
            self.put_break(alloc, items, false)?;
        }
        Ok(())
    }

    fn put_back(
        &mut self,
        alloc: Global,
        items: &[Item],
        here: Option<bool>,
    ) -> Result<(), NoMemory>
        ensures { OnOk result ((xs : List Entry)
            → self.old.cutter.done.items ++ cut items.now self.old.cutter.current.items self.old.cutter.held.items
            (settled self.old.at self.old.started self.old.waiting.items (back_break here ++ xs))
            ≡ self.new.cutter.done.items ++ cut items.now self.new.cutter.current.items self.new.cutter.held.items
            (settled self.new.at self.new.started self.new.waiting.items xs)) }
    {
        if let Some(forced) = here {
            self.put_break(alloc, items, forced)?;
        }
        Ok(())
    }

    fn put_break(&mut self, alloc: Global, items: &[Item], forced: bool) -> Result<(), NoMemory>
        ensures { OnOk result ((xs : List Entry)
            → self.old.cutter.done.items ++ cut items.now self.old.cutter.current.items self.old.cutter.held.items
            (settled self.old.at self.old.started self.old.waiting.items (entry.Break forced ∷ xs))
            ≡ self.new.cutter.done.items ++ cut items.now self.new.cutter.current.items self.new.cutter.held.items
            (settled self.new.at self.new.started self.new.waiting.items xs)) }
    {
        self.flush(alloc, items)?;
        self.at = Some(forced);
        self.started = false;
        Ok(())
    }

    fn put_content(&mut self, alloc: Global, items: &[Item], token: Token) -> Result<(), NoMemory>
        ensures { OnOk result ((xs : List Entry)
            → self.old.cutter.done.items ++ cut items.now self.old.cutter.current.items self.old.cutter.held.items
            (settled self.old.at self.old.started self.old.waiting.items (entry.Content token ∷ xs))
            ≡ self.new.cutter.done.items ++ cut items.now self.new.cutter.current.items self.new.cutter.held.items
            (settled self.new.at self.new.started self.new.waiting.items xs)) }
    {
        let Some(forced) = self.at else {
            return self.put_behind(alloc, items, token);
        };
        if goes_back(token, forced, self.started) {
            return self.cutter.put_token(alloc, items, token);
        }
        if waits(token) {
            self.waiting.push(Entry::Content(token))?;
            self.started = self.started || is_start(token);
            return Ok(());
        }
        self.put_behind(alloc, items, token)
    }

    /// Puts a token behind the break that things may go back behind, and what waits there.
    fn put_behind(&mut self, alloc: Global, items: &[Item], token: Token) -> Result<(), NoMemory>
        ensures put { OnOk result ((xs : List Entry)
            → self.old.cutter.done.items ++ cut items.now self.old.cutter.current.items self.old.cutter.held.items
            (flushed self.old.at self.old.waiting.items ++ entry.Content token ∷ xs)
            ≡ self.new.cutter.done.items ++ cut items.now self.new.cutter.current.items self.new.cutter.held.items xs) }
        ensures at { OnOk result (self.new.at ≡ None) }
        ensures started { OnOk result (self.new.started ≡ false) }
        ensures waiting { OnOk result (self.new.waiting.items ≡ []) }
    {
        self.flush(alloc, items)?;
        self.cutter.put_token(alloc, items, token)?;
        self.at = None;
        self.started = false;
        Ok(())
    }

    /// Puts the break that things may go back behind, and what waits there.
    fn flush(&mut self, alloc: Global, items: &[Item]) -> Result<(), NoMemory>
        ensures put { OnOk result ((xs : List Entry)
            → self.old.cutter.done.items ++ cut items.now self.old.cutter.current.items self.old.cutter.held.items
            (flushed self.old.at self.old.waiting.items ++ xs)
            ≡ self.new.cutter.done.items ++ cut items.now self.new.cutter.current.items self.new.cutter.held.items xs) }
        ensures waiting { OnOk result (self.new.waiting.items ≡ []) }
    {
        if let Some(forced) = self.at {
            self.cutter.put_break(alloc, items, forced)?;
        }
        if self.waiting.is_empty() {
            return Ok(());
        }
        self.cutter.put_all(alloc, items, &self.waiting)?;
        self.waiting.clear();
        Ok(())
    }

    fn end(self, alloc: Global, items: &[Item]) -> Result<SegmentList, NoMemory>
        ensures { IfOk result (λ l. l ≡ self.cutter.done.items ++ cut items.now self.cutter.current.items
            self.cutter.held.items (settled self.at self.started self.waiting.items [])) }
    {
        let mut settler = self;
        settler.flush(alloc, items)?;
        settler.cutter.end(alloc, items)?;
        Ok(SegmentList::new(settler.cutter.done))
    }
}

fn goes_back(token: Token, forced: bool, started: bool) -> bool
    ensures { result ≡ goes_back token forced started }
{
    match token {
        Token::TextEnd | Token::End(_) => !started,
        Token::Float(_) | Token::Anchor(_) => !forced,
        _ => false,
    }
}

fn waits(token: Token) -> bool
    ensures { result ≡ waits token }
{
    match token {
        Token::Cluster(_) | Token::Atomic(_, _) => false,
        Token::Start(_, takes_room) => !takes_room,
        _ => true,
    }
}

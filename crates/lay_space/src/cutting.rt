//! Content, cut at its breaks.

ghost use Rattle.std.specs.Prelude.{
  ◌≡◌,
  IsTrue,
  [],
  ◌∷◌,
  ◌++◌,
  List,
  true,
  false,
  ◌&&◌,
  ◌||◌,
  IfOk,
  OnOk,
  length,
  slice_get,
  option_to_list,
  string_bytes,
};
ghost use Rattle.std.specs.Str.{IsCharBoundary};
ghost use Rattle.lay_units.specs.declared.records.ClusterWidth.{ClusterWidth};
ghost use Rattle.lay_space.specs.declared.breaks.Entry.{Entry};
ghost use Rattle.lay_space.specs.declared.breaks.Entry.TheVariants as entry;
ghost use Rattle.lay_space.specs.Segments.{
  is_boundary,
  is_cluster,
  bytes_between,
  bytes_of,
  cluster_bytes,
  joined,
  placed,
  text_of,
  cut,
};

use crate::breaks::Entry;
use crate::item::{Item, ItemList};
use crate::segment::Segment;
use crate::tokens::{Cluster, Token};
use crate::white_space::push_item;
use lay_units::{ClusterWidth, NoMemory, Text, WidthList};
use std::alloc::Global;
use std::mem;

/// The segments so far, the items since the last break, and the clusters of a text that goes on.
#[derive(Drop)]
pub struct Cutter {
    pub done: Vec<Segment>,
    pub current: Vec<Item>,
    pub held: Vec<Cluster>,
}

impl Cutter {
    /// The cutter that nothing was put into yet, of so many tokens: of a text, half of them most often end segments.
    pub fn new(alloc: Global, tokens: usize) -> Result<Cutter, NoMemory>
        ensures done { IfOk result (λ c. c.done.items ≡ []) }
        ensures current { IfOk result (λ c. c.current.items ≡ []) }
        ensures held { IfOk result (λ c. c.held.items ≡ []) }
    {
        Ok(Cutter {
            done: Vec::with_capacity(alloc, tokens / 2 + 1)?,
            current: Vec::new(alloc),
            held: Vec::with_capacity(alloc, 2)?,
        })
    }

    pub fn put_all(
        &mut self,
        alloc: Global,
        items: &[Item],
        entries: &[Entry],
    ) -> Result<(), NoMemory>
        ensures { OnOk result ((xs : List Entry)
            → self.old.done.items ++ cut items.now self.old.current.items self.old.held.items
            (entries.now ++ xs) ≡ self.new.done.items ++ cut items.now self.new.current.items
            self.new.held.items xs) }
    {
        for k in 0..entries.len() {
            self.put(alloc, items, entries[k])?;
        }
        Ok(())
    }

    fn put(&mut self, alloc: Global, items: &[Item], entry: Entry) -> Result<(), NoMemory>
        ensures { OnOk result ((xs : List Entry)
            → self.old.done.items ++ cut items.now self.old.current.items self.old.held.items
            (entry ∷ xs) ≡ self.new.done.items ++ cut items.now self.new.current.items
            self.new.held.items xs) }
    {
        match entry {
            Entry::Content(token) => self.put_token(alloc, items, token),
            Entry::Break(forced) => self.put_break(alloc, items, forced),
        }
    }

    pub fn put_token(&mut self, alloc: Global, items: &[Item], token: Token) -> Result<(), NoMemory>
        ensures { OnOk result ((xs : List Entry)
            → self.old.done.items ++ cut items.now self.old.current.items self.old.held.items
            (entry.Content token ∷ xs) ≡ self.new.done.items ++ cut items.now self.new.current.items
            self.new.held.items xs) }
    {
        if let Token::Cluster(cluster) = token {
            self.held.push(cluster)?;
            return Ok(());
        }
        self.put_other(alloc, items, token)
    }

    /// Puts what is no cluster.
    fn put_other(&mut self, alloc: Global, items: &[Item], token: Token) -> Result<(), NoMemory>
        requires { is_cluster token ≡ false }
        ensures { OnOk result ((xs : List Entry)
            → self.old.done.items ++ cut items.now self.old.current.items self.old.held.items
            (entry.Content token ∷ xs) ≡ self.new.done.items ++ cut items.now self.new.current.items
            self.new.held.items xs) }
    {
        match token {
            Token::Cluster(_) => Ok(()),
            Token::TextEnd => self.close(alloc, items),
            Token::Atomic(node, mode) => self.put_item(alloc, items, Item::Atomic(node, mode)),
            Token::Start(node, takes_room) => {
                self.put_item(alloc, items, Item::Start(node, takes_room))
            }
            Token::End(node) => self.put_item(alloc, items, Item::End(node)),
            Token::Float(node) => self.put_item(alloc, items, Item::Float(node)),
            Token::Anchor(node) => self.put_item(alloc, items, Item::Anchor(node)),
        }
    }

    pub fn put_break(&mut self, alloc: Global, items: &[Item], forced: bool) -> Result<(), NoMemory>
        ensures done { OnOk result (self.new.done.items
            ≡ self.old.done.items ++ record {
              items = self.old.current.items ++ text_of items.now
                  self.old.held.items;
              forced = forced;
            } ∷ []) }
        ensures current { OnOk result (self.new.current.items ≡ []) }
        ensures held { OnOk result (self.new.held.items ≡ []) }
    {
        let items = self.take(alloc, items)?;
        self.done.push(Segment { items, forced })?;
        Ok(())
    }

    /// Takes the items since the last break, of which most often there is one.
    fn take(&mut self, alloc: Global, items: &[Item]) -> Result<ItemList, NoMemory>
        ensures taken { IfOk result (λ l. l ≡ self.old.current.items ++ text_of items.now self.old.held.items) }
        ensures current { OnOk result (self.new.current.items ≡ []) }
        ensures held { OnOk result (self.new.held.items ≡ []) }
        ensures done { OnOk result (self.new.done.items ≡ self.old.done.items) }
    {
        let text = text_of(alloc, items, &self.held)?;
        self.held.clear();
        if !self.current.is_empty() {
            push_if_any(&mut self.current, text)?;
            return Ok(ItemList::new(mem::replace(&mut self.current, Vec::new(alloc))));
        }
        match text {
            Some(text) => Ok(ItemList::one(text)),
            None => Ok(ItemList::new(Vec::new(alloc))),
        }
    }

    fn put_item(&mut self, alloc: Global, items: &[Item], item: Item) -> Result<(), NoMemory>
        ensures current { OnOk result (self.new.current.items
            ≡ self.old.current.items ++ text_of items.now self.old.held.items ++ item ∷ []) }
        ensures held { OnOk result (self.new.held.items ≡ []) }
        ensures done { OnOk result (self.new.done.items ≡ self.old.done.items) }
    {
        self.close(alloc, items)?;
        push_item(&mut self.current, item)
    }

    /// Ends the text that goes on.
    fn close(&mut self, alloc: Global, items: &[Item]) -> Result<(), NoMemory>
        ensures current { OnOk result (self.new.current.items
            ≡ self.old.current.items ++ text_of items.now self.old.held.items) }
        ensures held { OnOk result (self.new.held.items ≡ []) }
        ensures done { OnOk result (self.new.done.items ≡ self.old.done.items) }
    {
        let text = text_of(alloc, items, &self.held)?;
        push_if_any(&mut self.current, text)?;
        self.held.clear();
        Ok(())
    }

    pub fn end(&mut self, alloc: Global, items: &[Item]) -> Result<(), NoMemory>
        ensures { OnOk result (self.new.done.items
            ≡ self.old.done.items ++ cut items.now self.old.current.items self.old.held.items []) }
    {
        self.close(alloc, items)?;
        if !self.current.is_empty() {
            self.put_break(alloc, items, false)?;
        }
        Ok(())
    }
}

/// The text that these clusters make, if there are any.
fn text_of(alloc: Global, items: &[Item], clusters: &[Cluster]) -> Result<Option<Item>, NoMemory>
    ensures { IfOk result (λ t. option_to_list t ≡ text_of items.now clusters.now) }
{
    let Some(first) = clusters.first() else {
        return Ok(None);
    };
    let joined = join(alloc, items, clusters)?;
    Ok(Some(Item::Text {
        node: first.node,
        text: Text::new(joined.text),
        mode: first.mode,
        widths: WidthList::new(joined.widths),
    }))
}

fn push_if_any(out: &mut Vec<Item>, item: Option<Item>) -> Result<(), NoMemory>
    ensures { OnOk result (out.new.items ≡ out.old.items ++ option_to_list item) }
{
    match item {
        Some(item) => push_item(out, item),
        None => Ok(()),
    }
}

#[derive(Drop)]
struct Joined {
    text: String,
    widths: Vec<ClusterWidth>,
}

fn join(alloc: Global, items: &[Item], clusters: &[Cluster]) -> Result<Joined, NoMemory>
    ensures text { IfOk result (λ j. string_bytes j.text ≡ joined items.now clusters.now) }
    ensures widths { IfOk result (λ j. j.widths.items ≡ placed items.now 0 clusters.now) }
{
    let mut text = String::with_capacity(alloc, room_of(items, clusters))?;
    let mut widths = Vec::with_capacity(alloc, clusters.len())?;
    for k in 0..clusters.len() {
        put_cluster(
            &mut text,
            &mut widths,
            items,
            clusters[k],
            &clusters[k + 1..],
        )?;
    }
    Ok(Joined { text, widths })
}

/// How much room the text of these clusters takes where they follow one another.
fn room_of(items: &[Item], clusters: &[Cluster]) -> usize {
    let (Some(first), Some(last)) = (clusters.first(), clusters.last()) else {
        return 0;
    };
    let most = text_at(items, first.item).len();
    last.to.saturating_sub(first.from).min(most)
}

fn put_cluster(
    text: &mut String,
    widths: &mut Vec<ClusterWidth>,
    items: &[Item],
    cluster: Cluster,
    rest: &[Cluster],
) -> Result<(), NoMemory>
    ensures text { OnOk result (string_bytes text.new ++ joined items.now rest.now
        ≡ string_bytes text.old ++ joined items.now (cluster ∷ rest.now)) }
    ensures widths { OnOk result (widths.new.items ++ placed items.now (length
        (string_bytes text.new)) rest.now ≡ widths.old.items ++ placed items.now (length
        (string_bytes text.old)) (cluster ∷ rest.now)) }
{
    let _ = rest;
    let place = text.len();
    let width = cluster.width;
    let bytes = cluster_text(items, cluster);
    widths.push(ClusterWidth { place, width })?;
    text.push_str(bytes)?;
    Ok(())
}

fn cluster_text(items: &[Item], cluster: Cluster) -> &str
    ensures { result.now ≡ cluster_bytes items.now cluster }
{
    part(text_at(items, cluster.item), cluster.from, cluster.to)
}

fn text_at(items: &[Item], at: usize) -> &str
    ensures { result.now ≡ bytes_of (slice_get items.now at) }
{
    match items.get(at) {
        Some(Item::Text { text, .. }) => text.as_str(),
        _ => "",
    }
}

fn part(text: &str, from: usize, to: usize) -> &str
    ensures { result.now ≡ bytes_between text.now from to }
{
    if from <= to && is_boundary(text, from) && is_boundary(text, to) {
        return &text[from..to];
    }
    ""
}

/// Whether a text may be cut at this byte: a character begins there, or the text ends.
pub fn is_boundary(text: &str, at: usize) -> bool
    ensures test { result ≡ is_boundary text.now at }
    ensures means { IsTrue result → IsCharBoundary text.now at }
{
    let bytes = text.as_bytes();
    if at == bytes.len() {
        return true;
    }
    if at < bytes.len() {
        let byte = bytes[at];
        return byte < 128 || byte > 191;
    }
    false
}

//! How an engine is started, with a pass for each editor.

ghost use Rattle.std.specs.Prelude.{◌≡◌, ℕ, ◌+◌, ◌^◌, ◌≤◌, List, [], ◌∷◌, length, sum, vec_capacity, IfOk};
ghost use Rattle.lay_board.specs.Cores.{origin_of, origin_told, origin_with};
ghost use Rattle.lay_board.specs.Passes.{AreNew, new_pass};
ghost use Rattle.lay_board.specs.Rules.{maker_view};
ghost use Rattle.lay_board.specs.declared.views.Origin.{Origin as AnOrigin};

use crate::engine::Engine;
use crate::pass::Pass;
use crate::table::{CoreSeat, Makes, Shelf, Terms};
use lay_core::Core;
use lay_doc::Doc;
use lay_face::Face;
use lay_units::NoMemory;
use std::alloc::Global;
use std::marker::Model;
use std::snapshot::Snapshot;
use std::sync::{Arc, Mutex};

/// The seat that made the passes, which closes the engine. It stays with whoever started it.
#[derive(Drop)]
pub struct Closer {
    pub(crate) maker: CoreSeat,
    pub(crate) made: u32,
}

impl Model for Closer {
    ghost use Rattle.lay_board.specs.Passes.{CloserOf, IsCloser, maker_in};

    ghost Value = { CloserOf };

    ghost view = { λ c. record { table = c.maker.table_id; origin = (maker_in c.maker.me).origin; made = c.made } };

    ghost invariant = { λ c. IsCloser c.maker.me c.made };
}

/// The passes of an engine, and who closes it.
#[derive(Drop)]
pub struct Passes {
    pub closer: Closer,
    pub items: Vec<Pass>,
}

impl Engine {
    /// An engine over a new core of the document, which is laid out in the face. There is a pass for each of these numbers of calls,
    /// which are so many in all: editors are numbered from 1.
    pub fn start(
        alloc: Global,
        doc: Doc,
        face: Arc<Face>,
        calls: Vec<u32>,
        all: u32,
    ) -> Result<(Engine, Passes), NoMemory>
        requires all { all ≡ sum calls.items }
        requires editors { length calls.items ≤ 16 }
        requires few { sum calls.items ≤ 8192 }
        ensures engine { IfOk result (λ r. r.0.origin ≡ origin_with doc face.value) }
        ensures closer { IfOk result (λ r. r.1.closer
            ≡ record { table = r.0.table; origin = origin_with doc face.value; made = length calls.items }) }
        ensures passes { IfOk result (λ r. AreNew r.0.table (origin_with doc face.value) calls.items r.1.items.items) }
    {
        let made = calls.len();
        let passes = Vec::with_capacity(alloc, made)?;
        let told = terms(&doc, &face, &calls);
        let core = Core::new(alloc, doc, face, all)?;
        let (table, maker) = shelf(alloc, core, &told)?;
        let (maker, items) = make_all(&table, maker, calls, passes);
        let engine = Engine {
            gate: Mutex::new(()),
            table,
        };
        let closer = Closer {
            maker,
            made: made as u32,
        };
        Ok((engine, Passes { closer, items }))
    }
}

/// What the table is told once.
fn terms(doc: &Doc, face: &Face, calls: &Vec<u32>) -> Terms
    ensures document { result.document.value ≡ doc.now }
    ensures face { result.face.value ≡ face.now }
    ensures calls { result.calls.value.items ≡ calls.now.items }
{
    Terms {
        document: Snapshot::of(doc),
        face: Snapshot::of(face),
        calls: Snapshot::of(calls),
    }
}

/// A table with a new core, and the seat that makes passes.
fn shelf(alloc: Global, core: Core, terms: &Terms) -> Result<(Shelf, CoreSeat), NoMemory>
    requires origin { origin_of core ≡ origin_told terms.now }
    requires new { core.history ≡ [] }
    requires calls { sum terms.now.calls.value.items ≤ core.calls_left }
    requires few { core.calls_left ≤ 8192 }
    requires draws { core.cells.draws ≤ 2 ^ 63 }
    ensures told { IfOk result (λ r. r.0.shared.key ≡ terms.now) }
    ensures counts { IfOk result (λ r. (r.0.shared.table_id.words ≡ 2) × (r.0.shared.table_id.slots ≡ 1)
        × (r.1.table_id ≡ r.0.shared.table_id)) }
    ensures maker { IfOk result (λ r. r.1.me ≡ (maker_view (origin_told terms.now) 0 terms.now.calls.value.items, [])) }
{
    let mut slots = Vec::with_capacity(alloc, 1)?;
    slots.push_reserved(Some(core));
    match Shelf::new(alloc, &[0, 0], slots, terms) {
        Ok(made) => Ok(made),
        Err(_) => Err(NoMemory),
    }
}

/// A pass for each of these numbers of calls, and the seat that made them.
fn make_all(
    table: &Shelf,
    mut maker: CoreSeat,
    calls: Vec<u32>,
    mut passes: Vec<Pass>,
) -> (CoreSeat, Vec<Pass>)
    requires table { (maker.table_id ≡ table.now.shared.table_id) × (table.now.shared.table_id.words ≡ 2) }
    requires maker { (i : AnOrigin) × (maker.me ≡ (maker_view i 0 calls.items, [])) }
    requires editors { length calls.items ≤ 16 }
    requires few { sum calls.items ≤ 8192 }
    requires room { (passes.items ≡ []) × (length calls.items ≤ vec_capacity passes) }
    ensures table { result.0.table_id ≡ maker.table_id }
    ensures maker { (i : AnOrigin) → maker.me ≡ (maker_view i 0 calls.items, [])
        → result.0.me ≡ (maker_view i (length calls.items) [], []) }
    ensures passes { (i : AnOrigin) → maker.me ≡ (maker_view i 0 calls.items, [])
        → AreNew table.now.shared.table_id i calls.items result.1.items }
{
    for left in calls {
        let number = passes.len() as u32 + 1;
        passes.push_reserved(next_pass(table, &mut maker, number, left));
    }
    (maker, passes)
}

/// The next pass.
fn next_pass(table: &Shelf, maker: &mut CoreSeat, number: u32, left: u32) -> Pass
    requires table { (maker.old.table_id ≡ table.now.shared.table_id) × (table.now.shared.table_id.words ≡ 2) }
    requires maker { (i : AnOrigin) × (made : ℕ) × (rest : List ℕ)
        × (maker.old.me ≡ (maker_view i made (left ∷ rest), [])) × (number ≡ made + 1) }
    requires few { left ≤ 8192 }
    ensures table { maker.new.table_id ≡ maker.old.table_id }
    ensures maker { (i : AnOrigin) (made : ℕ) (rest : List ℕ) → maker.old.me ≡ (maker_view i made (left ∷ rest), [])
        → maker.new.me ≡ (maker_view i (made + 1) rest, []) }
    ensures pass { (i : AnOrigin) (made : ℕ) (rest : List ℕ) → maker.old.me ≡ (maker_view i made (left ∷ rest), [])
        → result ≡ record { table = table.now.shared.table_id; knows = new_pass i (made + 1) left } }
{
    let seat = table.shared.split_seat::<Makes>(maker);
    Pass {
        seat,
        editor: number,
        index: 0,
        left,
        seen: 0,
    }
}

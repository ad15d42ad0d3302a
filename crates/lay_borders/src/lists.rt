//! Lists of borders.

ghost use Rattle.std.specs.Prelude.{◌≡◌};

use crate::candidate::Cand;
use std::marker::Model;

/// The borders that meet at an edge.
#[derive(Drop)]
pub struct CandList {
    items: Vec<Cand>,
}

impl Model for CandList {
    ghost use Rattle.std.specs.Prelude.{List};
    ghost use Rattle.lay_borders.specs.declared.candidate.Cand.{Cand};

    ghost Value = { List Cand };

    ghost view = { λ l. l.items.items };
}

impl CandList {
    /// The list of these borders, which is taken over without a copy.
    pub fn new(items: Vec<Cand>) -> CandList
        ensures { result ≡ items.items }
    {
        CandList { items }
    }

    /// The borders, in order.
    pub fn as_slice(&self) -> &[Cand]
        ensures { result.now ≡ self.now }
    {
        self.items.as_slice()
    }
}

/// The borders that meet at the edges, edge by edge.
#[derive(Drop)]
pub struct CandLists {
    items: Vec<CandList>,
}

impl Model for CandLists {
    ghost use Rattle.std.specs.Prelude.{List};
    ghost use Rattle.lay_borders.specs.declared.candidate.Cand.{Cand};

    ghost Value = { List (List Cand) };

    ghost view = { λ l. l.items.items };
}

impl CandLists {
    /// The list of these lists, which is taken over without a copy.
    pub fn new(items: Vec<CandList>) -> CandLists
        ensures { result ≡ items.items }
    {
        CandLists { items }
    }

    /// The lists, in order.
    pub fn as_slice(&self) -> &[CandList]
        ensures { result.now ≡ self.now }
    {
        self.items.as_slice()
    }
}

/// The borders of edges, each None where none is there.
#[derive(Drop)]
pub struct CandOptions {
    items: Vec<Option<Cand>>,
}

impl Model for CandOptions {
    ghost use Rattle.std.specs.Prelude.{List, Option};
    ghost use Rattle.lay_borders.specs.declared.candidate.Cand.{Cand};

    ghost Value = { List (Option Cand) };

    ghost view = { λ l. l.items.items };
}

impl CandOptions {
    /// The list of these borders, which is taken over without a copy.
    pub fn new(items: Vec<Option<Cand>>) -> CandOptions
        ensures { result ≡ items.items }
    {
        CandOptions { items }
    }

    /// The borders, in order.
    pub fn as_slice(&self) -> &[Option<Cand>]
        ensures { result.now ≡ self.now }
    {
        self.items.as_slice()
    }
}

//! Declarations.

ghost use Rattle.std.specs.Prelude.{◌≡◌, ◌==◌, ◌<◌, [], length, slice_index, IfSome, IfOk, OnOk, OnErr};
ghost use Rattle.lay_style.specs.PropertyNumbers.{number_of};
ghost use Rattle.lay_style.specs.Values.{declaration_of};
ghost use Rattle.lay_style.specs.Declarations.{declared_value, with_declaration, without_declaration, properties_of};
ghost use Rattle.lay_style.specs.Places.{place_of};

use crate::property::{Given, Property};
use crate::values::is_value_of;
use lay_units::NoMemory;
use std::alloc::Global;
use std::marker::Model;

/// A property and the value that is given to it, which is one of that property's values.
#[derive(Clone, Copy)]
pub struct Decl {
    property: Property,
    value: Given,
}

impl Model for Decl {
    ghost use Rattle.std.specs.Prelude.{IsTrue};
    ghost use Rattle.lay_style.specs.Values.{Declaration, is_value_of};

    ghost Value = { Declaration };

    ghost view = { λ d. record { property = d.property; value = d.value } };

    ghost invariant = { λ d. IsTrue (is_value_of d.property d.value) };

    ghost inverse = { λ d. record { property = d.property; value = d.value } };
}

impl Decl {
    ghost use Rattle.std.specs.Prelude.{IsTrue};
    ghost use Rattle.lay_style.specs.Values.{is_value_of};

    /// The declaration, or None where the value isn't one of the property's.
    pub fn new(property: Property, value: Given) -> Option<Decl>
        ensures { result ≡ declaration_of property value }
    {
        if is_value_of(property, value) {
            Some(Decl { property, value })
        } else {
            None
        }
    }

    /// Its property.
    pub fn property(&self) -> Property
        ensures { result ≡ self.now.property }
    {
        self.property
    }

    /// Its value, which is one of the property's.
    pub fn value(&self) -> Given
        ensures value { result ≡ self.now.value }
        ensures fits { IsTrue (is_value_of self.now.property self.now.value) }
    {
        self.value
    }
}

/// The declarations of a node: no property stands twice.
#[derive(Drop)]
pub struct Decls {
    items: Vec<Decl>,
}

impl Model for Decls {
    ghost use Rattle.std.specs.Prelude.{List};
    ghost use Rattle.lay_style.specs.Values.{Declaration};
    ghost use Rattle.lay_style.specs.Declarations.{AreDistinct};

    ghost Value = { List Declaration };

    ghost view = { λ d. d.items.items };

    ghost invariant = { λ d. AreDistinct d.items.items };
}

impl Decls {
    ghost use Rattle.lay_style.specs.Declarations.{AreDistinct};

    /// No declarations; nothing is allocated.
    pub fn new(alloc: Global) -> Decls
        ensures { result ≡ [] }
    {
        Decls {
            items: Vec::new(alloc),
        }
    }

    /// Puts the declaration in the place of an earlier one of its property, or after the others. On an
    /// error all is as before.
    pub fn set(&mut self, decl: Decl) -> Result<(), NoMemory>
        ensures ok { OnOk result (self.new ≡ with_declaration decl self.old) }
        ensures err { OnErr result (self.new ≡ self.old) }
    {
        put(&mut self.items, decl)?;
        Ok(())
    }

    /// Takes away the declaration of the property. Where there is none, it changes nothing.
    pub fn clear(&mut self, property: Property)
        ensures { self.new ≡ without_declaration property self.old }
    {
        take_away(&mut self.items, property);
    }

    /// The value that is declared for the property.
    pub fn get(&self, property: Property) -> Option<Given>
        ensures { result ≡ declared_value property self.now }
    {
        let k = place_of_property(self.items.as_slice(), property)?;
        Some(self.items[k].value())
    }

    /// How many there are.
    pub fn len(&self) -> usize
        ensures { result ≡ length self.now }
    {
        self.items.len()
    }

    /// Whether there are none.
    pub fn is_empty(&self) -> bool
        ensures { result ≡ (length self.now == 0) }
    {
        self.items.is_empty()
    }

    /// The declarations, in the order in which their properties were first set. None is for the property of another.
    pub fn as_slice(&self) -> &[Decl]
        ensures declarations { result.now ≡ self.now }
        ensures distinct { AreDistinct self.now }
    {
        self.items.as_slice()
    }

    /// Equal declarations.
    pub fn copy(&self, alloc: Global) -> Result<Decls, NoMemory>
        ensures { IfOk result (λ d. d ≡ self.now) }
    {
        Ok(Decls {
            items: Vec::from_slice(alloc, self.items.as_slice())?,
        })
    }
}

/// The number of the property of the declaration at a place.
fn number_at(decls: &[Decl], k: usize) -> u8
    requires { k < length decls.now }
    ensures { result ≡ slice_index (properties_of decls.now) k }
{
    decls[k].property().number()
}

/// The place of the declaration of the property.
fn place_of_property(decls: &[Decl], property: Property) -> Option<usize>
    ensures value { result ≡ place_of (number_of property) (properties_of decls.now) }
    ensures within { IfSome result (λ k. k < length decls.now) }
{
    for k in 0..decls.len() {
        if number_at(decls, k) == property.number() {
            return Some(k);
        }
    }
    None
}

fn put(decls: &mut Vec<Decl>, decl: Decl) -> Result<(), NoMemory>
    ensures ok { OnOk result (decls.new.items ≡ with_declaration decl decls.old.items) }
    ensures err { OnErr result (decls.new.items ≡ decls.old.items) }
{
    match place_of_property(decls.as_slice(), decl.property()) {
        Some(k) => decls[k] = decl,
        None => decls.push(decl)?,
    }
    Ok(())
}

fn take_away(decls: &mut Vec<Decl>, property: Property)
    ensures { decls.new.items ≡ without_declaration property decls.old.items }
{
    if let Some(k) = place_of_property(decls.as_slice(), property) {
        decls.remove(k);
    }
}

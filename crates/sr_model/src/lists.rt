//! Lists whose room is known: a push below the room can't be refused.
ghost use Rattle.std.specs.Prelude.{◌≡◌, ◌<◌, ◌≤◌, [], ◌∷◌, ◌++◌, length, slice_set, slice_get, Some, IfOk, IsOk, OnOk, OnErr};
ghost use Rattle.sr_model.specs.Room.{texts};

use crate::cells::{Lit, Sig};
use crate::statements::Numbered;
use std::alloc::{AllocError, AllocFailed, Global};
use std::marker::Model;
use thiserror::Error;

/// Memory was refused. Its text is that of the program's line, behind the program's name.
#[derive(Clone, Copy, Debug, PartialEq, Eq, Error)]
#[error("no memory")]
pub struct NoMemory;

/// A list, seen by contracts as its items beside its room, the number of items that it holds without more memory.
///
/// No call lowers the room.
#[derive(Debug, Drop)]
pub struct Sequence<T> {
    items: Vec<T>,
}

impl<T> Model for Sequence<T> {
    ghost use Rattle.sr_model.specs.Room.{WithRoom};

    ghost Value = { WithRoom T };

    ghost view = { λ s. record { items = s.items.items; room = s.items.cap } };
}

impl<T: Drop> Sequence<T> {
    /// An empty list. It takes no memory.
    pub fn new(alloc: Global) -> Sequence<T>
        ensures items { result.items ≡ [] }
    {
        Sequence {
            items: Vec::new(alloc),
        }
    }

    /// An empty list with room for so many items at least. No room takes no memory.
    pub fn with_room(alloc: Global, room: usize) -> Result<Sequence<T>, NoMemory>
        ensures items { IfOk result (λ list. list.items ≡ []) }
        ensures room { IfOk result (λ list. room ≤ list.room) }
        ensures no_room { room ≡ 0 → IsOk result }
    {
        match Vec::with_capacity(alloc, room) {
            Ok(items) => Ok(Sequence { items }),
            Err(AllocError) => Err(NoMemory),
        }
    }

    /// The list of these items. It takes no memory.
    pub fn from_vec(items: Vec<T>) -> Sequence<T>
        ensures items { result.items ≡ items.items }
        ensures room { result.room ≡ items.cap }
    {
        Sequence { items }
    }

    /// Its items. It takes no memory.
    pub fn into_vec(self) -> Vec<T>
        ensures { result.items ≡ self.items }
    {
        self.items
    }

    /// Adds an item at the end. Below the room it is not refused and keeps the room; a refusal leaves the items as they were.
    pub fn push(&mut self, item: T) -> Result<(), NoMemory>
        ensures ok { OnOk result (self.new.items ≡ self.old.items ++ item ∷ []) }
        ensures err { OnErr result (self.new.items ≡ self.old.items) }
        ensures room { self.old.room ≤ self.new.room }
        ensures below_room { length self.old.items < self.old.room → IsOk result }
        ensures same_room { length self.old.items < self.old.room → self.new.room ≡ self.old.room }
    {
        if self.items.len() < self.items.capacity() {
            self.items.push_reserved(item);
            return Ok(());
        }
        match self.items.push(item) {
            Ok(()) => Ok(()),
            Err(AllocFailed { value: _ }) => Err(NoMemory),
        }
    }

    /// Drops the items, and keeps the room.
    pub fn clear(&mut self)
        ensures items { self.new.items ≡ [] }
        ensures room { self.new.room ≡ self.old.room }
    {
        self.items.clear();
    }

    /// How many items there are.
    pub fn len(&self) -> usize
        ensures { result ≡ length self.now.items }
    {
        self.items.len()
    }

    /// The items, in order.
    pub fn as_slice(&self) -> &[T]
        ensures { result.now ≡ self.now.items }
    {
        self.items.as_slice()
    }
}

impl<T: Copy> Sequence<T> {
    /// Puts the item at place i, counted from 0.
    pub fn set(&mut self, i: usize, item: T)
        requires { i < length self.old.items }
        ensures items { self.new.items ≡ slice_set self.old.items i item }
        ensures room { self.new.room ≡ self.old.room }
    {
        self.items[i] = item;
    }
}

/// A list of bytes.
pub type Bytes = Sequence<u8>;

/// A list of names.
pub type Names = Sequence<Bytes>;

/// The statements of a netlist's text, in order.
pub type Statements = Sequence<Numbered>;

/// A list of signals.
pub type Sigs = Sequence<Sig>;

/// A list of literals.
pub type Lits = Sequence<Lit>;

/// A copy of these bytes.
pub fn to_bytes(alloc: Global, bytes: &[u8]) -> Result<Bytes, NoMemory>
    ensures { IfOk result (λ copy. copy.items ≡ bytes.now) }
{
    match Vec::from_slice(alloc, bytes) {
        Ok(copy) => Ok(Sequence::from_vec(copy)),
        Err(AllocError) => Err(NoMemory),
    }
}

impl Sequence<Bytes> {
    /// The bytes of name i, counted from 0.
    pub fn get(&self, i: usize) -> &[u8]
        requires { i < length self.now.items }
        ensures { slice_get (texts self.now) i ≡ Some result.now }
    {
        self.items[i].as_slice()
    }
}

impl Sequence<Numbered> {
    /// Statement i, counted from 0.
    pub fn get(&self, i: usize) -> &Numbered
        requires { i < length self.now.items }
        ensures { slice_get self.now.items i ≡ Some result.now }
    {
        &self.items[i]
    }
}

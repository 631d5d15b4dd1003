//! The names of a netlist, each once, with their numbers.
ghost use Rattle.std.specs.Prelude.{◌≡◌, ◌+◌, ◌^◌, ◌<◌, ◌≤◌, [], ◌∷◌, ◌++◌, length, map, Contains, slice_get, Some, IfOk, OnOk, OnErr};
ghost use Rattle.std.specs.Option.{SomeIff};
ghost use Rattle.sr_model.specs.Limits.{max_gate_pins, max_signals};
ghost use Rattle.sr_model.specs.Room.{texts};
ghost use Rattle.sr_model.specs.Declaration.{declaration_of};
ghost use Rattle.netlist.specs.Numbering.{once, mentions, pin_names, sig_in};
ghost use Rattle.netlist.specs.Mentions.{first_mention};

use indexmap::IndexSet;
use sr_model::{Bytes, Names, NoMemory, Sequence, Sig, Sigs, Statement};
use std::alloc::{AllocError, Global};
use std::marker::Model;

/// Names in the order of their first mentions, each once, seen by contracts as a list. A name's number is its place, from 0.
#[derive(Drop)]
pub(crate) struct NameTable {
    names: IndexSet<Vec<u8>>,
}

impl Model for NameTable {
    ghost use Rattle.std.specs.Prelude.{◌≡◌, ℕ, List, map};
    ghost use Rattle.netlist.specs.Numbering.{once};

    ghost Value = { List (List ℕ) };

    ghost view = { λ table. map (λ name. name.items) table.names.keys };

    ghost invariant = { λ table. once (map (λ name. name.items) table.names.keys) ≡ map (λ name. name.items) table.names.keys };
}

impl NameTable {
    /// No names, with room for so many.
    pub(crate) fn with_room(alloc: Global, room: usize) -> Result<NameTable, NoMemory>
        ensures { IfOk result (λ table. table ≡ []) }
    {
        match IndexSet::with_capacity(alloc, room) {
            Ok(names) => Ok(NameTable { names }),
            Err(AllocError) => Err(NoMemory),
        }
    }

    /// How many names there are.
    pub(crate) fn len(&self) -> usize
        ensures { result ≡ length self.now }
    {
        self.names.len()
    }

    /// The signal of a name, which is added where it is new. A name that is there is looked up once, and a new one twice. It takes memory for a new
    /// name alone, and a refusal leaves the names as they were.
    pub(crate) fn add(&mut self, alloc: Global, name: &[u8]) -> Result<Sig, NoMemory>
        requires { length self.old < 2 ^ 32 }
        ensures ok { OnOk result (self.new ≡ once (self.old ++ name.now ∷ [])) }
        ensures sig { IfOk result (λ s. s ≡ sig_in self.new name.now) }
        ensures err { OnErr result (self.new ≡ self.old) }
    {
        if let Some(number) = self.names.get_index_of(name) {
            return Ok(Sig(number as u32));
        }
        let number = self.names.len();
        let Ok(copy) = Vec::from_slice(alloc, name) else {
            return Err(NoMemory);
        };
        let Ok(_) = self.names.insert(copy) else {
            return Err(NoMemory);
        };
        Ok(Sig(number as u32))
    }

    /// Adds each name of a list in turn, where it is new, and its signal to the signals.
    pub(crate) fn add_all(
        &mut self,
        alloc: Global,
        names: &Names,
        sigs: &mut Sigs,
    ) -> Result<(), NoMemory>
        requires { length self.old + length names.now.items < 2 ^ 32 }
        ensures names { OnOk result (self.new ≡ once (self.old ++ texts names.now)) }
        ensures sigs { OnOk result (sigs.new.items ≡ sigs.old.items ++ map (sig_in self.new) (texts names.now)) }
    {
        let _ = &self.names;
        for name in names.as_slice() {
            let sig = self.add(alloc, name.as_slice())?;
            sigs.push(sig)?;
        }
        Ok(())
    }

    /// Adds each name that a statement mentions, where it is new: the signal of its first to the firsts, and those of its pins to the pins.
    pub(crate) fn add_mentions(
        &mut self,
        alloc: Global,
        statement: &Statement,
        firsts: &mut Sigs,
        pins: &mut Sigs,
    ) -> Result<(), NoMemory>
        requires few { length self.old ≤ max_signals }
        requires pins { length (pin_names (declaration_of statement.now)) ≤ max_gate_pins }
        ensures names { OnOk result (self.new ≡ once (self.old ++ mentions (declaration_of statement.now))) }
        ensures firsts { OnOk result (firsts.new.items ≡ firsts.old.items ++ sig_in self.new (first_mention (declaration_of statement.now)) ∷ []) }
        ensures pins { OnOk result (pins.new.items ≡ pins.old.items ++ map (sig_in self.new) (pin_names (declaration_of statement.now))) }
    {
        match statement {
            Statement::Input(name) | Statement::OutputOf(name) => {
                let first = self.add(alloc, name.as_slice())?;
                firsts.push(first)
            }
            Statement::Drive {
                target,
                pins: names,
                ..
            } => {
                let first = self.add(alloc, target.as_slice())?;
                firsts.push(first)?;
                self.add_all(alloc, names, pins)
            }
        }
    }

    /// The signal of a name. It takes no memory, and time in the bytes of the name.
    pub(crate) fn find(&self, name: &[u8]) -> Option<Sig>
        requires { length self.now ≤ max_signals }
        ensures { SomeIff result (Contains self.now name.now) (sig_in self.now name.now) }
    {
        let number = self.names.get_index_of(name)?;
        Some(Sig(number as u32))
    }

    /// The bytes of the name with a number.
    pub(crate) fn get(&self, number: usize) -> &[u8]
        requires { number < length self.now }
        ensures { slice_get self.now number ≡ Some result.now }
    {
        self.names[number].as_slice()
    }
}

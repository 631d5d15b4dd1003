//! The tasks that force something where nothing is known.
ghost use Rattle.std.specs.Prelude.{◌≡◌, ◌<◌, ◌++◌, length, OnOk, IfOk};
ghost use Rattle.std.specs.List.{list_any};
ghost use Rattle.sr_model.specs.Gate.{family_of};
ghost use Rattle.netlist.specs.Wiring.{driver_at};
ghost use Rattle.unroll.specs.Tasks.{is_constant, is_parity, tasks_at, constant_tasks, constant_tasks_at};

use crate::problem::Problem;
use crate::words::Tasks;
use sr_model::{Family, Kind, NoMemory, Sig};
use std::alloc::Global;

impl<'n> Problem<'n> {
    /// The tasks, ascending, of the parity gates in which each signal stands an even number of times: they force something where nothing is known.
    ///
    /// Time is linear in the pins of such gates, the signals and the tasks found.
    pub fn constant_tasks(&self, alloc: Global) -> Result<Tasks, NoMemory>
        ensures { IfOk result (λ found. found.items ≡ constant_tasks self.now) }
    {
        let mut found = Tasks::new(alloc);
        for number in 0..self.net().signals() {
            self.push_constant(Sig(number), &mut found)?;
        }
        Ok(found)
    }

    /// Adds the tasks of a constant gate, and nothing for another.
    fn push_constant(&self, target: Sig, found: &mut Tasks) -> Result<(), NoMemory>
        requires { target.0 < length self.now.circuit.drivers }
        ensures { OnOk result (found.new.items ≡ found.old.items ++ constant_tasks_at self.now target) }
    {
        if self.is_constant(target) {
            self.push_tasks(target, found)
        } else {
            Ok(())
        }
    }

    fn is_constant(&self, s: Sig) -> bool
        requires { s.0 < length self.now.circuit.drivers }
        ensures { result ≡ is_constant (driver_at self.now.circuit.drivers s.0) }
    {
        match self.net().kind_of(s) {
            Some(kind) => is_parity(kind) && !some_is_odd(self.net().pin_parities(s)),
            None => false,
        }
    }

    /// Adds the tasks of a target in all chunks.
    fn push_tasks(&self, target: Sig, found: &mut Tasks) -> Result<(), NoMemory>
        requires { target.0 < length self.now.circuit.drivers }
        ensures { OnOk result (found.new.items ≡ found.old.items ++ tasks_at self.now target) }
    {
        for chunk in 0..self.chunks() {
            found.push(self.task(target, chunk))?;
        }
        Ok(())
    }
}

fn is_parity(kind: Kind) -> bool
    ensures { result ≡ is_parity (family_of kind) }
{
    matches!(kind.family(), Family::Parity { .. })
}

fn some_is_odd(parities: &[bool]) -> bool
    ensures { result ≡ list_any (λ odd. odd) parities.now }
{
    parities.iter().any(|odd| *odd)
}

//! The real inputs: files that are read by name. What they hold is not told; what is left of one is told as its reader tells it.
ghost use Rattle.std.specs.Prelude.{◌≡◌, ◌≤◌, None, false, true, is_some, if◌then◌else◌};
ghost use Rattle.std.proofs.Common.{refl, subst};
ghost use Rattle.sr_outside.specs.Counts.{IsCounted};

use crate::inputs::{Failed, Inputs};
use std::fs;
use std::io::Read;
use std::marker::Model;
use std::rt::Files;

/// Files, read by name. A file that can't be opened and a read that fails are faults.
#[derive(Drop)]
pub struct FileInputs<'r, R: Files> {
    rt: &'r R,
    file: Option<R::File>,
    starts: u64,
    taken: u64,
    faults: u64,
}

impl<'r, R: Files> Model for FileInputs<'r, R> {
    ghost use Rattle.std.specs.Prelude.{is_some};
    ghost use Rattle.std.specs.Option.{option_and_then};
    ghost use Rattle.sr_outside.specs.Files.{Counted};

    ghost Value = { Counted };

    ghost view = { λ f. record {
      live = is_some f.file;
      left = option_and_then R.File.remaining f.file;
      starts = f.starts;
      taken = f.taken;
      faults = f.faults;
    } };
}

impl<'r, R: Files> FileInputs<'r, R> {
    /// No file is started.
    pub fn new(rt: &'r R) -> FileInputs<'r, R>
        ensures live { result.live ≡ false }
        ensures counts { (result.starts ≡ 0) × (result.taken ≡ 0) × (result.faults ≡ 0) }
    {
        FileInputs {
            rt,
            file: None,
            starts: 0,
            taken: 0,
            faults: 0,
        }
    }

    // Counts a fault. No file is live from here on.
    fn fault(&mut self) -> Failed
        ensures live { self.new.live ≡ false }
        ensures faults { IsCounted self.old.faults self.new.faults }
        ensures never_falls { self.old.faults ≤ self.new.faults }
        ensures counts { (self.new.starts ≡ self.old.starts) × (self.new.taken ≡ self.old.taken) }
    {
        self.file = None;
        self.faults = self.faults.saturating_add(1);
        Failed
    }
}

impl<R: Files> Inputs for FileInputs<'_, R> {
    ghost held = { λ _. None };

    ghost live = { λ f. f.live };

    ghost left = { λ f. f.left };

    ghost shaky = { λ _. None };

    ghost last = { λ _. None };

    ghost starts = { λ f. f.starts };

    ghost taken = { λ f. f.taken };

    ghost faults = { λ f. f.faults };

    fn start(&mut self, name: &str) -> Result<(), Failed> {
        self.starts = self.starts.saturating_add(1);
        self.taken = 0;
        match fs::open(self.rt, name) {
            Ok(file) => {
                self.file = Some(file);
                Ok(())
            }
            Err(_) => Err(self.fault()),
        }
    }

    fn read(&mut self, into: &mut [u8]) -> Result<usize, Failed> {
        let Some(file) = &mut self.file else {
            unreachable!()
        };
        let Ok(count) = file.read(into) else {
            return Err(self.fault());
        };
        self.taken = self.taken.saturating_add(count as u64);
        Ok(count)
    }

    ghost tells_shaky = { λ _ told. told };

    ghost tells_last = { λ _ told. told };

    ghost tells_left = { λ f told live. subst (λ b. (if b then is_some f.left else true) ≡ true) told refl };
}

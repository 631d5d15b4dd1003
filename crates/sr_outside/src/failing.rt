//! The calls that are to fail, each a name with a number.
ghost use Rattle.std.specs.Prelude.{◌≡◌, ◌==◌, ◌&&◌, IfOk};
ghost use Rattle.std.specs.Str.{bytes_eq};
ghost use Rattle.sr_outside.specs.Memory.{is_listed};

use std::alloc::{AllocError, Global};
use std::marker::Model;

#[derive(Drop)]
pub struct FailingCall {
    name: Vec<u8>,
    number: u32,
}

impl Model for FailingCall {
    ghost use Rattle.sr_outside.specs.Memory.{Call};

    ghost Value = { Call };

    ghost view = { λ call. record { name = call.name.items; number = call.number } };
}

impl FailingCall {
    pub fn new(alloc: Global, name: &[u8], number: u32) -> Result<FailingCall, AllocError>
        ensures name { IfOk result (λ call. call.name ≡ name.now) }
        ensures number { IfOk result (λ call. call.number ≡ number) }
    {
        Ok(FailingCall {
            name: name.to_vec(alloc)?,
            number,
        })
    }

    fn is(&self, name: &[u8], number: u64) -> bool
        ensures { result ≡ (bytes_eq self.now.name name.now && (self.now.number == number)) }
    {
        self.name.as_slice() == name && u64::from(self.number) == number
    }
}

// Whether this call on this name is listed.
pub fn lists_call(calls: &[FailingCall], name: &[u8], number: u64) -> bool
    ensures { result ≡ is_listed calls.now name.now number }
{
    calls.iter().any(|call| call.is(name, number))
}

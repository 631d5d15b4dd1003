//! A shift register, with a closer that refuses.
use crate::select;
use cycle_sim::{simulate, stimulus};
use known_planes::{Closer, Planes};
use netlist::{Netlist, are_statements, build};
use sr_model::{Bytes, Kind, Names, NoMemory, Numbered, Statement, Statements};
use std::alloc::Global;
use std::process::Abort;
use std::test::Fail;
use std::thread::Threads;
use unroll::Problem;

/// Gives no closure, and counts how often it was asked.
#[derive(Drop)]
struct Refusing {
    calls: u32,
}

impl Closer for Refusing {
    fn close<R: Threads + Sync>(
        &mut self,
        _rt: &R,
        _alloc: Global,
        _p: &Problem,
        _base: &Planes,
    ) -> Result<Planes, NoMemory> {
        Err(NoMemory)
    }

    fn close_more<R: Threads + Sync>(
        &mut self,
        _rt: &R,
        _alloc: Global,
        _p: &Problem,
        _closed: &Planes,
        _added: &Planes,
    ) -> Result<Planes, NoMemory> {
        Err(NoMemory)
    }

    fn close_until_clash<R: Threads + Sync>(
        &mut self,
        _rt: &R,
        _alloc: Global,
        _p: &Problem,
        _base: Planes,
    ) -> Result<Planes, NoMemory> {
        self.calls = self.calls.saturating_add(1);
        Err(NoMemory)
    }
}

fn to_bytes(alloc: Global, text: &[u8]) -> Result<Bytes, NoMemory> {
    let mut bytes = Bytes::new(alloc);
    for byte in text {
        bytes.push(*byte)?;
    }
    Ok(bytes)
}

/// The input a, and q1 = DFF(a), q2 = DFF(q1), q3 = DFF(q2).
fn shift_register(rt: &impl Abort, alloc: Global) -> Result<Netlist, Fail> {
    let mut all = Statements::new(alloc);
    let statement = Statement::Input(to_bytes(alloc, b"a")?);
    all.push(Numbered { line: 1, statement })?;
    let rows: [(&[u8], &[u8]); 3] = [(b"q1", b"a"), (b"q2", b"q1"), (b"q3", b"q2")];
    for (target, pin) in rows {
        let mut pins = Names::new(alloc);
        pins.push(to_bytes(alloc, pin)?)?;
        let statement = Statement::Drive {
            target: to_bytes(alloc, target)?,
            kind: Kind::Dff,
            pins,
        };
        all.push(Numbered { line: 2, statement })?;
    }
    assert!(rt; are_statements(&all));
    Ok(build(alloc, all)?)
}

#[test]
fn a_refusal_goes_out(rt: HostRuntime) -> Result<(), Fail> {
    let alloc = rt.alloc();
    let net = shift_register(&rt, alloc)?;
    let drawn = stimulus(alloc, &net, 1, 4)?;
    let execution = simulate(alloc, &net, &drawn)?;
    let mut closer = Refusing { calls: 0 };
    assert!(&rt; net.flip_flops().len() >= 2 && net.signals() == 4);
    let picks = select(&rt, alloc, &net, &execution, 2, &mut closer);
    assert!(&rt; picks.is_err());
    assert_eq!(&rt; closer.calls, 1);
    Ok(())
}

//! The generator's first words, and a shift register of three flip-flops over four cycles.
mod load;

ghost use Rattle.std.specs.Prelude.{◌≡◌};

use crate::{Execution, simulate, simulate_trace, simulation_laws, stimulus, trace_of};
use dump_reader::{Dump, Tri};
use netlist::{Netlist, are_statements, build};
use rand_pcg::Lcg64Xsh32;
use rand_pcg::rand_core::utils::NextWord;
use sr_model::{Bytes, Cell, Kind, Names, NoMemory, Numbered, Sig, Statement, Statements};
use std::alloc::Global;
use std::process::Abort;
use std::test::Fail;
use unroll::InChunk;

fn to_bytes(alloc: Global, text: &[u8]) -> Result<Bytes, NoMemory> {
    let mut bytes = Bytes::new(alloc);
    for byte in text {
        bytes.push(*byte)?;
    }
    Ok(bytes)
}

/// The input a, and q1 = DFF(a), q2 = DFF(q1), q3 = DFF(q2): the signals 0 to 3.
fn shift_register(rt: &impl Abort, alloc: Global) -> Result<Netlist, Fail> {
    let mut all = Statements::new(alloc);
    let statement = Statement::Input(to_bytes(alloc, b"a")?);
    all.push(Numbered { line: 1, statement })?;
    let rows: [(&[u8], &[u8]); 3] = [(b"q1", b"a"), (b"q2", b"q1"), (b"q3", b"q2")];
    for (target, pin) in rows {
        let mut pins = Names::new(alloc);
        pins.push(to_bytes(alloc, pin)?)?;
        let statement = Statement::Drive {
            target: to_bytes(alloc, target)?,
            kind: Kind::Dff,
            pins,
        };
        all.push(Numbered { line: 2, statement })?;
    }
    assert!(rt; are_statements(&all));
    Ok(build(alloc, all)?)
}

#[test]
fn the_first_words_of_seed_1(rt: HostRuntime) {
    let mut generator = Lcg64Xsh32::new(1, 1);
    let cases = [
        (0x6147_d0b5_3255_fcb7, 1),
        (0xaa74_3f0f_ebff_352e, 0),
        (0x6e26_4c49_b304_2b19, 1),
    ];
    for (state, top) in cases {
        assert_eq!(&rt; generator.state(), state);
        assert_eq!(&rt; generator.next_word() >> 31, top);
    }
}

/// The bits of a, q1, q2 and q3 in four cycles.
const BITS: [[bool; 4]; 4] = [
    [true, false, true, true],
    [false, true, false, true],
    [false, false, true, false],
    [false, false, false, true],
];

fn has_bits(rt: &impl Abort, e: &Execution)
    requires signals { e.now.width ≡ 4 }
    requires cycles { e.now.count ≡ 4 }
{
    for number in 0..4_u32 {
        for cycle in 0..4_u32 {
            let sig = Sig(number);
            let bit = e.bit(Cell { cycle, sig });
            assert_eq!(rt;
                bit,
                BITS[number as usize][cycle as usize],
                "{number} {cycle}"
            );
        }
    }
}

/// The words of each signal, by its bits.
fn has_words(rt: &impl Abort, e: &Execution)
    requires signals { e.now.width ≡ 4 }
    requires cycles { e.now.count ≡ 4 }
{
    for (number, one) in [0b1101, 0b1010, 0b0100, 0b1000].into_iter().enumerate() {
        assert!(rt; number < 4);
        let sig = Sig(number as u32);
        let words = e.words_in_chunk(InChunk { sig, chunk: 0 });
        assert_eq!(rt; words.one, one, "{number}");
        assert_eq!(rt; words.zero, 0b1111 ^ one, "{number}");
    }
}

/// The rows of q2 and a, in this order.
fn has_rows(rt: &impl Abort, dump: &Dump) {
    assert_eq!(rt; dump.row_count(), 2);
    for (i, number) in [2_u32, 0].into_iter().enumerate() {
        assert!(rt; i < dump.row_count());
        assert_eq!(rt; dump.row_sig(i), Sig(number));
        for (cycle, cell) in dump.row_bits(i).iter().enumerate() {
            assert!(rt; cycle < 4);
            let one = *cell == Tri::One;
            assert_eq!(rt; one, BITS[number as usize][cycle], "{number} {cycle}");
        }
    }
}

#[test]
fn a_shift_register(rt: HostRuntime) -> Result<(), Fail> {
    let alloc = rt.alloc();
    let net = shift_register(&rt, alloc)?;
    assert!(&rt; net.signals() == 4 && net.inputs().len() == 1);
    let drawn = stimulus(alloc, &net, 1, 4)?;
    assert!(&rt; !drawn.bit(0, 1) && drawn.bit(0, 2));
    simulation_laws();
    let execution = simulate(alloc, &net, &drawn)?;
    has_bits(&rt, &execution);
    has_words(&rt, &execution);
    let sigs = [Sig(2), Sig(0)];
    has_rows(&rt, &trace_of(alloc, &execution, &sigs)?);
    has_rows(&rt, &simulate_trace(alloc, &net, &drawn, &sigs)?);
    Ok(())
}

//! Whole runs near the limits: want of memory is no answer there. What is expected is made by loops of their own.
use super::counting::{CountedInputs, CountedSink};
use super::{DUMP, GATES, held, many_inputs, words_of};
use crate::run;
use itoa::Buffer;
use sr_outside::{MemInputs, MemSink};
use std::alloc::{AllocError, Global};
use std::process::Abort;
use std::test::*;
use std::thread::Threads;

/// The name `s` and a number.
fn push_name(text: &mut Vec<u8>, number: u32) -> Result<(), AllocError> {
    let mut buffer = Buffer::new();
    text.push(b's')?;
    text.extend_from_slice(buffer.format(number).as_bytes())
}

/// `NUMBER` in decimal.
fn push_number(text: &mut Vec<u8>, number: u32) -> Result<(), AllocError> {
    let mut buffer = Buffer::new();
    text.extend_from_slice(buffer.format(number).as_bytes())
}

/// What the run of these words wrote, with a room of 32 MiB, and that it ended well.
fn written(
    rt: &(impl Abort + Threads + Sync),
    alloc: Global,
    words: &[&str],
    netlist: &[u8],
    dump: &[u8],
    want: &[u8],
) -> Result<(), Fail> {
    let mut inputs = held(alloc, netlist, dump)?;
    let mut out = MemSink::new(alloc, 1 << 25)?;
    let words = words_of(alloc, words)?;
    let status = run(rt, alloc, words.as_slice(), &mut inputs, &mut out);
    assert_eq!(rt; status.code(), 0);
    assert!(rt; out.bytes() == want, "another text");
    Ok(())
}

/// Signal 0 is an input; an odd signal inverts the one before it, and an even one is that one a cycle later.
fn chain(alloc: Global, signals: u32) -> Result<Vec<u8>, AllocError> {
    let mut text = b"INPUT(s0)\n".to_vec(alloc)?;
    for i in 1..signals {
        push_name(&mut text, i)?;
        let kind: &[u8] = if i % 2 == 1 { b" = NOT(" } else { b" = DFF(" };
        text.extend_from_slice(kind)?;
        push_name(&mut text, i - 1)?;
        text.extend_from_slice(b")\n")?;
    }
    Ok(text)
}

/// With 1 on the input in each of 64 cycles, flip-flop j has from cycle j on 0 where j is odd, and 1 where it is even.
fn table_of_chain(alloc: Global, signals: u32) -> Result<Vec<u8>, AllocError> {
    let mut text = b"srdump 1\ncycles 64\n".to_vec(alloc)?;
    for i in 1..signals {
        if i % 2 == 0 {
            push_name(&mut text, i)?;
            text.push(b' ')?;
            let first = i / 2;
            for cycle in 0..64 {
                let known = if first % 2 == 1 { b'0' } else { b'1' };
                text.push(if cycle < first { b'x' } else { known })?;
            }
            text.push(b'\n')?;
        }
    }
    // 63 cells of the first flip-flop, 62 of the second, and so on
    text.extend_from_slice(b"# traced 0 known 2016 ratio -\n")?;
    Ok(text)
}

#[test]
fn chain_of_65536(rt: HostRuntime) -> Result<(), Fail> {
    let alloc = rt.alloc();
    let netlist = chain(alloc, 65536)?;
    let dump: &[u8] =
        b"srdump 1\ncycles 64\ns0 1111111111111111111111111111111111111111111111111111111111111111\n";
    let table = table_of_chain(alloc, 65536)?;
    written(
        &rt,
        alloc,
        &["restore", "net", "dump"],
        &netlist,
        dump,
        &table,
    )
}

#[test]
fn netlist_of_131072_lines(rt: HostRuntime) -> Result<(), Fail> {
    let alloc = rt.alloc();
    let mut netlist = many_inputs(alloc, 65536)?;
    for i in 0..65536 {
        netlist.extend_from_slice(b"OUTPUT(")?;
        push_number(&mut netlist, i)?;
        netlist.extend_from_slice(b")\n")?;
    }
    written(&rt, alloc, &["print", "net"], &netlist, DUMP, &netlist)
}

/// So many flip-flops behind one input.
fn flip_flops(alloc: Global, count: u32) -> Result<Vec<u8>, AllocError> {
    let mut text = b"INPUT(a)\n".to_vec(alloc)?;
    for i in 0..count {
        push_name(&mut text, i)?;
        text.extend_from_slice(b" = DFF(a)\n")?;
    }
    Ok(text)
}

/// A row of 1 for each of these flip-flops.
fn rows_of_ones(alloc: Global, count: u32, cycles: u32) -> Result<Vec<u8>, AllocError> {
    let mut text = b"srdump 1\ncycles ".to_vec(alloc)?;
    push_number(&mut text, cycles)?;
    text.push(b'\n')?;
    for i in 0..count {
        push_name(&mut text, i)?;
        text.push(b' ')?;
        for _ in 0..cycles {
            text.push(b'1')?;
        }
        text.push(b'\n')?;
    }
    Ok(text)
}

#[test]
fn rows_of_8192_characters(rt: HostRuntime) -> Result<(), Fail> {
    let alloc = rt.alloc();
    let netlist = flip_flops(alloc, 1900)?;
    let dump = rows_of_ones(alloc, 1900, 8192)?;
    let mut table = rows_of_ones(alloc, 1900, 8192)?;
    table.extend_from_slice(b"# traced 15564800 known 15564800 ratio 1.000\n")?;
    written(
        &rt,
        alloc,
        &["restore", "net", "dump"],
        &netlist,
        &dump,
        &table,
    )
}

/// How many reads and puts the run of these words makes.
fn calls(
    rt: &(impl Abort + Threads + Sync),
    alloc: Global,
    words: &[&str],
    inner: MemInputs,
) -> Result<(u64, u64), Fail> {
    let mut inputs = CountedInputs { inner, reads: 0 };
    let mut out = CountedSink {
        inner: MemSink::new(alloc, 1 << 25)?,
        puts: 0,
    };
    let words = words_of(alloc, words)?;
    let status = run(rt, alloc, words.as_slice(), &mut inputs, &mut out);
    assert_eq!(rt; status.code(), 0);
    Ok((inputs.reads, out.puts))
}

/// An input is read by 64 KiB and once more for its end. A text is put whole, and of a table each row; the lines around the rows take 10 puts.
#[test]
fn as_few_calls_as_serve(rt: HostRuntime) -> Result<(), Fail> {
    let alloc = rt.alloc();
    let restore: &[&str] = &["restore", "net", "dump"];
    // two short files
    let small = held(alloc, GATES, DUMP)?;
    assert_eq!(rt; calls(&rt, alloc, restore, small)?, (4, 12));
    // a netlist of less than 64 KiB, and a dump of 12 to 13 times as much
    let few = held(
        alloc,
        &flip_flops(alloc, 100)?,
        &rows_of_ones(alloc, 100, 8192)?,
    )?;
    assert_eq!(rt; calls(&rt, alloc, restore, few)?, (2 + 14, 110));
    // 840,858 bytes
    let netlist = held(alloc, &many_inputs(alloc, 65536)?, DUMP)?;
    assert_eq!(rt; calls(&rt, alloc, &["print", "net"], netlist)?, (13 + 1, 1));
    Ok(())
}

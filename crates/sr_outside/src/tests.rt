//! Each public call once, each call on an input failing in turn, the room of a sink and its short puts, and the real
//! thing: a file of 3 MB, a missing one, standard output.
use crate::{
    Failed, FileInputs, MemInputs, MemSink, ReadRefusal, Sink, StdSink, WriteFault, WriterSink,
    read_whole, write_all,
};
use sr_model::Bytes;
use std::process::Abort;
use std::test::Fail;
use std::{fs, process};

fn expect_text(
    rt: &impl Abort,
    read: Result<Bytes, ReadRefusal>,
    want: Result<&[u8], ReadRefusal>,
) {
    match (read, want) {
        (Ok(text), Ok(bytes)) => assert_eq!(rt; text.as_slice(), bytes),
        (Err(refusal), Err(expected)) => assert_eq!(rt; refusal, expected),
        (Ok(_), Err(expected)) => assert!(rt; false, "read, where {expected:?} was expected"),
        (Err(refusal), Ok(_)) => assert!(rt; false, "{refusal:?}"),
    }
}

#[test]
fn reads_from_memory(rt: HostRuntime) -> Result<(), Fail> {
    let mut inputs = MemInputs::new(rt.alloc());
    inputs.add("first", b"one")?;
    inputs.add("second", b"")?;
    inputs.add("first", b"another")?;
    for (name, limit, want) in [
        ("first", 7, Ok(b"another".as_slice())),
        ("first", u64::MAX, Ok(b"another".as_slice())),
        ("first", 6, Err(ReadRefusal::TooLong)),
        ("second", 0, Ok(b"".as_slice())),
        ("third", 7, Err(ReadRefusal::Fault)),
    ] {
        expect_text(&rt, read_whole(rt.alloc(), &mut inputs, name, limit), want);
    }
    Ok(())
}

#[test]
fn fails_each_call_in_turn(rt: HostRuntime) -> Result<(), Fail> {
    // Twelve bytes by five are a start and four reads, the last of which gives none; past nine it reads twice.
    for call in 0..6 {
        let mut inputs = MemInputs::new(rt.alloc());
        inputs.add("text", b"twelve bytes")?;
        inputs.add("other", b"another text")?;
        inputs.most(5);
        inputs.fail("text", call)?;
        let whole = read_whole(rt.alloc(), &mut inputs, "text", 12);
        if call < 5 {
            expect_text(&rt, whole, Err(ReadRefusal::Fault));
        } else {
            expect_text(&rt, whole, Ok(b"twelve bytes".as_slice()));
        }
        let other = read_whole(rt.alloc(), &mut inputs, "other", 12);
        expect_text(&rt, other, Ok(b"another text".as_slice()));
        let long = read_whole(rt.alloc(), &mut inputs, "text", 9);
        if call < 3 {
            expect_text(&rt, long, Err(ReadRefusal::Fault));
        } else {
            expect_text(&rt, long, Err(ReadRefusal::TooLong));
        }
    }
    Ok(())
}

#[test]
fn writes_to_memory(rt: HostRuntime) -> Result<(), Fail> {
    for (room, want, written) in [
        (0, Err(WriteFault), b"".as_slice()),
        (5, Err(WriteFault), b"some ".as_slice()),
        (9, Ok(()), b"some text".as_slice()),
        (20, Ok(()), b"some text".as_slice()),
    ] {
        let mut sink = MemSink::new(rt.alloc(), room)?;
        assert_eq!(rt; write_all(&mut sink, b"some text"), want, "room {room}");
        assert_eq!(rt; write_all(&mut sink, b""), Ok(()), "room {room}");
        assert_eq!(rt; sink.bytes(), written, "room {room}");
    }
    Ok(())
}

#[test]
fn stops_at_its_room(rt: HostRuntime) -> Result<(), Fail> {
    let mut sink = MemSink::new(rt.alloc(), 3)?;
    assert_eq!(rt; sink.put(b"ab"), Ok(2));
    assert_eq!(rt; sink.put(b"cd"), Ok(1));
    assert_eq!(rt; sink.put(b"d"), Err(Failed));
    assert_eq!(rt; sink.put(b"d"), Err(Failed));
    assert_eq!(rt; sink.bytes(), b"abc".as_slice());
    Ok(())
}

#[test]
fn puts_three_at_most(rt: HostRuntime) -> Result<(), Fail> {
    let mut sink = MemSink::new(rt.alloc(), 8)?;
    sink.most(3);
    assert_eq!(rt; sink.put(b"ab"), Ok(2));
    assert_eq!(rt; sink.put(b"cdefg"), Ok(3));
    assert_eq!(rt; write_all(&mut sink, b"fghij"), Err(WriteFault));
    assert_eq!(rt; sink.put(b"i"), Err(Failed));
    assert_eq!(rt; sink.bytes(), b"abcdefgh".as_slice());
    Ok(())
}

#[test]
fn reads_files(rt: HostRuntime) -> Result<(), Fail> {
    let id = process::id(rt.process());
    let path = format!(in rt.alloc(); "/tmp/sr_outside_{id}")?;
    let mut bytes = Vec::with_capacity(rt.alloc(), 3_000_000)?;
    for i in 0..3_000_000u32 {
        bytes.push((i % 251) as u8)?;
    }
    fs::write(&rt, path.as_str(), bytes.as_slice())?;
    let mut inputs = FileInputs::new(&rt);
    let whole = read_whole(rt.alloc(), &mut inputs, path.as_str(), 3_000_000);
    expect_text(&rt, whole, Ok(bytes.as_slice()));
    let long = read_whole(rt.alloc(), &mut inputs, path.as_str(), 2_999_999);
    expect_text(&rt, long, Err(ReadRefusal::TooLong));
    fs::remove_file(&rt, path.as_str())?;
    let missing = read_whole(rt.alloc(), &mut inputs, path.as_str(), 3_000_000);
    expect_text(&rt, missing, Err(ReadRefusal::Fault));
    let folder = read_whole(rt.alloc(), &mut inputs, "/tmp", 3_000_000);
    expect_text(&rt, folder, Err(ReadRefusal::Fault));
    Ok(())
}

#[test]
fn writes_standard_output(rt: HostRuntime) {
    let mut sink = StdSink::new(&rt);
    assert_eq!(rt; write_all(&mut sink, b"written by sr_outside\n"), Ok(()));
}

#[test]
fn a_writer_has_what_was_put(rt: HostRuntime) -> Result<(), Fail> {
    let mut sink = WriterSink::over(Vec::new(rt.alloc()));
    assert_eq!(rt; write_all(&mut sink, b"first "), Ok(()));
    assert_eq!(rt; sink.put(b"second"), Ok(6));
    assert_eq!(rt; sink.into_writer().as_slice(), b"first second".as_slice());
    Ok(())
}

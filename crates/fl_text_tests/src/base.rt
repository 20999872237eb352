// What no contract says of names, fields, sources and sinks: that memory is found, and values of the formats from outside.
use crate::asserts::{same, same_at};
use fl_base::{
    MemSink, MemSource, Name, NoMemory, Sink, SinkFailed, Source, SourceFailed, get_u32, put_u32,
};
use std::alloc::Global;

/// Words, and whether each is a name.
const WORDS: &[(&str, bool)] = &[
    ("a", true),
    ("abcdefgh", true),
    ("t2", true),
    ("", false),
    ("abcdefghi", false),
    ("2t", false),
    ("Ab", false),
    ("a-b", false),
];

#[test]
fn names_are_small_letters_and_digits(rt: HostRuntime) {
    for (word, is_name) in WORDS {
        same_at(&rt, &Name::of(word.as_bytes()).is_some(), is_name, word);
    }
}

#[test]
fn the_low_byte_stands_first(rt: HostRuntime) {
    let mut bytes = [255; 6];
    put_u32(&mut bytes, 1, 0x0102_0304);
    let found = get_u32(&bytes, 1);
    same(&rt, &(bytes, found), &([255, 4, 3, 2, 1, 255], 0x0102_0304));
}

// How four reads of three bytes end, of which the second fails, and what they leave.
type FourReads = ([Result<usize, SourceFailed>; 4], [u8; 2]);

fn read(alloc: Global) -> Result<FourReads, NoMemory> {
    let bytes = [1, 2, 3].to_vec(alloc)?;
    let failing = [2].to_vec(alloc)?;
    let mut source = MemSource::new(bytes, failing);
    let mut into = [0; 2];
    let ends = [
        source.read(&mut into),
        source.read(&mut into),
        source.read(&mut into),
        source.read(&mut into),
    ];
    Ok((ends, into))
}

const READS: FourReads = ([Ok(2), Err(SourceFailed), Ok(1), Ok(0)], [3, 2]);

#[test]
fn a_source_fails_at_the_calls_named(rt: HostRuntime) {
    same(&rt, &read(rt.alloc()), &Ok(READS));
}

// How writes of 3, 1, 2 and 1 bytes end, of which the second fails and the third finds too little room, and whether the sink has
// what the others wrote.
type FourWrites = ([Result<usize, SinkFailed>; 4], bool);

fn write(alloc: Global) -> Result<FourWrites, NoMemory> {
    let failing = [2].to_vec(alloc)?;
    let mut sink = MemSink::new(alloc, 4, failing)?;
    let ends = [
        sink.write(&[7, 8, 9]),
        sink.write(&[7]),
        sink.write(&[7, 8]),
        sink.write(&[7]),
    ];
    Ok((ends, sink.bytes() == [7, 8, 9, 7].as_slice()))
}

const WRITES: FourWrites = ([Ok(3), Err(SinkFailed), Err(SinkFailed), Ok(1)], true);

#[test]
fn a_sink_fails_at_the_calls_named_and_past_its_room(rt: HostRuntime) {
    same(&rt, &write(rt.alloc()), &Ok(WRITES));
}

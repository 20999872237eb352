// Replies, each with its text, and a sink that has no room for one.
use crate::asserts::same;
use arrayvec::ArrayVec;
use fl_base::{Name, Sink, SinkFailed};
use fl_script::{BlobNote, Reply, write_digits, write_reply};

/// Takes one byte at a time, up to a room.
#[derive(Drop)]
struct Narrow {
    bytes: ArrayVec<u8, 600>,
    room: usize,
    faults: u64,
}

impl Narrow {
    fn new(room: usize) -> Narrow {
        Narrow {
            bytes: ArrayVec::new(),
            room,
            faults: 0,
        }
    }
}

impl Sink for Narrow {
    ghost use Rattle.std.specs.Prelude.{Some};

    ghost written = { λ s. Some s.bytes.items };

    ghost faults = { λ s. s.faults };

    fn write(&mut self, from: &[u8]) -> Result<usize, SinkFailed> {
        let Some(first) = from.first() else {
            return Ok(0);
        };
        if self.bytes.len() >= self.room || self.bytes.try_push(*first).is_err() {
            self.faults = self.faults.saturating_add(1);
            return Err(SinkFailed);
        }
        Ok(1)
    }
}

fn list(values: &[i64]) -> ArrayVec<i64, 8> {
    let mut list = ArrayVec::new();
    let _ = list.try_extend_from_slice(values);
    list
}

/// Whether this is the text of a reply.
fn says(reply: Reply, text: &str) -> bool {
    let mut sink = Narrow::new(600);
    let result = write_reply(&reply, &mut sink);
    result.is_ok() && sink.bytes.as_slice() == text.as_bytes()
}

fn says_of_an_image(name: &[u8], text: &str) -> bool {
    match Name::of(name) {
        Some(name) => says(Reply::BadImage { name }, text),
        None => false,
    }
}

fn says_of_a_row(values: &[i64], blob: BlobNote, text: &str) -> bool {
    let values = list(values);
    says(
        Reply::Row {
            key: 1,
            values,
            blob,
        },
        text,
    )
}

fn says_of_a_pair(left: &[i64], right: &[i64], text: &str) -> bool {
    let (left, right) = (list(left), list(right));
    says(
        Reply::Pair {
            key: 3,
            left,
            right,
        },
        text,
    )
}

#[test]
fn lines(rt: HostRuntime) {
    let last = u64::MAX;
    let refused = "refused key 18446744073709551615\n";
    let said = [
        says(Reply::Done, "ok\n"),
        says(Reply::RefusedKey { last }, refused),
        says_of_an_image(b"t", "bad image t\n"),
        says(Reply::BytesBegin, "bytes "),
        says(Reply::BytesEmpty, "bytes -\n"),
        says(Reply::LineEnd, "\n"),
        says(Reply::CostGet { reads: 2, limit: 4 }, "cost 2 4\n"),
    ];
    same(&rt, &said, &[true; 7]);
}

#[test]
fn rows(rt: HostRuntime) {
    let said = [
        says_of_a_row(&[-5, 0], BlobNote::NoRing, "row 1 -5 0\n"),
        says_of_a_row(&[7], BlobNote::Nothing, "row 1 7 blob none\n"),
        says_of_a_row(&[], BlobNote::Length(300), "row 1 blob 300\n"),
        says_of_a_pair(&[30], &[300], "pair 3 30 300\n"),
    ];
    same(&rt, &said, &[true; 4]);
}

/// Whether the longest pair is written, and in how many bytes.
fn longest_pair() -> (Result<(), SinkFailed>, usize) {
    let mut sink = Narrow::new(600);
    let pair = Reply::Pair {
        key: u64::MAX,
        left: list(&[i64::MIN; 8]),
        right: list(&[i64::MIN; 8]),
    };
    let ends = write_reply(&pair, &mut sink);
    (ends, sink.bytes.len())
}

#[test]
fn long_lines(rt: HostRuntime) {
    same(&rt, &longest_pair(), &(Ok(()), 16 * 21 + 26));
}

const GROUP: Reply = Reply::Group {
    group: 1,
    count: 2,
    least: -2,
    greatest: -1,
    sum: i128::MIN,
    mean: -2,
};

const STAT: Reply = Reply::Stat {
    rows: 65,
    pending: 1,
    pages: 8,
    voids: 0,
    programs: 24,
    erases: 1,
};

#[test]
fn lines_of_numbers(rt: HostRuntime) {
    let group =
        "group 1 count 2 least -2 greatest -1 sum -170141183460469231731687303715884105728 mean -2\n";
    let stat = "stat rows 65 pending 1 pages 8 voids 0 programs 24 erases 1\n";
    same(&rt, &[says(GROUP, group), says(STAT, stat)], &[true; 2]);
}

/// Whether the digits of 260 bytes are written, in how many bytes, and whether they are in lower case.
fn many_digits() -> (Result<(), SinkFailed>, usize, bool) {
    let mut sink = Narrow::new(600);
    let ends = write_digits(&[0xa5; 260], &mut sink);
    let digits = sink.bytes.as_slice();
    (ends, digits.len(), digits.ends_with(b"a5a5"))
}

#[test]
fn digits(rt: HostRuntime) {
    same(&rt, &many_digits(), &(Ok(()), 520, true));
}

/// How a reply ends that finds no room, whether its first bytes are written, and how many faults there are.
fn reply_without_room() -> (Result<(), SinkFailed>, bool, u64) {
    let mut sink = Narrow::new(5);
    let ends = write_reply(&Reply::NoTable, &mut sink);
    let is_begun = sink.bytes.as_slice() == b"no ta".as_slice();
    (ends, is_begun, sink.faults)
}

#[test]
fn full(rt: HostRuntime) {
    same(&rt, &reply_without_room(), &(Err(SinkFailed), true, 1));
}

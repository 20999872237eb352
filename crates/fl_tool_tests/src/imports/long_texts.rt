// Imports of long lines, and of a long text.
use super::*;

// A header, a record, and a line of so many bytes.
fn with_line(alloc: Global, len: usize) -> Result<Vec<u8>, NoMemory> {
    let mut text = b"key,c1\n1,2\n".to_vec(alloc)?;
    for _ in 0..len {
        text.push(b'0')?;
    }
    text.extend_from_slice(b"\n3,4\n")?;
    Ok(text)
}

// How an import of a record, a line of so many bytes and a record ends.
fn import_line(
    alloc: Global,
    len: usize,
    told: &str,
    records_now: &[u8],
) -> Result<Taken, NoMemory> {
    let text = with_line(alloc, len)?;
    import_anew(alloc, (PLAIN, PLAIN_BYTES), &text, told, records_now)
}

#[test]
fn a_line_has_at_most_4096_bytes(rt: HostRuntime) {
    let told = "line 3 fields 2\nimported 2 refused 1\n";
    let both = b"key,c1\n1,2\n3,4\n";
    let longest = import_line(rt.alloc(), 4096, told, both);
    same(&rt, &longest, &Ok((ToolStatus::Done, Some(2), true, true)));
    let longer = import_line(rt.alloc(), 4097, "", b"key,c1\n1,2\n");
    let refused = ToolStatus::BadInput { line: 3 };
    same(&rt, &longer, &Ok((refused, None, true, true)));
}

// Behind the first record 4,096 lines of 4,096 bytes with their newline, each of which has one field too few.
fn long_text(alloc: Global) -> Result<Vec<u8>, NoMemory> {
    let mut line = Vec::new(alloc);
    line.resize(4095, b'0')?;
    line.push(b'\n')?;
    let mut text = b"key,c1\n1,2\n".to_vec(alloc)?;
    for _ in 0..4096 {
        text.extend_from_slice(&line)?;
    }
    Ok(text)
}

// How an import of them ends, and whether the first record is there.
fn import_long(alloc: Global) -> Result<(ToolStatus, bool), NoMemory> {
    let text = long_text(alloc)?;
    let mut media = empty(alloc, PLAIN, PLAIN_BYTES)?;
    let end = import(alloc, &mut media, b"t", &text, 100_000)?;
    let has_first = has_records(alloc, &mut media, b"key,c1\n1,2\n")?;
    Ok((end.status, has_first))
}

#[test]
fn an_input_has_at_most_16777216_bytes(rt: HostRuntime) {
    same(
        &rt,
        &import_long(rt.alloc()),
        &Ok((ToolStatus::InputLong, true)),
    );
}

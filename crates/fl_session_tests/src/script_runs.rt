// Runs of scripts in memory.
use fl_base::{MemSink, MemSource, NoMemory};
use fl_flash::MemMedia;
use fl_session::{Status, run};
use std::alloc::Global;

/// The words of a command line that runs a script.
fn words(alloc: Global) -> Result<Vec<String>, NoMemory> {
    let mut words = Vec::new(alloc);
    words.push(String::from_str(alloc, "run")?)?;
    words.push(String::from_str(alloc, "image")?)?;
    Ok(words)
}

/// Runs these words over a source and a sink, and gives the status, the source and the sink.
pub(crate) fn run_words(
    alloc: Global,
    words: &[String],
    media: &mut MemMedia,
    mut source: MemSource,
    mut sink: MemSink,
) -> (Status, MemSource, MemSink) {
    let status = run(alloc, words, media, &mut source, &mut sink);
    (status, source, sink)
}

/// .. that run the script of the source.
pub(crate) fn run_source(
    alloc: Global,
    media: &mut MemMedia,
    source: MemSource,
    sink: MemSink,
) -> Result<(Status, MemSource, MemSink), NoMemory> {
    Ok(run_words(alloc, &words(alloc)?, media, source, sink))
}

/// Runs a script over a medium, and gives the status and what was written.
pub(crate) fn run_script(
    alloc: Global,
    media: &mut MemMedia,
    script: Vec<u8>,
) -> Result<(Status, MemSink), NoMemory> {
    let source = MemSource::new(script, Vec::new(alloc));
    let sink = MemSink::new(alloc, 10_000, Vec::new(alloc))?;
    let (status, _, sink) = run_source(alloc, media, source, sink)?;
    Ok((status, sink))
}

/// Whether a script is run to its end, and this is written.
pub(crate) fn is_done(
    alloc: Global,
    media: &mut MemMedia,
    script: Vec<u8>,
    wanted: &[u8],
) -> Result<bool, NoMemory> {
    let (status, sink) = run_script(alloc, media, script)?;
    Ok(matches!(status, Status::Done { .. }) && sink.bytes() == wanted)
}

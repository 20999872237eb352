// Commands with the replies that are wanted.
use super::plain_store::{Cut, PlainStore};
use crate::script_runs::is_done;
use fl_base::{CutKind, NoMemory};
use fl_flash::MemMedia;
use std::alloc::Global;

/// Pages of three records, two in a block, in a ring of three blocks.
const CONFIG: &str = "device 64 2\ntable t 8 i32 3 0 0 0 0 1 1 0\n";

/// The bytes of that image.
const ROOM: usize = 1024 + 6 * 64;

/// A script and what it has to answer.
#[derive(Drop)]
pub struct Talk {
    script: Vec<u8>,
    wanted: Vec<u8>,
}

impl Talk {
    /// A script that is configured and mounts.
    pub(crate) fn new(alloc: Global) -> Result<Talk, NoMemory> {
        let mut talk = Talk {
            script: Vec::new(alloc),
            wanted: Vec::new(alloc),
        };
        talk.script.extend_from_slice(CONFIG.as_bytes())?;
        talk.add("mount", "ok")?;
        Ok(talk)
    }

    pub(crate) fn add(&mut self, command: &str, reply: &str) -> Result<(), NoMemory> {
        self.script.extend_from_slice(command.as_bytes())?;
        self.script.push(b'\n')?;
        self.wanted.extend_from_slice(reply.as_bytes())?;
        self.wanted.push(b'\n')?;
        Ok(())
    }

    pub(crate) fn add_outcome(&mut self, command: &str, stays_on: bool) -> Result<(), NoMemory> {
        self.add(command, if stays_on { "ok" } else { "power lost" })
    }

    pub(crate) fn add_cut(&mut self, alloc: Global, cut: &Cut) -> Result<(), NoMemory> {
        let left = cut.left;
        let line = match cut.kind {
            CutKind::Before => format!(in alloc; "cut {left} before")?,
            CutKind::After => format!(in alloc; "cut {left} after")?,
            CutKind::Half => format!(in alloc; "cut {left} half")?,
            CutKind::Noise(seed) => format!(in alloc; "cut {left} noise {seed}")?,
        };
        self.add(line.as_str(), "ok")
    }

    /// A mount, and a scan that lists the records kept.
    pub(crate) fn add_mount(&mut self, alloc: Global, store: &PlainStore) -> Result<(), NoMemory> {
        self.add("mount", "ok")?;
        self.script.extend_from_slice(b"scan t 0 99\n")?;
        let keys = store.kept(alloc)?;
        for key in keys.iter() {
            let line = format!(in alloc; "row {key} 0\n")?;
            self.wanted.extend_from_slice(line.as_bytes())?;
        }
        let line = format!(in alloc; "end {}\n", keys.len())?;
        self.wanted.extend_from_slice(line.as_bytes())?;
        Ok(())
    }
}

/// Whether a run of the script on a new image answers so.
pub(crate) fn is_answered(alloc: Global, talk: Talk) -> Result<bool, NoMemory> {
    let mut media = MemMedia::new(alloc, Vec::new(alloc), ROOM)?;
    is_done(alloc, &mut media, talk.script, &talk.wanted)
}

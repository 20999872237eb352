// Bytes and media in memory.
ghost use Rattle.std.specs.Prelude.{◌≡◌, length, vec_len, IfOk};

use fl_base::NoMemory;
use fl_flash::MemMedia;
use std::alloc::Global;

/// So many blank bytes.
pub(crate) fn blank(alloc: Global, len: usize) -> Result<Vec<u8>, NoMemory>
    ensures { IfOk result (λ v. vec_len v ≡ len) }
{
    Ok(vec![in alloc; 255; len]?)
}

/// A medium of so many blank bytes.
pub(crate) fn blank_medium(alloc: Global, len: usize) -> Result<MemMedia, NoMemory>
    ensures { IfOk result (λ m. length m.content ≡ len) }
{
    Ok(MemMedia::new(alloc, blank(alloc, len)?, len)?)
}

/// The bytes from 0 to 200.
pub(crate) fn counted() -> [u8; 201] {
    let mut bytes = [0; 201];
    for i in 0..201u8 {
        bytes[i as usize] = i;
    }
    bytes
}

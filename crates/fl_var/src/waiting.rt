// The content that waits for its page.
ghost use Rattle.std.specs.Prelude.{◌≡◌, ◌+◌, ◌-◌, ◌<◌, ◌≤◌, ◌++◌, ◌==◌, min, [], length, take, IfOk};
ghost use Rattle.fl_var.specs.Content.{content_body};
ghost use Rattle.fl_var.specs.WaitingState.{content_in, IsBlankBehind};

use fl_base::{NoMemory, put_u16, put_u32};
use std::alloc::Global;
use std::marker::Model;

/// How many bytes stand before the content.
pub(crate) const HEADER: usize = 8;

/// The body of the next page: room for its header, the content that waits, and blank bytes behind it.
#[derive(Drop)]
pub(crate) struct Waiting {
    page: Vec<u8>,
    fill: usize,
}

impl Model for Waiting {
    ghost use Rattle.std.specs.Prelude.{◌+◌, ◌<◌, ◌≤◌, vec_len};
    ghost use Rattle.fl_var.specs.WaitingState.{WaitingState};

    ghost Value = { WaitingState };

    ghost view = { λ w. record { body = w.page.items; fill = w.fill } };

    ghost invariant = { λ w. (8 + w.fill ≤ vec_len w.page) × (vec_len w.page < 65536) };
}

impl Waiting {
    ghost use Rattle.std.specs.Prelude.{ℕ};

    /// Without content, for a page of so many bytes.
    pub(crate) fn new(alloc: Global, size: u32) -> Result<Waiting, NoMemory>
        requires least { 16 ≤ size }
        requires most { size < 65536 }
        ensures size { IfOk result (λ w. length w.body + 8 ≡ size) }
        ensures empty { IfOk result (λ w. w.fill ≡ 0) }
        ensures blank { IfOk result IsBlankBehind }
    {
        Ok(Waiting {
            page: vec![in alloc; 0xff; size as usize - 8]?,
            fill: 0,
        })
    }

    /// The content.
    pub(crate) fn content(&self) -> &[u8]
        ensures content { result.now ≡ content_in self.now }
        ensures size { length result.now ≡ self.now.fill }
    {
        &self.page[HEADER..HEADER + self.fill]
    }

    /// Whether no byte more has room.
    pub(crate) fn is_full(&self) -> bool
        ensures { result ≡ (8 + self.now.fill == length self.now.body) }
    {
        HEADER + self.fill == self.page.len()
    }

    /// Takes as many bytes from the front as have room, and tells how many these are.
    pub(crate) fn put(&mut self, bytes: &[u8]) -> usize
        requires blank { IsBlankBehind self.old }
        ensures count { result ≡ min (length bytes.now) (length self.old.body - (8 + self.old.fill)) }
        ensures content { content_in self.new ≡ content_in self.old ++ take result bytes.now }
        ensures fill { self.new.fill ≡ self.old.fill + result }
        ensures size { length self.new.body ≡ length self.old.body }
        ensures blank { IsBlankBehind self.new }
    {
        let begin = HEADER + self.fill;
        let count = bytes.len().min(self.page.len() - begin);
        self.page[begin..begin + count].copy_from_slice(&bytes[..count]);
        self.fill += count;
        count
    }

    /// Writes the header of the page: its number, and how many bytes of content there are.
    pub(crate) fn finish(&mut self, number: u32)
        requires blank { IsBlankBehind self.old }
        ensures body { self.new.body ≡ content_body (length self.old.body - 8) number (content_in self.old) }
        ensures content { content_in self.new ≡ content_in self.old }
        ensures fill { self.new.fill ≡ self.old.fill }
        ensures size { length self.new.body ≡ length self.old.body }
        ensures blank { IsBlankBehind self.new }
    {
        put_u32(&mut self.page, 0, number);
        put_u16(&mut self.page, 4, self.fill as u16);
        put_u16(&mut self.page, 6, 0);
    }

    /// The body, which ends where the marks of the page begin.
    pub(crate) fn body(&self) -> &[u8]
        ensures { result.now ≡ self.now.body }
    {
        &self.page
    }

    /// No content: the bytes where it stood are blank again.
    pub(crate) fn clear(&mut self)
        requires blank { IsBlankBehind self.old }
        ensures fill { self.new.fill ≡ 0 }
        ensures content { content_in self.new ≡ [] }
        ensures size { length self.new.body ≡ length self.old.body }
        ensures blank { IsBlankBehind self.new }
    {
        let end = HEADER + self.fill;
        self.page[HEADER..end].fill(0xff);
        self.fill = 0;
    }
}

// A store that is one plain list of records, over pages that are only counted.
use fl_base::CutKind;
use std::alloc::{AllocError, Global};

/// The records of a page, the pages of a block and the blocks of the ring.
const ROWS: usize = 3;

const PAGES: u32 = 2;

const BLOCKS: u32 = 3;

/// The operation that is torn, counted from here on; 0 where none is.
#[derive(Clone, Copy, Debug)]
pub struct Cut {
    pub left: u64,
    pub kind: CutKind,
}

/// The keys of the records, those that are sealed with the numbers of their pages.
#[derive(Drop)]
pub struct PlainStore {
    sealed: Vec<(u64, u32)>,
    pending: Vec<u64>,
    oldest: u32,
    next: u32,
}

impl PlainStore {
    pub(crate) fn new(alloc: Global) -> PlainStore {
        PlainStore {
            sealed: Vec::new(alloc),
            pending: Vec::new(alloc),
            oldest: 0,
            next: 0,
        }
    }

    /// The keys of the sealed records that aren't given up.
    pub(crate) fn kept(&self, alloc: Global) -> Result<Vec<u64>, AllocError> {
        let mut keys = Vec::new(alloc);
        for (key, page) in self.sealed.iter() {
            if *page >= self.oldest {
                keys.push(*key)?;
            }
        }
        Ok(keys)
    }

    /// What is pending is lost.
    pub(crate) fn lose(&mut self) {
        self.pending.clear();
    }

    /// Puts a record. False says that the power went, and then the record isn't accepted.
    pub(crate) fn put(&mut self, key: u64, cut: &mut Cut) -> Result<bool, AllocError> {
        if self.pending.len() >= ROWS {
            if !self.seal(cut)? {
                return Ok(false);
            }
        }
        self.pending.push(key)?;
        Ok(true)
    }

    /// Seals what is pending. False says that the power went.
    pub(crate) fn flush(&mut self, cut: &mut Cut) -> Result<bool, AllocError> {
        if self.pending.is_empty() {
            return Ok(true);
        }
        self.seal(cut)
    }

    /// Whether the oldest block goes with this page.
    fn erases(&self, next: u32) -> bool {
        next % PAGES == PAGES - 1 && next >= BLOCKS * PAGES - 1
    }

    /// A page more is written, whatever stands in it.
    fn pass_page(&mut self) {
        self.next = self.next.wrapping_add(1);
        if self.erases(self.next) {
            self.oldest = self.next.saturating_sub((BLOCKS - 1) * PAGES - 1);
        }
    }

    fn commit(&mut self) -> Result<(), AllocError> {
        for key in self.pending.iter() {
            self.sealed.push((*key, self.next))?;
        }
        self.lose();
        self.pass_page();
        Ok(())
    }

    /// A body and a mark, and maybe an erase.
    fn seal(&mut self, cut: &mut Cut) -> Result<bool, AllocError> {
        let operations = if self.erases(self.next.wrapping_add(1)) {
            3
        } else {
            2
        };
        if cut.left == 0 || cut.left > operations {
            cut.left = cut.left.saturating_sub(operations);
            self.commit()?;
            return Ok(true);
        }
        match (cut.left, cut.kind) {
            // Nothing was written.
            (1, CutKind::Before) => self.lose(),
            // The page is torn, and the mount gives it up.
            (1, _) | (2, CutKind::Before | CutKind::Half | CutKind::Noise(_)) => {
                self.lose();
                self.pass_page();
            }
            // The page stands.
            _ => self.commit()?,
        }
        cut.left = 0;
        Ok(false)
    }
}

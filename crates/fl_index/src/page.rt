// An index page: its number in four bytes, the first data page that it lists in four, the count of its entries in two,
// six zeros, and the entries of consecutive data pages.
ghost use Rattle.std.specs.Prelude.{◌≡◌, ◌+◌, ◌*◌, ◌≤◌, ◌^◌, ◌%◌, ◌<◌, length, take, drop};
ghost use Rattle.fl_index.specs.Page.{page_number, page_first, page_entries, header_bytes, form_len, bytes_of, bitmap_at, found_at, full_view};
ghost use Rattle.fl_model.specs.Layout.{full_bytes};
ghost use Rattle.fl_base.specs.Bytes.{splice};
ghost use Rattle.fl_model.specs.Row.{le, number_of};

use byteorder::{ByteOrder, LittleEndian};
use fl_base::{get_u16, get_u32, get_u64, put_u16, put_u32, put_u64};

/// How many bytes stand before the entries.
pub(crate) const HEADER: usize = 16;

/// The number of a page.
pub(crate) fn number_in(page: &[u8]) -> u32
    requires { 16 ≤ length page.now }
    ensures { result ≡ page_number page.now }
{
    get_u32(page, 0)
}

/// The first data page that an index page lists.
pub fn first_in(page: &[u8]) -> u32
    requires { 16 ≤ length page.now }
    ensures { result ≡ page_first page.now }
{
    get_u32(page, 4)
}

/// How many entries it says to hold.
pub(crate) fn count_in(page: &[u8]) -> u16
    requires { 16 ≤ length page.now }
    ensures { result ≡ page_entries page.now }
{
    get_u16(page, 8)
}

/// Writes what stands before its entries.
pub(crate) fn write_header(body: &mut [u8], number: u32, first: u32, count: u16)
    requires { 16 ≤ length body.old }
    ensures { body.new ≡ splice body.old 0 (header_bytes number first count) }
{
    put_u32(body, 0, number);
    put_u32(body, 4, first);
    put_u16(body, 8, count);
    body[10..16].fill(0);
}

/// The form of the entries of an index: the bytes of a bitmap, and whether an entry tells more.
#[derive(Clone, Copy)]
pub struct EntryForm {
    pub width: usize,
    pub full: bool,
}

/// What a full entry tells of a data page beside its bitmap: its first key, its count of rows, and one more than the
/// greatest page that a blob of length above 0 in it names, or 0.
#[derive(Clone, Copy, Debug, PartialEq, Eq)]
pub struct Full {
    pub first_key: u64,
    pub count: u16,
    pub blob_end: u32,
}

/// An entry: its bitmap, and what it tells beside it, where it is full.
#[derive(Clone, Copy, Debug, PartialEq, Eq)]
pub struct Found {
    pub bitmap: u64,
    pub full: Option<Full>,
}

/// The bytes of an entry.
pub fn entry_len(form: EntryForm) -> usize
    requires { form.width ≤ 8 }
    ensures { result ≡ form_len form }
{
    if form.full {
        form.width + 14
    } else {
        form.width
    }
}

/// The bitmap of one of the entries of an index page.
pub fn bitmap_in(page: &[u8], form: EntryForm, entry: usize) -> u64
    requires some { 1 ≤ form.width }
    requires few { form.width ≤ 8 }
    requires room { 16 + (entry + 1) * form_len form ≤ length page.now }
    ensures { result ≡ bitmap_at form page.now entry }
{
    let at = HEADER + entry * entry_len(form);
    LittleEndian::read_uint(&page[at..at + form.width], form.width)
}

/// What a full entry tells beside its bitmap, from a byte on.
fn full_in(page: &[u8], at: usize) -> Full
    requires { at + 14 ≤ length page.now }
    ensures { result ≡ record { first_key = number_of (take 8 (drop at page.now)); count = number_of (take 2 (drop (at + 8) page.now)); blob_end = number_of (take 4 (drop (at + 10) page.now)) } }
{
    Full {
        first_key: get_u64(page, at),
        count: get_u16(page, at + 8),
        blob_end: get_u32(page, at + 10),
    }
}

/// One of the entries of an index page.
pub fn found_in(page: &[u8], form: EntryForm, entry: usize) -> Found
    requires some { 1 ≤ form.width }
    requires few { form.width ≤ 8 }
    requires room { 16 + (entry + 1) * form_len form ≤ length page.now }
    ensures { result ≡ found_at form page.now entry }
{
    let bitmap = bitmap_in(page, form, entry);
    if !form.full {
        return Found { bitmap, full: None };
    }
    let at = HEADER + entry * entry_len(form) + form.width;
    Found {
        bitmap,
        full: Some(full_in(page, at)),
    }
}

/// Writes what a full entry tells beside its bitmap.
fn write_full(body: &mut [u8], at: usize, full: Full)
    requires room { at + 14 ≤ length body.old }
    ensures { body.new ≡ splice body.old at (full_bytes (full_view full)) }
{
    put_u64(body, at, full.first_key);
    put_u16(body, at + 8, full.count);
    put_u32(body, at + 10, full.blob_end);
}

/// Writes a bitmap: its bits that its bytes have room for.
fn write_bitmap(body: &mut [u8], at: usize, width: usize, bitmap: u64)
    requires few { width ≤ 8 }
    requires room { at + width ≤ length body.old }
    ensures { body.new ≡ splice body.old at (le width bitmap) }
{
    body[at..at + width].copy_from_slice(&bitmap.to_le_bytes()[..width]);
}

/// Writes one of the entries.
pub(crate) fn write_entry(body: &mut [u8], form: EntryForm, entry: usize, bitmap: u64, full: Full)
    requires few { form.width ≤ 8 }
    requires room { 16 + entry * form_len form + form_len form ≤ length body.old }
    ensures { body.new ≡ splice body.old (16 + entry * form_len form) (bytes_of form (record { bitmap = bitmap; full = full_view full })) }
{
    let at = HEADER + entry * entry_len(form);
    write_bitmap(body, at, form.width, bitmap);
    if form.full {
        write_full(body, at + form.width, full);
    }
}

/// Copies so many bytes of the entries of an index page to a body.
pub(crate) fn copy_entries(body: &mut [u8], page: &[u8], bytes: usize)
    requires body { 16 + bytes ≤ length body.old }
    requires page { 16 + bytes ≤ length page.now }
    ensures { body.new ≡ splice body.old 16 (take bytes (drop 16 page.now)) }
{
    let end = HEADER + bytes;
    body[HEADER..end].copy_from_slice(&page[HEADER..end]);
}

// The mount of an index: its ring is mounted, and the headers of its pages are read.
ghost use Rattle.std.specs.Prelude.{◌≡◌, ◌+◌, ◌-◌, ◌*◌, ◌%◌, ◌^◌, ◌<◌, ◌≤◌, None, Some, Ok, Err, false, true, is_ok, length, vec_len, slice_index_or, option_map, IsTrue, IfSome, IfOk, IfErr, OnOk, OnErr, MatchOption};
ghost use Rattle.fl_flash.specs.Flash.{Goes, page_at, pages};
ghost use Rattle.fl_ring.specs.Causes.{IfFlash};
ghost use Rattle.fl_frame.specs.Causes.{CausedBy, ReadFails};
ghost use Rattle.fl_frame.specs.Reads.{OnlyReads};
ghost use Rattle.fl_ring.specs.Place.{shape_of, next_of, oldest_of, LiesOn as LiesIn};
ghost use Rattle.fl_ring.specs.Ring.{room, place};
ghost use Rattle.fl_ring.specs.declared.fault.RingFault.{RingFault};
ghost use Rattle.fl_flash.specs.declared.flash.FlashFault.{FlashFault};
ghost use Rattle.fl_index.specs.Headers.{header_of, AreRemembered, kept_page};
ghost use Rattle.fl_index.specs.Page.{first_on};

use crate::index::BitmapIndex;
use crate::page::{count_in, first_in};
use fl_flash::{Flash, FlashFault, PageBuf};
use fl_mark::{PageState, state_of};
use fl_ring::{NewestPage, Ring, RingFault};

/// The newest committed index page: where it stands, and what its header says.
#[derive(Clone, Copy)]
pub(crate) struct Newest {
    pub(crate) page: u32,
    pub(crate) first: u32,
    pub(crate) count: u32,
}

impl BitmapIndex {
    ghost use Rattle.std.specs.Prelude.{ℕ, Bool};
    ghost use Rattle.fl_model.specs.Record.{Plan};
    ghost use Rattle.fl_model.specs.Table as model;
    ghost use Rattle.fl_model.specs.Work.{Device};
    ghost use Rattle.fl_model.specs.MountLimit.{part_mount_limit};
    ghost use Rattle.fl_model.specs.Table.{IndexRing, shape_of as model_shape};
    ghost use Rattle.fl_ring.specs.Mounting.{search_reads};
    ghost use Rattle.fl_ring.specs.Repairing.{Beside};
    ghost use Rattle.fl_ring.specs.Ring.{OutsideStands};
    ghost use Rattle.fl_frame.specs.Watched.{IsWatched};
    ghost use Rattle.fl_index.specs.Finding.{FewRepairs, FindsEnd, FindsIndex, RefusesEnd, RefusesIndex};
    ghost use Rattle.fl_frame.specs.Reads.{FewReads};
    ghost use Rattle.fl_index.specs.Memory.{first_in, is_running, waiting_in, per_page, ring_shape, IsPlanned, IsSamePlan, LiesOn};
    ghost use Rattle.fl_index.specs.Outcomes.{FindEnds, MountEnds};
    ghost use Rattle.fl_index.specs.Standing.{Rests};

    // As it was before its first mount.
    fn forget(&mut self)
        ensures same { IsSamePlan self.old self.new }
        ensures down { is_running self.new ≡ false }
        ensures none { waiting_in self.new ≡ 0 }
        ensures unknown { (number : ℕ) → first_in self.new number ≡ None }
    {
        self.ring = None;
        self.firsts.fill(None);
        self.first = 0;
        self.waiting = 0;
    }

    /// Mounts the index: the ring is repaired, and each kept page is read once. It answers the number after the data
    /// pages that its newest committed page lists, and none where there is no such page. No bitmap waits afterwards, and
    /// the buffer holds no page. After an error it isn't mounted.
    pub fn mount<F: Flash>(
        &mut self,
        flash: &mut F,
        buf: &mut PageBuf,
    ) -> Result<Option<u32>, RingFault>
        requires lies { LiesOn self.old (F.state flash.old) }
        requires room { length buf.old.bytes ≡ (F.state flash.old).geometry.page }
        ensures goes { Goes (F.state flash.old) (F.state flash.new) }
        ensures same { IsSamePlan self.old self.new }
        ensures lies { LiesOn self.new (F.state flash.new) }
        ensures room { length buf.new.bytes ≡ length buf.old.bytes }
        ensures holds { buf.new.holds ≡ None }
        ensures ends { (first : ℕ) → (plan : Plan) → (table : model.Table) → (rose : Bool) → (device : Device) → IsWatched (F.state flash.old) (F.state flash.new) rose device
            → IsPlanned self.old first plan → Rests (F.state flash.old) first plan table → MountEnds first plan table rose device result self.new (F.state flash.new) }
        ensures running { is_running self.new ≡ is_ok result }
        ensures idle { waiting_in self.new ≡ 0 }
        ensures found { IfOk result (λ end. IsTrue (F.state flash.old).media.tells → FindsIndex self.old (F.state flash.old) end self.new (F.state flash.new)) }
        ensures refused { IfErr result (λ e. IsTrue (F.state flash.old).media.tells → RefusesIndex self.old (F.state flash.old) e (F.state flash.new)) }
        ensures outside { IsTrue (F.state flash.old).media.tells → OutsideStands (ring_shape self.old) (page_at (F.state flash.old)) (page_at (F.state flash.new)) }
        ensures reads { IsTrue (F.state flash.old).media.tells → FewReads (4 * room (ring_shape self.old)) (F.state flash.old) (F.state flash.new) }
        ensures repairs { FewRepairs (F.state flash.old) (F.state flash.new) }
        ensures cause { IfErr result (λ e. IfFlash (λ fault. CausedBy (F.state flash.old) fault (F.state flash.new)) e) }
        ensures off { (F.state flash.old).is_on ≡ false → (result ≡ Err (RingFault.Flash FlashFault.PowerLost)) × ((F.state flash.new) ≡ F.state flash.old) }
        ensures power { OnOk result ((F.state flash.new).is_on ≡ true) }
    {
        let end = self.find(flash, buf)?;
        let Some(ring) = self.ring.take() else {
            unreachable!()
        };
        read_firsts(&ring, &mut self.firsts, flash, buf)?;
        self.ring = Some(ring);
        Ok(end)
    }

    /// Finds the ring of the index and repairs it: the first part of a mount. It answers the number after the data pages that
    /// the newest committed page lists, and none where there is no such page. No page is read but by the mount of the ring, so
    /// the pages that list data pages are known only as `load` reads them. No entry waits afterwards, and the buffer
    /// holds no page.
    ///
    /// # Errors
    ///
    /// Those of the ring's mount, and a bad page where the newest committed one has another count than it has to, or lists
    /// numbers of more than four bytes. After an error the index isn't mounted.
    pub fn find<F: Flash>(
        &mut self,
        flash: &mut F,
        buf: &mut PageBuf,
    ) -> Result<Option<u32>, RingFault>
        requires lies { LiesOn self.old (F.state flash.old) }
        requires room { length buf.old.bytes ≡ (F.state flash.old).geometry.page }
        ensures ends { (first : ℕ) → (plan : Plan) → (table : model.Table) → (rose : Bool) → (device : Device) → IsWatched (F.state flash.old) (F.state flash.new) rose device
            → IsPlanned self.old first plan → Rests (F.state flash.old) first plan table → FindEnds first plan table rose device result self.new (F.state flash.new) }
        ensures running { is_running self.new ≡ is_ok result }
        ensures idle { waiting_in self.new ≡ 0 }
        ensures unknown { (number : ℕ) → first_in self.new number ≡ None }
        ensures found { IfOk result (λ end. IsTrue (F.state flash.old).media.tells → FindsEnd self.old (F.state flash.old) end self.new (F.state flash.new)) }
        ensures refused { IfErr result (λ e. IsTrue (F.state flash.old).media.tells → RefusesEnd self.old (F.state flash.old) e (F.state flash.new)) }
        ensures reads { (first : ℕ) → (plan : Plan) → (table : model.Table) → IsTrue (F.state flash.old).media.tells → IsPlanned self.old first plan → Rests (F.state flash.old) first plan table
            → (F.state flash.new).work.reads ≤ (F.state flash.old).work.reads + part_mount_limit (model_shape plan IndexRing) table.index }
        ensures beside { Beside (ring_shape self.old) (search_reads (ring_shape self.old) + (ring_shape self.old).per_block) 1 1 (F.state flash.old) (F.state flash.new) }
        ensures same { IsSamePlan self.old self.new }
        ensures lies { LiesOn self.new (F.state flash.new) }
        ensures cause { IfErr result (λ e. IfFlash (λ fault. CausedBy (F.state flash.old) fault (F.state flash.new)) e) }
        ensures off { (F.state flash.old).is_on ≡ false → (result ≡ Err (RingFault.Flash FlashFault.PowerLost)) × ((F.state flash.new) ≡ F.state flash.old) }
        ensures power { OnOk result ((F.state flash.new).is_on ≡ true) }
        ensures room { length buf.new.bytes ≡ length buf.old.bytes }
        ensures holds { buf.new.holds ≡ None }
    {
        self.forget();
        let (ring, newest) = Ring::mount_with_newest(flash, self.place, 0, buf)?;
        let end = self.end_of(header_of(&ring, newest))?;
        self.ring = Some(ring);
        Ok(end)
    }

    /// The number after the data pages that the newest page lists.
    fn end_of(&self, newest: Option<Newest>) -> Result<Option<u32>, RingFault>
        ensures end { IfOk result (λ end. MatchOption newest (end ≡ None) (λ n. (n.count ≡ per_page self.now) × (n.first + per_page self.now < 2 ^ 32) × (end ≡ Some (n.first + per_page self.now)))) }
        ensures bad { IfErr result (λ e. IfSome newest (λ n. ((n.count ≡ per_page self.now → n.first + per_page self.now < 2 ^ 32 → ⊥) × (e ≡ RingFault.BadPage n.page (per_page self.now) n.count)))) }
        ensures some { OnErr result (newest ≡ None → ⊥) }
    {
        let Some(newest) = newest else {
            return Ok(None);
        };
        let wanted = self.capacity();
        if newest.count != wanted || newest.first > u32::MAX - wanted {
            return Err(RingFault::BadPage {
                page: newest.page,
                wanted,
                found: newest.count,
            });
        }
        Ok(Some(newest.first + wanted))
    }
}

/// The header of the newest committed page of a ring, where it keeps any.
fn header_of(ring: &Ring, newest: Option<NewestPage>) -> Option<Newest>
    ensures { result ≡ option_map (λ n. header_of (place (shape_of ring.now) n.number) n.header) newest }
{
    match newest {
        Some(newest) => Some(Newest {
            page: ring.place_of(newest.number),
            first: first_in(&newest.header),
            count: u32::from(count_in(&newest.header)),
        }),
        None => None,
    }
}

/// Reads a page, and gives the first data page that it lists. The buffer holds no page afterwards.
fn read_first<F: Flash>(
    flash: &mut F,
    page: u32,
    buf: &mut PageBuf,
) -> Result<Option<u32>, FlashFault>
    requires exists { page < pages (F.state flash.old) }
    requires room { length buf.old.bytes ≡ (F.state flash.old).geometry.page }
    ensures reads { OnlyReads (F.state flash.old) 1 (F.state flash.new) }
    ensures room { length buf.new.bytes ≡ length buf.old.bytes }
    ensures none { buf.new.holds ≡ None }
    ensures first { IfOk result (λ first. IsTrue (F.state flash.old).media.tells → first ≡ first_on (page_at (F.state flash.old) page)) }
    ensures fails { IfErr result (λ e. ReadFails (F.state flash.old) e (F.state flash.new)) }
    ensures power { OnOk result ((F.state flash.new).is_on ≡ true) }
{
    flash.read(page, buf)?;
    buf.forget();
    let bytes = buf.bytes();
    let PageState::Committed = state_of(bytes) else {
        return Ok(None);
    };
    Ok(Some(first_in(bytes)))
}

/// Reads the kept pages of a ring, from the oldest on, and remembers the first data page that each lists.
fn read_firsts<F: Flash>(
    ring: &Ring,
    firsts: &mut [Option<u32>],
    flash: &mut F,
    buf: &mut PageBuf,
) -> Result<(), FlashFault>
    requires lies { LiesIn ring.now (F.state flash.old) }
    requires room { length buf.old.bytes ≡ (F.state flash.old).geometry.page }
    requires none { buf.old.holds ≡ None }
    requires firsts { length firsts.old ≡ room (shape_of ring.now) }
    ensures reads { OnlyReads (F.state flash.old) (next_of ring.now - oldest_of ring.now) (F.state flash.new) }
    ensures room { length buf.new.bytes ≡ length buf.old.bytes }
    ensures none { buf.new.holds ≡ None }
    ensures size { length firsts.new ≡ length firsts.old }
    ensures firsts { OnOk result (next_of ring.now - oldest_of ring.now ≤ length firsts.old → IsTrue (F.state flash.old).media.tells →
        AreRemembered (kept_page ring.now (F.state flash.old)) (oldest_of ring.now) (next_of ring.now - oldest_of ring.now) firsts.new) }
    ensures fails { IfErr result (λ e. ReadFails (F.state flash.old) e (F.state flash.new)) }
    ensures power { OnOk result ((F.state flash.old).is_on ≡ true → (F.state flash.new).is_on ≡ true) }
{
    for number in ring.oldest()..ring.next_number() {
        let first = read_first(flash, ring.place_of(number), buf)?;
        let at = number as usize % firsts.len();
        firsts[at] = first;
    }
    Ok(())
}

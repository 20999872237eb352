// A table that was taken.
ghost use Rattle.std.specs.Prelude.{◌≡◌};
ghost use Rattle.fl_plan.specs.Plan.{blocks_in};

use arrayvec::ArrayVec;
use fl_base::{Geometry, Name, RingPlace};
use fl_plan::TableConfig;
use fl_schema::KeyWidth;

/// A table with its name, the base and width that stand in the header though it may have no buckets, and its log, if it has one.
#[derive(Drop)]
pub(crate) struct Entry {
    pub(crate) name: Name,
    pub(crate) base: i64,
    pub(crate) width: u64,
    pub(crate) config: TableConfig,
    pub(crate) log: Option<RingPlace>,
}

impl Entry {
    ghost use Rattle.fl_config.specs.Entry.{plan_in};

    /// The blocks of its log; 0 where it has none.
    pub(crate) fn log_blocks(&self) -> u32
        ensures { result ≡ blocks_in self.now.log }
    {
        self.log.map_or(0, |place| place.blocks)
    }

    /// How many buckets it has; 0 where it has none.
    pub(crate) fn bits(&self) -> u32
        ensures { result ≡ (plan_in self.now).bits }
    {
        self.config.buckets.map_or(0, |buckets| buckets.bits)
    }

    /// The base of its buckets, or what its line says.
    pub(crate) fn base(&self) -> i64
        ensures { result ≡ (plan_in self.now).base }
    {
        self.config
            .buckets
            .map_or(self.base, |buckets| buckets.base)
    }

    /// The width of its buckets, or what its line says.
    pub(crate) fn width(&self) -> u64
        ensures { result ≡ (plan_in self.now).width }
    {
        self.config
            .buckets
            .map_or(self.width, |buckets| buckets.width)
    }
}

// The room of a list of tables is filled with this one.
impl Default for Entry {
    fn default() -> Entry {
        Entry {
            name: Name::of(b"t").unwrap(),
            base: 0,
            width: 1,
            config: TableConfig {
                geometry: Geometry { page: 64, block: 2 },
                key: KeyWidth::Four,
                columns: ArrayVec::new(),
                rows: RingPlace {
                    first_block: 0,
                    blocks: 3,
                },
                index: None,
                var: None,
                buckets: None,
                error: 0,
                blob_limit: 0,
                full_index: false,
            },
            log: None,
        }
    }
}

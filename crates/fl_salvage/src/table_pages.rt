// Where the pages of a table lie, and the form of its rows.
ghost use Rattle.std.specs.Prelude.{◌≡◌, ◌≤◌, length};
ghost use Rattle.std.specs.Option.{ForSome};
ghost use Rattle.fl_schema.specs.Schema.{layout_of};
ghost use Rattle.fl_salvage.specs.Pages.{IsRing};

use crate::ring::RingPages;
use fl_schema::Schema;

/// The rings of a table that hold its rows and its blobs, and the form of its rows.
#[derive(Drop)]
pub(crate) struct TablePages {
    pub(crate) schema: Schema<8>,
    pub(crate) rows: RingPages,
    pub(crate) var: Option<RingPages>,
    pub(crate) blob_limit: u32,
    ghost rows_are: { IsRing rows },
    ghost var_is: { ForSome var (λ ring. IsRing ring × (ring.size ≡ rows.size)) },
    ghost few: { length (layout_of schema).columns ≤ 8 },
}

//! The model of the store as definitions: records, rings, tables, operations, queries, spline, layouts, images and
//! limits. Each storage crate's contracts cite them. Here are also the laws on the operations of a table and on its index.
#![tactic(auto)]

ghost use Rattle.fl_model.specs.Bare.{BareTables};
ghost use Rattle.fl_model.specs.BlobsStay.{BlobsStay};
ghost use Rattle.fl_model.specs.Fresh.{NewTablesStand};
ghost use Rattle.fl_model.specs.FullIndex.{EndsListing, EntriesStand, FullMountsAreShort, PagesTellBlobs};
ghost use Rattle.fl_model.specs.Laws.{TablesPerform, TablesPut, TablesMount, WorkIsDone};
ghost use Rattle.fl_model.specs.Ship.{CopiesAreParts, ShipsAll, ShipsParts};
ghost use Rattle.fl_model.specs.ShipWork.{ShipKeeps};
ghost use Rattle.fl_model.specs.Telling.{TellingStays};

/// What holds of a table between two runs holds of an empty one.
pub fn new_tables_stand()
    ensures { NewTablesStand }
{}

/// What one table performs, all tables perform.
pub fn tables_perform()
    ensures { TablesPerform }
{}

/// What one table puts, the page of its log with it, all tables put.
pub fn tables_put()
    ensures { TablesPut }
{}

/// The mount of one table is its part in the mount of all tables.
pub fn tables_mount()
    ensures { TablesMount }
{}

/// The operations of seals, when all of them are done, make these seals, and each was counted once.
pub fn work_is_done()
    ensures { WorkIsDone }
{}

/// No index page lists a data page from the end of the index on, and no page that is still to be sealed is indexed; and none lists
/// one of a data ring of void pages that has its numbers again.
pub fn listing_ends()
    ensures { EndsListing }
{}

/// The kept index pages hold of a data ring that has its numbers again what they held of it before.
pub fn entries_stand()
    ensures { EntriesStand }
{}

/// What index entries tell of data pages goes on where pages are sealed, voided or given up, where a table is mounted, and where it
/// is lost.
pub fn telling_stays()
    ensures { TellingStays }
{}

/// Blobs that aren't gone stand where a record joins, where a page of variable data is sealed, for as long as their first pages are
/// kept, where records are given up, and, if their own are written, where the table is lost.
pub fn blobs_stay()
    ensures { BlobsStay }
{}

/// The greatest blob end that index entries of all its pages tell is that of a table.
pub fn pages_tell_blobs()
    ensures { PagesTellBlobs }
{}

/// A mount that goes by index entries reads at most four pages for each page of the table's rings.
pub fn full_mounts_are_short()
    ensures { FullMountsAreShort }
{}

/// Over every list of runs, ships and cuts in which all that a table ever had has ascending keys, its copy is a part of it.
pub fn copies_are_parts()
    ensures { CopiesAreParts }
{}

/// A copy that is a part of any list of records with ascending keys, as its table is, is a part of it after a ship, however that
/// ended.
pub fn ships_parts()
    ensures { ShipsParts }
{}

/// A ship of all that is left leaves the table's last record in its copy.
pub fn ships_all()
    ensures { ShipsAll }
{}

/// However a ship ends, the copy keeps a front of what it had and was given, without its oldest records.
pub fn ship_keeps()
    ensures { ShipKeeps }
{}

/// What a table without its log does to its rings, the table with its log does, and the log stays.
pub fn bare_tables()
    ensures { BareTables }
{}

//! The law of shipping as a whole: over runs of a source, ships and cuts, what a copy's table has is a part of all that was ever
//! written into the source's.
#![tactic(auto)]

ghost use Rattle.fl_shipped.specs.Ascending.{KeysAscend};
ghost use Rattle.fl_shipped.specs.Growing.{RunsGrow};
ghost use Rattle.fl_shipped.specs.Shipped.{CopiesOfImagesAreParts};

/// In each run the pages of a table without a log keep all that they had and all that was written into them, but for the oldest
/// records.
pub fn runs_grow()
    ensures { RunsGrow }
{}

/// In each run the keys of all that is written into a table without a log go on to ascend, unless the table's last record is given
/// up, and it then takes one with a key that isn't above it.
pub fn keys_ascend()
    ensures { KeysAscend }
{}

/// Over every list of runs of a source, ships, repeated ships and cuts that begins with an empty source and an empty copy, the copy's
/// table has a part, without a gap, of all that was ever written into the source's, where the keys of that ascend.
pub fn copies_of_images_are_parts()
    ensures { CopiesOfImagesAreParts }
{}

//! Tests of flashes, pages and rows, rings, splines, searches and lookups, indexes, variable data, tables, tables with a log,
//! cursors and operators, through public calls. They stand above all that they call, so that each crate below is proved once.
#![tactic(auto)]

#[cfg(test)]
mod answers;
#[cfg(test)]
mod asserts;
#[cfg(test)]
mod buckets;
#[cfg(test)]
mod changed_pages;
#[cfg(test)]
mod cursors;
#[cfg(test)]
mod data_pages;
#[cfg(test)]
mod flashes;
#[cfg(test)]
mod indexes;
#[cfg(test)]
mod logged_tables;
#[cfg(test)]
mod lookups;
#[cfg(test)]
mod media;
#[cfg(test)]
mod operators;
#[cfg(test)]
mod page_searches;
#[cfg(test)]
mod page_states;
#[cfg(test)]
mod radix_tables;
#[cfg(test)]
mod rings;
#[cfg(test)]
mod rows;
#[cfg(test)]
mod splines;
#[cfg(test)]
mod stores;
#[cfg(test)]
mod tables;
#[cfg(test)]
mod var_data;

/// A table with the sizes of the tests.
#[cfg(test)]
pub(crate) type Table = fl_table::Table<64, 64>;

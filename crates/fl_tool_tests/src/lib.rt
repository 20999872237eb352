//! Tests of checks, maps, salvages, exports, imports and ships, over images made by hand, through public calls. They stand above all that they call,
//! so that each crate below is proved once.
#![tactic(auto)]

#[cfg(test)]
mod asserts;
#[cfg(test)]
mod checks;
#[cfg(test)]
mod exports;
#[cfg(test)]
mod full_entries;
#[cfg(test)]
mod image_checks;
#[cfg(test)]
mod imports;
#[cfg(test)]
mod log_jobs;
#[cfg(test)]
mod logs;
#[cfg(test)]
mod maps;
#[cfg(test)]
mod salvages;
#[cfg(test)]
mod ship_cuts;
#[cfg(test)]
mod ships;

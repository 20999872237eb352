//! Tests of what stands at the bottom, of the lines of a script, of lines of CSV, of replies, of configurations and of the images
//! that have them, through public calls. They stand above all that they call, so that each crate below is proved once.
#![tactic(auto)]

#[cfg(test)]
mod asserts;
#[cfg(test)]
mod base;
#[cfg(test)]
mod config_lines;
#[cfg(test)]
mod csv_lines;
#[cfg(test)]
mod images;
#[cfg(test)]
mod replies;
#[cfg(test)]
mod script_lines;
#[cfg(test)]
mod table_configs;

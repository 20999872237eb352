//! What a damaged image still holds of a table: the rows of each page of its data ring that has the form of a data page, as
//! lines of CSV, whatever stands elsewhere.
#![tactic(auto)]

mod blob;
mod config;
mod fault;
mod found;
mod line;
mod numbers;
mod passed_over;
mod ring;
mod rooms;
mod rows;
mod salvage;
mod table;
mod table_pages;

pub use passed_over::PassedOver;
pub use salvage::{SalvageEnd, salvage_image};

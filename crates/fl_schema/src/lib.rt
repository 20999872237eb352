//! Columns and rows: the types of columns, the schema of a table, and a row's bytes both ways.
#![tactic(auto)]

mod column;
mod reference;
mod row;
mod schema;

pub use column::ColumnType;
pub use row::{RowKind, RowRef};
pub use schema::{KeyWidth, Schema, SchemaRefusal};

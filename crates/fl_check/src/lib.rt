//! A check of the rings of a table: it reads their pages, repairs nothing, and tells the first rule that doesn't hold.
#![tactic(auto)]

mod faults;
mod finding;
mod halt;
mod index_form;
mod laws;
mod log;
mod ring_rules;
mod rule_6_entry;
mod rule_7_blob;
mod table;
mod table_rules;
mod told_entry;

pub use faults::{RingFaults, TableFaults, TableRules};
pub use finding::{CheckFault, Finding, RingName};
pub use fl_rules::{
    AscendingForm, Breach, ContentForm, DataForm, Form, HeadPages, Marks, Numbering, Rule, Stop,
    check_forms, check_keys, check_numbering, check_rest, content_page_is_good, data_page_is_good,
    index_page_is_good, keys_ascend,
};
pub use laws::{
    findings_are_one, kept_pages_are_good, mounts_find_numbers, rings_keep_rules,
    rules_tell_findings, sound_images_stand, sound_rings_stand,
};
pub use rule_6_entry::{Indexing, check_entries};
pub use table::{TableNumbers, check_table, schema_of};
pub use table_rules::check_rules;

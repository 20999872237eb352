//! The rules that the pages of one ring keep, and the check of each: it reads pages, repairs nothing, and tells the first page that breaks a rule.
#![tactic(auto)]

mod bytes;
mod content_page;
mod data_page;
mod forms;
mod index_page;
mod keys;
mod marks;
mod numbering;
mod reaches;
mod ring;
mod rule;
mod rule_2_state;
mod rule_3_number;
mod rule_4_body;
mod rule_5_keys;
mod rule_8_blank;
mod tally;

pub use content_page::content_page_is_good;
pub use data_page::data_page_is_good;
pub use forms::{AscendingForm, ContentForm, DataForm};
pub use index_page::index_page_is_good;
pub use keys::keys_ascend;
pub use marks::{HeadPages, Marks, read_marks};
pub use numbering::{Numbering, check_numbering};
pub use reaches::find_reaches;
pub use ring::{check_log, check_ring, check_rows};
pub use rule::{Breach, Rule, Stop};
pub use rule_2_state::check_states;
pub use rule_3_number::check_numbers;
pub use rule_4_body::{Form, check_forms};
pub use rule_5_keys::{check_keys, number_in};
pub use rule_8_blank::check_rest;
pub use tally::{Tally, blobs_end, find_end, tally_pages};

// The forms of the lines of a script.
use crate::word::word_at;

/// The form of a put: so many values as there are columns, and perhaps a blob.
pub(crate) const PUT: &str = "put NAME KEY VALUE.. [blob HEX]";

/// The form of a table.
pub(crate) const TABLE: &str =
    "table NAME KEY COLUMNS DATA INDEX VAR BITS BASE WIDTH ERROR BLOB [index2] [rlc LOG]";

/// The form of each line: the word with which it begins and the names of the places of its other words; what stands in
/// brackets may be lacking.
const FORMS: [&str; 20] = [
    "device PAGE BLOCK",
    TABLE,
    "mount",
    "off",
    "cut N KIND [SEED]",
    PUT,
    "flush NAME",
    "get NAME KEY",
    "blob NAME KEY",
    "scan NAME LOW HIGH [VLOW VHIGH]",
    "open CURSOR NAME LOW HIGH [VLOW VHIGH]",
    "next CURSOR COUNT",
    "close CURSOR",
    "select NAME LOW HIGH COLUMN OP VALUE",
    "project NAME LOW HIGH LIST",
    "agg NAME LOW HIGH COLUMN W",
    "join LEFT RIGHT LOW HIGH",
    "stat NAME",
    "cost",
    "load NAME COUNT STEP SEED",
];

/// The form of the lines that begin with this word.
pub(crate) fn form_of(command: &[u8]) -> Option<&'static str> {
    for form in &FORMS {
        if word_at(form.as_bytes(), 1) == command {
            return Some(form);
        }
    }
    None
}

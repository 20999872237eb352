// The form of the index pages of a table.
ghost use Rattle.std.specs.Prelude.{◌≡◌, ◌≤◌};
ghost use Rattle.fl_check.specs.Whole.{form_in};

use fl_index::EntryForm;
use fl_plan::TableConfig;
use fl_rules::{Form, index_page_is_good};

/// The form of the index pages of a table, whose entries have this form.
#[derive(Clone, Copy)]
pub(crate) struct IndexForm<'c> {
    pub(crate) config: &'c TableConfig,
    pub(crate) entries: EntryForm,
    ghost some: { 1 ≤ entries.width },
    ghost few: { entries.width ≤ 8 },
    ghost entries_are: { form_in config.now ≡ entries },
}

impl Form for IndexForm<'_> {
    ghost use Rattle.std.specs.Prelude.{◌<◌, ◌↔◌, length};
    ghost use Rattle.fl_check.specs.Whole.{IsIndexForm};

    ghost holds = { λ form number page. IsIndexForm form.config.now number page };

    fn is_of(&self, number: u32, page: &[u8]) -> bool {
        page.len() == self.config.geometry.page as usize
            && index_page_is_good(page, self.entries, number)
    }
}

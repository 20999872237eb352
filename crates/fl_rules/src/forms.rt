// The forms of a table's pages.
ghost use Rattle.std.specs.Prelude.{◌≤◌, length};
ghost use Rattle.fl_schema.specs.Schema.{types_of};

use crate::content_page::content_page_is_good;
use crate::data_page::data_page_is_good;
use crate::keys::keys_ascend;
use crate::rule_4_body::Form;
use fl_bitmap::Buckets;
use fl_page::PageView;
use fl_schema::Schema;

/// The form of the data pages of a table: rows of its columns, and their bitmap where it has buckets.
#[derive(Clone, Copy)]
pub struct DataForm<'s, const COLS: usize> {
    pub schema: &'s Schema<COLS>,
    pub buckets: Option<Buckets>,
    ghost some: { 1 ≤ length (types_of schema.now) },
}

/// The form of pages of rows whose keys ascend.
#[derive(Clone, Copy)]
pub struct AscendingForm<'s, const COLS: usize> {
    pub schema: &'s Schema<COLS>,
}

/// The form of the pages of variable data.
#[derive(Clone, Copy)]
pub struct ContentForm;

impl<const COLS: usize> Form for DataForm<'_, COLS> {
    ghost use Rattle.std.specs.Prelude.{◌<◌, ◌↔◌, IsTrue};
    ghost use Rattle.fl_schema.specs.Schema.{layout_of};
    ghost use Rattle.fl_rules.specs.DataPage.{IsDataPage};

    ghost holds = { λ form number page. IsDataPage (layout_of form.schema.now) form.buckets number page };

    fn is_of(&self, number: u32, page: &[u8]) -> bool {
        data_page_is_good(page, self.schema, self.buckets, number)
    }
}

impl<const COLS: usize> Form for AscendingForm<'_, COLS> {
    ghost use Rattle.std.specs.Prelude.{◌<◌, ◌↔◌, IsTrue};
    ghost use Rattle.fl_schema.specs.Schema.{layout_of};
    ghost use Rattle.fl_rules.specs.RingRules.{IsAscending};

    ghost holds = { λ form number page. IsAscending (layout_of form.schema.now) number page };

    fn is_of(&self, number: u32, page: &[u8]) -> bool {
        match PageView::of(page, number, self.schema) {
            Ok(view) => keys_ascend(&view, None),
            Err(_) => false,
        }
    }
}

impl Form for ContentForm {
    ghost use Rattle.fl_rules.specs.ContentPage.{IsContentPage};

    ghost holds = { λ form number page. IsContentPage number page };

    fn is_of(&self, number: u32, page: &[u8]) -> bool {
        content_page_is_good(page, number)
    }
}

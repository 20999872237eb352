// The keys of a page, which rise.
ghost use Rattle.std.specs.Prelude.{◌≡◌, ◌<◌, None, Some, IfOk, IfErr};
ghost use Rattle.fl_page.specs.View.{count_of, rows_of};
ghost use Rattle.fl_parts.specs.Reading.{last_in, keys_fault};

use crate::MountFault;
use fl_page::PageView;

/// The last key after the rows of the page with this number, whose keys rise from the last one before them on.
///
/// # Errors
///
/// `BadKeys` with the first key that isn't above the one before it.
pub fn last_key_after(
    view: PageView<'_, 8>,
    number: u32,
    last: Option<u64>,
) -> Result<Option<u64>, MountFault>
    requires few { count_of view < 65536 }
    ensures last { IfOk result (λ key. (keys_fault number last (rows_of view.entry) ≡ None) × (key ≡ last_in last (rows_of view.entry))) }
    ensures fault { IfErr result (λ e. keys_fault number last (rows_of view.entry) ≡ Some e) }
{
    let mut so_far = last;
    for i in 0..view.rows() {
        let key = view.row(i).key();
        if let Some(before) = so_far {
            if key <= before {
                return Err(MountFault::BadKeys {
                    page: number,
                    last: before,
                    first: key,
                });
            }
        }
        so_far = Some(key);
    }
    Ok(so_far)
}

// Where the blobs of rows end: the numbers of variable data begin behind them.
ghost use Rattle.std.specs.Prelude.{◌≡◌, ◌<◌};
ghost use Rattle.fl_model.specs.BlobEnds.{reference_end, blobs_end};
ghost use Rattle.fl_page.specs.View.{count_of, rows_of};
ghost use Rattle.fl_parts.specs.BlobEnds.{least_of};

use fl_base::BlobRef;
use fl_page::PageView;

/// One more than the number of the page of variable data at which a blob begins, and 0 where there is no blob or it has no byte.
pub fn reference_end(blob: Option<BlobRef>) -> u64
    ensures { result ≡ reference_end blob }
{
    let Some(at) = blob else {
        return 0;
    };
    if at.length == 0 {
        return 0;
    }
    u64::from(at.page) + 1
}

/// This end of blobs as the number of a page of variable data, the greatest one where it is beyond them all.
pub fn least_of(end: u64) -> u32
    ensures { result ≡ least_of end }
{
    end.min(u64::from(u32::MAX)) as u32
}

/// One more than the greatest page at which a blob of these rows begins, and 0 where none has a page.
pub(crate) fn blobs_end(view: &PageView<'_, 8>) -> u64
    requires { count_of view.now < 65536 }
    ensures { result ≡ blobs_end 0 (rows_of view.now) }
{
    let mut end: u64 = 0;
    for i in 0..view.rows() {
        end = end.max(reference_end(view.row(i).blob()));
    }
    end
}

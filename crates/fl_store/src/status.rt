// How a job ends whose tables aren't mounted.
ghost use Rattle.std.specs.Prelude.{◌≡◌, ◌<◌};
ghost use Rattle.fl_store.specs.Status.{mount_status};

use crate::tables::BadMount;
use fl_image::ToolStatus;
use fl_table::MountFault;

/// The status of a job that ends since one of the image's tables, four at most, can't be mounted: that of the device where the
/// flash failed, else that of a bad image, with the table's place, from 0.
pub fn mount_status(bad: BadMount) -> ToolStatus
    requires { bad.at < 4 }
    ensures { result ≡ mount_status bad.fault bad.at }
{
    match bad.fault {
        MountFault::Flash(_) => ToolStatus::Device,
        _ => ToolStatus::BadImage {
            table: bad.at as u32,
        },
    }
}

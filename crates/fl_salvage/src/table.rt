// The table that a configuration tells.
ghost use Rattle.std.specs.Prelude.{◌≡◌, None};
ghost use Rattle.fl_plan.specs.Limits.{IsWithinLimits};
ghost use Rattle.fl_plan.specs.Refusal.{config_fault};
ghost use Rattle.fl_salvage.specs.Text.{form_of, form_in};

use crate::ring::RingPages;
use crate::table_pages::TablePages;
use fl_check::schema_of;
use fl_plan::TableConfig;

impl TablePages {
    /// Those of a configuration that isn't refused.
    pub(crate) fn of(config: &TableConfig) -> TablePages
        requires fits { config_fault config.now ≡ None }
        requires limits { IsWithinLimits config.now }
        ensures { form_of result ≡ form_in config.now }
    {
        let var = match config.var {
            None => None,
            Some(place) => Some(RingPages::at(config.geometry, place)),
        };
        TablePages {
            schema: schema_of(config),
            rows: RingPages::at(config.geometry, config.rows),
            var,
            blob_limit: config.blob_limit,
        }
    }
}

// Whether what is found is that of a sound table.
ghost use Rattle.std.specs.Prelude.{◌≡◌};
ghost use Rattle.fl_image_check.specs.Report.{is_sound, are_kept};

use fl_check::{Finding, TableRules};

pub(crate) fn is_sound(finding: &Finding) -> bool
    ensures { result ≡ is_sound finding.now }
{
    matches!(finding, Finding::Sound { .. })
}

pub(crate) fn are_kept(rules: &TableRules) -> bool
    ensures { result ≡ are_kept rules.now }
{
    matches!(rules, TableRules::Kept { .. })
}

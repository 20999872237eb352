// The types of columns in a word.
ghost use Rattle.std.specs.Prelude.{◌≡◌, Some, None, map, IfOk, MatchResult};
ghost use Rattle.fl_words.specs.Config.{column_named, columns_in, first_fault};
ghost use Rattle.fl_schema.specs.Types.{column_of};
ghost use Rattle.fl_plan.specs.Refusal.{Tells};
ghost use Rattle.fl_config.specs.Lines.{word_faults};

use arrayvec::ArrayVec;
use fl_plan::ConfigRefusal;
use fl_schema::ColumnType;

fn column(name: &[u8]) -> Result<ColumnType, ConfigRefusal>
    ensures { MatchResult result
        (λ of. column_named name.now ≡ Some (column_of of))
        (λ e. (column_named name.now ≡ None) × (e ≡ ConfigRefusal.ColumnType)) }
{
    ColumnType::from_name(name).ok_or(ConfigRefusal::ColumnType)
}

/// The types of columns that a word joins by commas, eight at most. All of them are read before there are too many.
pub(crate) fn columns_in(word: &[u8]) -> Result<ArrayVec<ColumnType, 8>, ConfigRefusal>
    ensures refusal { Tells result (first_fault (word_faults word.now)) }
    ensures columns { IfOk result (λ columns. columns_in word.now ≡ Some (map column_of columns.items)) }
{
    let mut columns = ArrayVec::new();
    let mut fits = true;
    for part in word.split(|byte| *byte == b',') {
        fits = columns.try_push(column(part)?).is_ok();
    }
    if !fits {
        return Err(ConfigRefusal::ColumnCount);
    }
    Ok(columns)
}

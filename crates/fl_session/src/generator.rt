// The records of a load.
ghost use Rattle.std.specs.Prelude.{◌≡◌, ◌≤◌, ◌<◌, ◌%◌, ◌-ℤ◌, pos, if◌then◌else◌};
ghost use Rattle.fl_base.specs.Generator as sequence;
ghost use Rattle.fl_schema.specs.Types.{column_of};

use arrayvec::ArrayVec;
use fl_schema::ColumnType;
use fl_store::Table;

// A pseudo-random number is the one before it times this, plus that, in 64 bits.
const FACTOR: u64 = 6364136223846793005;

const INCREMENT: u64 = 1442695040888963407;

/// From one record to the next the sum of each value grows by so much ..
const STRIDE: u64 = 37;

/// .. and starts again here.
const SPAN: u64 = 200;

/// A record without a blob.
#[derive(Drop)]
pub(crate) struct Generated {
    pub(crate) key: u64,
    pub(crate) values: ArrayVec<i64, 8>,
}

/// Makes the records of a load, one after another.
#[derive(Drop)]
pub(crate) struct Generator {
    step: u64,
    /// The pseudo-random number of the next record.
    random: u64,
    /// What the next record's values have in common.
    sum: u64,
    /// Which columns are signed.
    signed: ArrayVec<bool, 8>,
    ghost steps: { 1 ≤ step },
    ghost reduced: { sum < 200 },
}

fn next_random(random: u64) -> u64
    ensures { result ≡ sequence.next_random random }
{
    random.wrapping_mul(FACTOR).wrapping_add(INCREMENT)
}

fn is_signed(column: ColumnType) -> bool
    ensures { result ≡ (column_of column).signed }
{
    column.least() < 0
}

fn value_of(sum: u64, is_signed: bool) -> i64
    ensures { result ≡ (if is_signed then pos (sum % 200) -ℤ pos 100 else pos (sum % 200)) }
{
    let value = (sum % SPAN) as i64;
    if is_signed { value - 100 } else { value }
}

impl Generator {
    ghost use Rattle.std.specs.Prelude.{ℕ, ◌+◌, List, unwrap_or};
    ghost use Rattle.fl_model.specs.Record.{Column};
    ghost use Rattle.fl_machine.specs.Step.{load_values};
    ghost use Rattle.fl_table.specs.Look.{layout_in};
    ghost use Rattle.fl_session.specs.Load.{StandsBefore, random_of, step_of, load_key};

    /// Before the first record of a load into this table.
    pub(crate) fn new(table: &Table, step: u64, seed: u64) -> Generator
        requires { 1 ≤ step }
        ensures stands { StandsBefore (layout_in table.now).columns seed 1 result }
        ensures random { random_of result ≡ sequence.next_random seed }
        ensures step { step_of result ≡ step }
    {
        let mut signed = ArrayVec::new();
        for i in 0..table.columns() {
            signed.push(is_signed(table.schema().column(i)));
        }
        Generator {
            step,
            random: next_random(seed),
            sum: (STRIDE + seed % SPAN) % SPAN,
            signed,
        }
    }

    /// The key of the next record, which stands behind the last one's. It stays at the greatest key.
    fn key(&self, last: u64) -> u64
        ensures { result ≡ load_key last (step_of self.now) (random_of self.now) }
    {
        last.saturating_add(1 + (self.random >> 33) % self.step)
    }

    fn values(&self) -> ArrayVec<i64, 8>
        ensures { (columns : List Column) → (seed i : ℕ) → StandsBefore columns seed i self.now → result.items ≡ load_values i seed 1 columns }
    {
        let mut values = ArrayVec::new();
        for (i, is_signed) in self.signed.as_slice().iter().enumerate() {
            values.push(value_of(self.sum + i as u64 + 1, *is_signed));
        }
        values
    }

    fn advance(&mut self)
        ensures stands { (columns : List Column) → (seed i : ℕ) → StandsBefore columns seed i self.old → StandsBefore columns seed (i + 1) self.new }
        ensures random { random_of self.new ≡ sequence.next_random (random_of self.old) }
        ensures step { step_of self.new ≡ step_of self.old }
    {
        self.random = next_random(self.random);
        self.sum = (self.sum + STRIDE) % SPAN;
    }

    /// The next record, behind a record with this key, if there is one.
    pub(crate) fn next(&mut self, last: Option<u64>) -> Generated
        ensures key { result.key ≡ load_key (unwrap_or last 0) (step_of self.old) (random_of self.old) }
        ensures values { (columns : List Column) → (seed i : ℕ) → StandsBefore columns seed i self.old → result.values.items ≡ load_values i seed 1 columns }
        ensures stands { (columns : List Column) → (seed i : ℕ) → StandsBefore columns seed i self.old → StandsBefore columns seed (i + 1) self.new }
        ensures random { random_of self.new ≡ sequence.next_random (random_of self.old) }
        ensures step { step_of self.new ≡ step_of self.old }
    {
        let record = Generated {
            key: self.key(last.unwrap_or(0)),
            values: self.values(),
        };
        self.advance();
        record
    }
}

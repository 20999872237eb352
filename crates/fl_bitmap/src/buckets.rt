// Buckets of equal width from a base on; what lies outside counts in the first or the last.
ghost use Rattle.std.specs.Prelude.{◌≡◌, ◌+◌, ◌-◌, ◌≤◌, ◌<◌, ◌^◌, IsTrue};
ghost use Rattle.fl_model.specs.Limits.{bits_from};
ghost use Rattle.fl_bitmap.specs.Widths.{is_bits};

use fl_base::Span;

/// `bits` buckets (8, 16 or 64) of `width` values each (1 to 2^63 - 1), the first from `base` on.
#[derive(Clone, Copy, Debug, PartialEq, Eq)]
pub struct Buckets {
    pub bits: u32,
    pub base: i64,
    pub width: u64,
    ghost some_bits: { IsTrue (is_bits bits) },
    ghost some_width: { 1 ≤ width },
    ghost signed_width: { width < 2 ^ 63 },
}

impl Buckets {
    ghost use Rattle.std.specs.Prelude.{◌≡◌, ℤ, ◌≤ℤ◌, List, [], bit_and};
    ghost use Rattle.std.specs.Int.{IsBitSet};
    ghost use Rattle.fl_base.specs.declared.types.KeyRange.{KeyRange};
    ghost use Rattle.fl_model.specs.Record.{Plan};
    ghost use Rattle.fl_model.specs.Table.{Entry};
    ghost use Rattle.fl_model.specs.Layout.{bitmap_of, bucket_of};
    ghost use Rattle.fl_model.specs.Limits.{mask_of};
    ghost use Rattle.fl_model.specs.Query.{selected};
    ghost use Rattle.fl_bitmap.specs.Bucket.{AreBucketsOf, bucket_in, mask_in, with_value};

    /// The bucket of a value, from 0.
    pub fn bucket(&self, v: i64) -> u32
        ensures exact { result ≡ bucket_in self.now v }
        ensures of_table { (plan : Plan) → AreBucketsOf plan self.now → result ≡ bucket_of plan v }
        ensures within { result < self.now.bits }
    {
        if v < self.base {
            return 0;
        }
        let bucket = v.abs_diff(self.base) / self.width;
        bucket.min(u64::from(self.bits - 1)) as u32
    }

    /// The bits of the buckets from that of the low value to that of the high one; none where the low value is
    /// above the high one.
    pub fn mask(&self, span: Span) -> u64
        ensures exact { result ≡ mask_in self.now span }
        ensures of_table { (plan : Plan) → AreBucketsOf plan self.now → result ≡ mask_of plan span }

        // No value of the span is missed ..
        ensures bits { (v : ℤ) → span.low ≤ℤ v → v ≤ℤ span.high → IsBitSet result (bucket_in self.now v) }

        // .. and so a page whose bitmap misses the mask has no row with a value of the span.
        ensures misses { (plan : Plan) (entries : List Entry) (range : KeyRange) → AreBucketsOf plan self.now →
            bit_and (bitmap_of plan entries) result ≡ 0 → selected range (Some span) entries ≡ [] }
    {
        if span.low > span.high {
            return 0;
        }
        bits_between(self.bucket(span.low), self.bucket(span.high))
    }

    /// The bitmap with the bit of the value's bucket.
    pub fn add(&self, bitmap: u64, v: i64) -> u64
        ensures { result ≡ with_value self.now bitmap v }
    {
        bitmap | 1 << self.bucket(v)
    }
}

/// The bits from one to another.
fn bits_between(low: u32, high: u32) -> u64
    requires ordered { low ≤ high }
    requires few { high < 64 }
    ensures { result ≡ bits_from low (high + 1 - low) }
{
    u64::MAX >> (63 - (high - low)) << low
}

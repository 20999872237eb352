// The binary digits of numbers.
ghost use Rattle.fl_base.specs.BitsGrow.{BitsGrow};

/// How the number of binary digits grows: that of a half is less, and that of twice as much is one more at most.
pub fn bits_grow()
    ensures { BitsGrow }
{}

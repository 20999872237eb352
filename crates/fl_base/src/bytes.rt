// Bytes that are all the same.
ghost use Rattle.std.specs.Prelude.{◌≡◌};
ghost use Rattle.fl_base.specs.Bytes.{all_are};

/// Whether each of the bytes is this one. That is so if the first one is, and each other is the one before it: so the bytes are
/// compared with themselves, by groups, and not one by one.
pub fn each_is(bytes: &[u8], value: u8) -> bool
    ensures { result ≡ all_are value bytes.now }
{
    match bytes.split_first() {
        None => true,
        Some((first, others)) => *first == value && others == &bytes[..others.len()],
    }
}

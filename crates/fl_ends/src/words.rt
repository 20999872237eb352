// The word that names an image.
ghost use Rattle.std.specs.Prelude.{◌≡◌};
ghost use Rattle.fl_ends.specs.Words.{is_image_name};

/// Whether the word can be the name of an image: it isn't empty and doesn't begin with a dash.
pub fn names_image(word: &str) -> bool
    ensures { result ≡ is_image_name word.now }
{
    match word.as_bytes() {
        [] => false,
        [first, ..] => *first != b'-',
    }
}

// The words of the command line.
ghost use Rattle.std.specs.Prelude.{◌≡◌, ℕ, List, map, string_bytes, codes};
ghost use Rattle.std.specs.Option.{option_copied};
ghost use Rattle.fl_model.specs.Record.{bytes_equal};
ghost use Rattle.fl_session.specs.Words.{image_named};

use fl_ends::names_image;

fn is_run(word: &str) -> bool
    ensures { result ≡ bytes_equal word.now (codes "run") }
{
    word == "run"
}

/// The image that the words name: `run`, and one word that isn't empty and doesn't begin with a dash.
pub fn image_of(words: &[String]) -> Option<&str>
    ensures { option_copied result ≡ image_named (map (λ word. string_bytes word) words.now) }
{
    if words.len() != 2 {
        return None;
    }
    let name = words[1].as_str();
    if !is_run(words[0].as_str()) {
        return None;
    }
    if !names_image(name) {
        return None;
    }
    Some(name)
}

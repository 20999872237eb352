// The words of the command line that name a shell.
ghost use Rattle.std.specs.Prelude.{◌≡◌, codes, map, string_bytes};
ghost use Rattle.std.specs.Option.{option_copied};
ghost use Rattle.fl_model.specs.Record.{bytes_equal};
ghost use Rattle.fl_shell.specs.Words.{shell_named};

use fl_ends::names_image;

fn is_shell(word: &str) -> bool
    ensures { result ≡ bytes_equal word.now (codes "shell") }
{
    word == "shell"
}

/// The image of the shell that the words name: `shell`, and one word that isn't empty and doesn't begin with a dash.
pub fn shell_of(words: &[String]) -> Option<&str>
    ensures { option_copied result ≡ shell_named (map (λ word. string_bytes word) words.now) }
{
    if words.len() != 2 {
        return None;
    }
    let name = words[1].as_str();
    if !is_shell(words[0].as_str()) {
        return None;
    }
    if !names_image(name) {
        return None;
    }
    Some(name)
}

//! What the words of the command line ask for.
ghost use Rattle.std.specs.Prelude.{◌≡◌, map, string_bytes};
ghost use Rattle.xe_run.specs.Output as spec;

/// What is done with a text.
#[derive(Clone, Copy, Debug, PartialEq, Eq)]
pub(crate) enum Mode {
    /// The scene is run, and its trace written.
    Run,
    /// The text is read, and nothing is run.
    Check,
}

/// The mode of a word.
fn mode_named(word: &str) -> Option<Mode>
    ensures { result ≡ spec.mode_named word.now }
{
    match word {
        "run" => Some(Mode::Run),
        "check" => Some(Mode::Check),
        _ => None,
    }
}

/// What the words ask for.
pub(crate) fn mode_of(words: &Vec<String>) -> Option<Mode>
    ensures { result ≡ spec.mode_of (map string_bytes words.now.items) }
{
    match words.as_slice() {
        [word] => mode_named(word.as_str()),
        _ => None,
    }
}

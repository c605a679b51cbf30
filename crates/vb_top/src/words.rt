// The words of the command line.
ghost use Rattle.std.specs.Prelude.{◌≡◌, map, string_bytes, option_map};
ghost use Rattle.vb_top.specs.Words.{is_file as is_file_word, file_of_words, NameIs};

/// The file of `run FILE`, and none where the words are usage. It takes no memory.
pub fn file_word(words: &[String]) -> Option<&str>
    ensures { NameIs result (file_of_words (map (λ w. string_bytes w) words.now)) }
{
    match words {
        [command, file] if command.as_str() == "run" && is_file(file.as_str()) => Some(
            file.as_str(),
        ),
        _ => None,
    }
}

// A word that may name a file: it isn't empty and doesn't begin with a dash.
fn is_file(word: &str) -> bool
    ensures { result ≡ is_file_word word.now }
{
    match word.as_bytes() {
        [] => false,
        [first, ..] => *first != b'-',
    }
}

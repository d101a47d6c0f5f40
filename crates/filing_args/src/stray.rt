/// Whether a word is an option whose value is the next word. One that `run` does not have may be a misspelt one.
fn takes_next(word: &str) -> bool {
    word.starts_with('-')
        && word.split_once('=').is_none()
        && !matches!(word, "--" | "--every-reply" | "--explain" | "--strict")
}

/// The first word after `run` that is neither an option nor the value of one. `run` takes none: who writes one means a script's file.
pub(crate) fn stray_word(words: &[String]) -> Option<&str> {
    let [_, command, given @ ..] = words else {
        return None;
    };
    if command.as_str() != "run" {
        return None;
    }
    let mut is_value = false;
    for word in given {
        if !is_value && !word.as_str().starts_with('-') {
            return Some(word.as_str());
        }
        is_value = !is_value && takes_next(word.as_str());
    }
    None
}

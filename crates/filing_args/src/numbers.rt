//! Numbers among the words of the command line.

use crate::fault::WordsFault;

/// The number that a word gives as the value of an argument. A word that is none is reported as `clap` reports it.
pub fn number_of(rt: &impl Eprint, argument: &str, word: &str) -> Result<u64, WordsFault> {
    match word.parse::<u64>() {
        Ok(number) => Ok(number),
        Err(_) => {
            let _ = eprintln!(rt;
                "error: invalid value '{word}' for '{argument}': it has to be a whole number below 2^64\n\nFor more information, try '--help'."
            );
            Err(WordsFault::Refused)
        }
    }
}

/// The number that a word gives as the value of an argument; none where the word is missing.
pub fn number_given(
    rt: &impl Eprint,
    argument: &str,
    word: Option<&str>,
) -> Result<Option<u64>, WordsFault> {
    match word {
        Some(word) => Ok(Some(number_of(rt, argument, word)?)),
        None => Ok(None),
    }
}

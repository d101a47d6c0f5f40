//! Seals among the words of the command line.

ghost use Rattle.std.specs.Prelude.{◌≡◌, false, true, IfErr, IfOk, IfSome, IsSomeAnd};
ghost use Rattle.std.specs.List.{list_all};
ghost use Rattle.filing_args.specs.Words.{is_seal, is_seal_digit};
ghost use Rattle.filing_args.specs.declared.fault.WordsFault.TheVariants.{Refused};

use crate::fault::WordsFault;

/// Whether a byte is a digit of a seal.
fn is_seal_digit(byte: u8) -> bool
    ensures { result ≡ is_seal_digit byte }
{
    matches!(byte, b'0'..=b'9' | b'a'..=b'f')
}

fn are_seal_digits(bytes: &[u8]) -> bool
    ensures { result ≡ list_all is_seal_digit bytes.now }
{
    bytes.iter().all(|byte| is_seal_digit(*byte))
}

/// Whether a word is a seal.
fn is_seal(word: &str) -> bool
    ensures { result ≡ is_seal word.now }
{
    word.len() == 64 && are_seal_digits(word.as_bytes())
}

/// The seal that a word gives as the value of an argument; none where the word is missing. A word that is none is reported as `clap` reports it.
pub fn seal_given<'a>(
    rt: &impl Eprint,
    argument: &str,
    word: Option<&'a str>,
) -> Result<Option<&'a str>, WordsFault>
    ensures given { IfOk result (λ seal. seal ≡ word.entry) }
    ensures digits { IfOk result (λ seal. IfSome seal (λ digits. is_seal digits.now ≡ true)) }
    ensures refused { IfErr result (λ fault. (fault ≡ Refused) × IsSomeAnd word.entry (λ digits. is_seal digits.now ≡ false)) }
{
    match word {
        Some(word) if !is_seal(word) => {
            let _ = eprintln!(rt;
                "error: invalid value '{word}' for '{argument}': a seal has 64 digits, 0 to 9 and a to f\n\nFor more information, try '--help'."
            );
            Err(WordsFault::Refused)
        }
        _ => Ok(word),
    }
}

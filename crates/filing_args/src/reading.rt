//! The words of the command line, read.

ghost use Rattle.std.specs.Prelude.{◌≡◌, ◌⊎◌, IfOk, map, string_bytes};
ghost use Rattle.clap.specs.Words.{kind_of};
ghost use Rattle.filing_args.specs.Words.{Asks};
ghost use Rattle.filing_args.specs.declared.invocation.Invocation.TheVariants.{Shown};

use crate::commands::command;
use crate::fault::WordsFault;
use crate::given::invocation_of;
use crate::invocation::Invocation;
use crate::stray::stray_word;
use clap::error::ErrorKind;
use clap::{Command, Error};
use std::{env, io};

/// The words that the program was given. Words that are no text are reported as `clap` reports them.
pub fn given_words(rt: &HostRuntime) -> Result<Vec<String>, WordsFault> {
    let args = match env::args(rt) {
        Ok(args) => args,
        Err(error) => {
            if error.kind() == io::ErrorKind::OutOfMemory {
                return Err(WordsFault::NoMemory);
            }
            let _ = rt.eprintln("error: invalid UTF-8 was detected in one or more arguments");
            return Err(WordsFault::Refused);
        }
    };
    let mut words = Vec::new(rt.alloc());
    for word in args {
        words.push(word)?;
    }
    Ok(words)
}

/// Reads the words. What is refused is reported as `clap` reports it.
pub fn read_words<'a, R: Print + Eprint + AllocGlobal>(
    rt: &R,
    words: &'a [String],
) -> Result<Invocation<'a>, WordsFault>
    ensures { IfOk result (Asks (map string_bytes words.now)) }
{
    let mut command: Command<'a> = command(rt.alloc())?;
    match command.try_get_matches_from_mut(words) {
        Ok(matches) => {
            let order = invocation_of(rt.alloc(), &matches);
            drop(matches);
            drop(command);
            order
        }
        Err(error) => {
            let order = show_error(rt, &error);
            hint_at_input(rt, &error, words);
            drop(error);
            drop(command);
            order
        }
    }
}

/// Tells an error of the words, or shows help, and answers what is left to do.
fn show_error<'a, R: Print + Eprint>(rt: &R, error: &Error) -> Result<Invocation<'a>, WordsFault>
    ensures shown { IfOk result (λ o. o ≡ Shown) }
    ensures asked { IfOk result (λ _. (kind_of error.now ≡ ErrorKind.DisplayHelp)
        ⊎ (kind_of error.now ≡ ErrorKind.DisplayVersion)) }
{
    if error.kind() == ErrorKind::OutOfMemory {
        return Err(WordsFault::NoMemory);
    }
    let shown = error.print(rt);
    if error.exit_code() != 0 {
        return Err(WordsFault::Refused);
    }
    match shown {
        Ok(()) => Ok(Invocation::Shown),
        Err(_) => Err(WordsFault::Write),
    }
}

/// Says where a script comes from, after the error of words that name its file.
fn hint_at_input<R: Eprint>(rt: &R, error: &Error, words: &[String]) {
    if error.kind() != ErrorKind::UnknownArgument {
        return;
    }
    if let Some(word) = stray_word(words) {
        let _ = eprintln!(rt; "filing: a script comes on standard input: write < {word}");
    }
}

ghost use Rattle.std.specs.Prelude.{◌≡◌};
ghost use Rattle.std.specs.Process.{exit_status};
ghost use Rattle.filing.specs.Faults.{status_of};

use crate::files::misplaced::Misplaced;
use filing_args::WordsFault;
use filing_cli::{ScriptFault, ThreadsFault};
use filing_model::TableFault;
use journal::DeviceFailed;
use journal_file::FileFault;
use std::alloc::{AllocError, AllocFailed};
use std::io::{Error, ErrorKind};
use std::process::ExitCode;

/// Why the program ends with another status than 0.
#[derive(Clone, Copy)]
pub(crate) enum Fault {
    /// The words were refused, and that was reported.
    Words,
    /// There are more scripts than threads may run.
    TooManyScripts,
    Read,
    Write,
    /// The line of the numeric table, counted from 1, that is none.
    TableLine(u64),
    /// The numeric table is not UTF-8.
    TableNotText,
    /// The line of the history to go on from, counted from 1 without blank lines, at which it departs.
    HistoryLine(u128),
    /// Another process has the journal open.
    JournalInUse,
    /// The line of the journal, counted from 1, at which it is damaged.
    JournalLine(u128),
    /// The entry of the journal, counted from 1, that is none of a lawful history.
    JournalEntry(u128),
    /// The file is not a journal: it does not begin as one.
    NotAJournal,
    /// The numeric table that was given has other rows than that of the journal.
    OtherTable,
    /// The line of the script, counted from 1, that nests too deep for the journal.
    TooDeep(u128),
    NoMemory,
}

impl Fault {
    /// The exit status.
    pub(crate) fn status(self) -> u8
        ensures { result ≡ status_of self }
    {
        match self {
            Fault::Read | Fault::Write | Fault::JournalInUse | Fault::TooDeep(_) => 1,
            Fault::Words
            | Fault::TooManyScripts
            | Fault::TableLine(_)
            | Fault::TableNotText
            | Fault::OtherTable => 2,
            Fault::NoMemory => 3,
            Fault::HistoryLine(_)
            | Fault::JournalLine(_)
            | Fault::JournalEntry(_)
            | Fault::NotAJournal => 4,
        }
    }

    /// Tells the fault in one line on standard error, and gives its status.
    pub(crate) fn tell(self, rt: &impl Eprint) -> ExitCode
        ensures { exit_status result ≡ status_of self }
    {
        let told = match self {
            Fault::Words => Ok(()),
            Fault::TooManyScripts => rt.eprintln("filing: at most 16 scripts"),
            Fault::Read => rt.eprintln("filing: read fault"),
            Fault::Write => rt.eprintln("filing: write fault"),
            Fault::TableLine(number) => eprintln!(rt; "filing: numeric table, line {number}"),
            Fault::TableNotText => rt.eprintln("filing: numeric table is not UTF-8"),
            Fault::HistoryLine(number) => eprintln!(rt; "filing: history, line {number}"),
            Fault::JournalInUse => rt.eprintln("filing: journal in use"),
            Fault::JournalLine(number) => eprintln!(rt; "filing: journal, line {number}"),
            Fault::JournalEntry(number) => eprintln!(rt; "filing: journal, entry {number}"),
            Fault::NotAJournal => rt.eprintln("filing: not a journal"),
            Fault::OtherTable => rt.eprintln("filing: the journal has another numeric table"),
            Fault::TooDeep(number) => {
                eprintln!(rt; "filing: line {number} nests too deep for the journal")
            }
            Fault::NoMemory => rt.eprintln("filing: no memory"),
        };
        let _ = told;
        ExitCode::from(self.status())
    }
}

/// Why a file could not be opened or read.
pub(crate) fn read_fault(error: &Error) -> Fault {
    if error.kind() == ErrorKind::OutOfMemory {
        Fault::NoMemory
    } else {
        Fault::Read
    }
}

/// Why a file could not be made or written.
pub(crate) fn write_fault(error: &Error) -> Fault {
    if error.kind() == ErrorKind::OutOfMemory {
        Fault::NoMemory
    } else {
        Fault::Write
    }
}

impl From<AllocError> for Fault {
    ghost use Rattle.std.specs.Prelude.{◌≡◌};
    ghost use Rattle.filing.specs.declared.fault.Fault.TheVariants.{NoMemory};

    ghost from_gives = { λ _ e. e ≡ NoMemory };

    fn from(_error: AllocError) -> Fault {
        Fault::NoMemory
    }
}

impl<T: Drop> From<AllocFailed<T>> for Fault {
    ghost use Rattle.std.specs.Prelude.{◌≡◌};
    ghost use Rattle.filing.specs.declared.fault.Fault.TheVariants.{NoMemory};

    ghost from_gives = { λ _ e. e ≡ NoMemory };

    fn from(_error: AllocFailed<T>) -> Fault {
        Fault::NoMemory
    }
}

impl From<WordsFault> for Fault {
    ghost use Rattle.std.specs.Prelude.{◌≡◌};
    ghost use Rattle.filing.specs.Faults.{words_fault_of};

    ghost from_gives = { λ fault e. e ≡ words_fault_of fault };

    fn from(fault: WordsFault) -> Fault {
        match fault {
            WordsFault::Refused => Fault::Words,
            WordsFault::Write => Fault::Write,
            WordsFault::NoMemory => Fault::NoMemory,
        }
    }
}

impl From<ScriptFault> for Fault {
    ghost use Rattle.std.specs.Prelude.{◌≡◌};
    ghost use Rattle.filing.specs.Faults.{fault_of};

    ghost from_gives = { λ fault e. e ≡ fault_of fault };

    fn from(fault: ScriptFault) -> Fault {
        match fault {
            ScriptFault::Read | ScriptFault::Endless => Fault::Read,
            ScriptFault::Write => Fault::Write,
            ScriptFault::NoMemory(_) => Fault::NoMemory,
        }
    }
}

impl From<DeviceFailed> for Fault {
    ghost use Rattle.std.specs.Prelude.{◌≡◌};
    ghost use Rattle.filing.specs.declared.fault.Fault.TheVariants.{Write};

    ghost from_gives = { λ _ e. e ≡ Write };

    fn from(_error: DeviceFailed) -> Fault {
        Fault::Write
    }
}

impl From<FileFault> for Fault {
    ghost use Rattle.std.specs.Prelude.{◌≡◌};
    ghost use Rattle.filing.specs.Faults.{file_fault_of};

    ghost from_gives = { λ fault e. e ≡ file_fault_of fault };

    fn from(fault: FileFault) -> Fault {
        match fault {
            FileFault::Busy => Fault::JournalInUse,
            FileFault::NoMemory => Fault::NoMemory,
            FileFault::Io(_) | FileFault::NotAFile => Fault::Write,
        }
    }
}

impl From<TableFault> for Fault {
    ghost use Rattle.std.specs.Prelude.{◌≡◌};
    ghost use Rattle.filing.specs.Faults.{table_fault_of};

    ghost from_gives = { λ fault e. e ≡ table_fault_of fault };

    fn from(fault: TableFault) -> Fault {
        match fault {
            TableFault::BadLine(number) => Fault::TableLine(number),
            TableFault::NoMemory => Fault::NoMemory,
        }
    }
}

impl From<ThreadsFault> for Fault {
    ghost use Rattle.std.specs.Prelude.{◌≡◌};
    ghost use Rattle.filing.specs.Faults.{threads_fault_of};

    ghost from_gives = { λ fault e. e ≡ threads_fault_of fault };

    fn from(fault: ThreadsFault) -> Fault {
        match fault {
            ThreadsFault::Write => Fault::Write,
            ThreadsFault::NoMemory | ThreadsFault::NoPlace => Fault::NoMemory,
        }
    }
}

impl From<Misplaced> for Fault {
    ghost use Rattle.std.specs.Prelude.{◌≡◌};
    ghost use Rattle.filing.specs.Faults.{misplaced_fault_of};

    ghost from_gives = { λ misplaced e. e ≡ misplaced_fault_of misplaced };

    fn from(misplaced: Misplaced) -> Fault {
        match misplaced {
            Misplaced::NoMemory => Fault::NoMemory,
            _ => Fault::Write,
        }
    }
}

//! The words for classes and for faults of facts.

ghost use Rattle.std.specs.Prelude.{◌≡◌};
ghost use Rattle.script_format.specs.ReplyText.{class_word, dim_fault_word, fact_fault_word, trouble_word};

use filing_model::{Class, DimFault, FactFault, Trouble};

/// The word of a class.
pub fn class_word(class: Class) -> &'static str
    ensures { result.now ≡ class_word class }
{
    match class {
        Class::Empty => "empty",
        Class::Single => "single",
        Class::Complete => "complete",
        Class::Consistent => "consistent",
        Class::Inconsistent => "inconsistent",
        Class::Mixed => "mixed",
    }
}

fn dim_fault_word(fault: DimFault) -> &'static str
    ensures { result.now ≡ dim_fault_word fault }
{
    match fault {
        DimFault::NameTwice => "name-twice",
        DimFault::NullCore => "null-core",
        DimFault::NoConcept => "no-concept",
        DimFault::TooLong => "too-long",
        DimFault::NoMemory => "",
    }
}

fn fact_fault_word(fault: FactFault) -> &'static str
    ensures { result.now ≡ fact_fault_word fault }
{
    match fault {
        FactFault::UnboundPrefix => "unbound-prefix",
        FactFault::Misplaced => "misplaced",
        FactFault::NotANumber => "not-a-number",
        FactFault::TooLarge => "too-large",
        FactFault::DecimalsOutOfRange => "decimals-out-of-range",
    }
}

/// The word of the fault in it. Out of memory has none.
pub fn trouble_word(fault: Trouble) -> &'static str
    ensures { result.now ≡ trouble_word fault }
{
    match fault {
        Trouble::WrongShape => "wrong-shape",
        Trouble::NotWhole => "not-whole",
        Trouble::Dims(fault) => dim_fault_word(fault),
        Trouble::Fit(fault) => fact_fault_word(fault),
        Trouble::NoMemory => "",
    }
}

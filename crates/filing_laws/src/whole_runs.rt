//! Of whole runs of sessions: the law of serial validation.

ghost use Rattle.filing_laws.specs.Serial.WholeRuns.{EachLawfulHistoryIsSerial, EachOrderOfStepsIsSerial};

/// In a lawful history:
///
/// - a committed session's replies and effect are those of the sequential repository running it whole at its commit;
/// - every session's replies, an amendment's reply to its commit aside, are those of its solo run at the repository of its opening;
/// - a refused or abandoned session changes nothing: the repository is what it would be without its entries;
/// - every version obeys its declared allowed duplicates;
/// - the repository is that of the sequential repository after the accepted loads and the committed sessions, one after another.
pub fn each_lawful_history_is_serial()
    ensures { EachLawfulHistoryIsSerial }
{}

/// The law of whole runs holds for every order of the steps of any sessions, each answered by its one next reply.
pub fn each_order_of_steps_is_serial()
    ensures { EachOrderOfStepsIsSerial }
{}

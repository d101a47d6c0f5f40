//! The law that each script is serial.

ghost use Rattle.script_runs.specs.Serial.{EachScriptIsSerial};

/// Whatever script goes on from a lawful history, the history that it makes is lawful and serial.
/// So is that of each run, in whatever order its lines take the steps of sessions.
#[tactic(auto, using(crate::proofs::SerialScripts::each_script_is_serial))]
pub fn each_script_is_serial()
    ensures { EachScriptIsSerial }
{}

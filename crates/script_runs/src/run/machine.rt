//! `ScriptMachine`: what takes steps, asked by lines of a script.
ghost use Rattle.std.specs.Prelude.{◌≡◌, IfOk, string_bytes, Ok, Some, ℕ, List};
ghost use Rattle.std.specs.Arc.{arc_value};
ghost use Rattle.filing_model.specs.Common.TextMap.{empty, get};
ghost use Rattle.filing_step.specs.Steps.{step_of, reply_of};
ghost use Rattle.script_format.specs.LineOutcomes.{outcome_under};
ghost use Rattle.script_format.specs.Script.{StepDue, open_outcome, step_outcome, end_outcome, export_outcome};
ghost use Rattle.script_runs.specs.StepsTaken.{Answers, AnswersLine};
ghost use Rattle.script_format.specs.ReplyText.{reply_text};
ghost use Rattle.script_runs.specs.Observed.{RepliesSeen, looks_at_nothing};

use crate::run::taker::TakesSteps;
use filing_step::{Kind, Reply, Step};
use filing_version::RepoVersion;
use json::Scratch;
use line_io::Machine;
use oim_fact::NumericTable;
use script_format::{
    LineOutcome, classify_line_in, exported_reply_of, name_in_use_reply, no_session_reply,
    reply_text,
};
use std::alloc::{AllocError, Global};
use std::sync::Arc;
use text_map::NameMap;

/// What answers the lines of a script: what takes its steps, with the names in use, the table by which reports are read, and a buffer for lines.
#[derive(Drop)]
pub(crate) struct ScriptMachine<T: TakesSteps + Drop> {
    table: Arc<NumericTable>,
    pub(crate) taker: T,
    names: NameMap<u64>,
    room: Scratch,
}

impl<T: TakesSteps + Drop> ScriptMachine<T> {
    /// A machine before the first line.
    pub(crate) fn before_lines(
        alloc: Global,
        table: Arc<NumericTable>,
        taker: T,
    ) -> ScriptMachine<T>
        ensures taker { result.taker ≡ taker }
        ensures table { arc_value result.table ≡ arc_value table }
        ensures no_names { result.names ≡ empty }
    {
        ScriptMachine {
            table,
            taker,
            names: NameMap::new(alloc),
            room: Scratch::new(alloc),
        }
    }

    pub(crate) fn into_taker(self) -> T
        ensures { result ≡ self.taker }
    {
        self.taker
    }

    /// The number of the session that has a name.
    fn number_of(&self, session: &str) -> Option<u64>
        ensures { result ≡ get self.now.names session.now }
    {
        self.names.get(session).copied()
    }

    /// Takes a step, and leaves the names as they are.
    fn take(
        &mut self,
        alloc: Global,
        session: Option<u64>,
        step: Step,
    ) -> Result<Answer, AllocError>
        ensures answers { IfOk result (λ answer. Answers T.has_taken
            (λ state. StepDue session (step_of step) state.names) self.old (string_bytes answer.text) self.new) }
        ensures steps_on { T.steps_on self.old.taker self.new.taker }
    {
        self.taker.take_step(alloc, session, step)
    }

    /// Answers an opening.
    fn open(&mut self, alloc: Global, session: &str, kind: Kind) -> Result<Answer, AllocError>
        ensures answers { IfOk result (λ answer. Answers T.has_taken
            (λ state. open_outcome state session.now kind) self.old (string_bytes answer.text) self.new) }
        ensures steps_on { T.steps_on self.old.taker self.new.taker }
    {
        if self.number_of(session).is_some() {
            return Answer::of_str(alloc, name_in_use_reply());
        }
        let answer = self.take(alloc, None, Step::Open(kind))?;
        let name = String::from_str(alloc, session)?;
        let number = self.taker.as_engine().opened_count();
        self.taker.note_name(alloc, number, session)?;
        self.names.insert(name, number)?;
        Ok(answer)
    }

    /// Takes a step of the session that has a name, which keeps it.
    fn take_under(&mut self, alloc: Global, session: &str, step: Step) -> Result<Answer, AllocError>
        ensures answers { IfOk result (λ answer. Answers T.has_taken
            (λ state. step_outcome state session.now (step_of step)) self.old (string_bytes answer.text) self.new) }
        ensures steps_on { T.steps_on self.old.taker self.new.taker }
    {
        let Some(number) = self.number_of(session) else {
            drop(step);
            return Answer::of_str(alloc, no_session_reply());
        };
        self.take(alloc, Some(number), step)
    }

    /// Answers a session that ends by this step.
    fn end(&mut self, alloc: Global, session: &str, step: Step) -> Result<Answer, AllocError>
        ensures answers { IfOk result (λ answer. Answers T.has_taken
            (λ state. end_outcome state session.now (step_of step)) self.old (string_bytes answer.text) self.new) }
        ensures steps_on { T.steps_on self.old.taker self.new.taker }
    {
        let Some(number) = self.number_of(session) else {
            drop(step);
            return Answer::of_str(alloc, no_session_reply());
        };
        let answer = self.take(alloc, Some(number), step)?;
        self.names.remove(session);
        Ok(answer)
    }

    /// The report as the current version has it.
    fn export(&self, alloc: Global, name: &str) -> Result<String, AllocError>
        ensures { IfOk result (λ text. Answers T.has_taken
            (λ state. export_outcome state name.now) self.now (string_bytes text) self.now) }
    {
        let version: &RepoVersion = self.taker.as_engine().current();
        match (version.info(name), version.entries(name)) {
            (Some(info), Some(entries)) => exported_reply_of(alloc, info, entries),
            _ => reply_text(alloc, &Reply::NoReport),
        }
    }

    /// Answers a line that asks for a report.
    fn answer_export(&self, alloc: Global, name: &str) -> Result<Answer, AllocError>
        ensures { IfOk result (λ answer. Answers T.has_taken
            (λ state. export_outcome state name.now) self.now (string_bytes answer.text) self.now) }
    {
        Answer::of_written(self.export(alloc, name))
    }

    /// Takes a step under the name of a session.
    fn take_due(&mut self, alloc: Global, name: &str, step: Step) -> Result<Answer, AllocError>
        ensures answers { IfOk result (λ answer. Answers T.has_taken
            (λ state. outcome_under state name.now (step_of step)) self.old (string_bytes answer.text) self.new) }
        ensures steps_on { T.steps_on self.old.taker self.new.taker }
    {
        match step {
            Step::Load(_, _) => self.take(alloc, None, step),
            Step::Open(kind) => self.open(alloc, name, kind),
            Step::Commit | Step::Close => self.end(alloc, name, step),
            step => self.take_under(alloc, name, step),
        }
    }

    /// Answers a line.
    pub(crate) fn answer_line(&mut self, alloc: Global, line: &[u8]) -> Result<Answer, AllocError>
        ensures answers { IfOk result (λ answer.
            AnswersLine T.has_taken self.old line.now (string_bytes answer.text) self.new) }
        ensures steps_on { T.steps_on self.old.taker self.new.taker }
    {
        match classify_line_in(alloc, line, &self.table, &mut self.room)? {
            LineOutcome::ReplyNow(text) => Ok(Answer::of_text(text)),
            LineOutcome::Export(name) => self.answer_export(alloc, &name),
            LineOutcome::StepDue { name, step } => self.take_due(alloc, &name, step),
        }
    }
}

/// What a line is answered: a text, and the reply that it tells, where the line took a step.
#[derive(Drop)]
pub struct Answer {
    pub text: String,
    /// None where the line took no step: it was refused before, or is an export.
    pub reply: Option<Reply>,
    ghost is_told: { (r : _) → reply ≡ Some r → string_bytes text ≡ reply_text (reply_of r) },
}

impl Answer {
    /// The answer to a step that got this reply.
    pub(crate) fn of_reply(alloc: Global, reply: Reply) -> Result<Answer, AllocError>
        ensures { IfOk result (λ answer. string_bytes answer.text ≡ reply_text (reply_of reply)) }
    {
        match reply_text(alloc, &reply) {
            Ok(text) => Ok(Answer {
                text,
                reply: Some(reply),
            }),
            Err(error) => {
                drop(reply);
                Err(error)
            }
        }
    }

    /// The answer of this text to a line that took no step.
    pub(crate) fn of_text(text: String) -> Answer
        ensures { result.text ≡ text }
    {
        Answer { text, reply: None }
    }

    /// The answer of this text to a line that took no step.
    pub(crate) fn of_str(alloc: Global, text: &str) -> Result<Answer, AllocError>
        ensures { IfOk result (λ answer. string_bytes answer.text ≡ text.now) }
    {
        let text = String::from_str(alloc, text)?;
        Ok(Answer { text, reply: None })
    }

    /// The answer of the text that was written, if it was.
    pub(crate) fn of_written(written: Result<String, AllocError>) -> Result<Answer, AllocError>
        ensures { IfOk result (λ answer. written ≡ Ok answer.text) }
    {
        match written {
            Ok(text) => Ok(Answer::of_text(text)),
            Err(error) => Err(error),
        }
    }

    /// The text alone.
    pub(crate) fn into_text(self) -> String
        ensures { result ≡ self.text }
    {
        let Answer { text, reply } = self;
        drop(reply);
        text
    }
}

/// What is shown each line of a run with its answer. It changes neither.
pub trait Observes {
    /// The observer before, a line that is not blank, its reply without a line feed, and the observer after.
    ghost sees: { Self → List ℕ → List ℕ → Self → Type 0 };

    /// Looks at a line, which has this number among all lines of the script, from 1, and at its answer.
    fn observe(&mut self, alloc: Global, number: u128, line: &[u8], answer: &Answer)
        ensures { sees self.old line.now (string_bytes answer.now.text) self.new };
}

/// Looks at nothing.
#[derive(Drop)]
pub struct Unobserved;

impl Observes for Unobserved {
    ghost sees = { looks_at_nothing };

    fn observe(&mut self, _alloc: Global, _number: u128, _line: &[u8], _answer: &Answer) {}
}

/// A machine, and what is shown its lines with their answers.
#[derive(Drop)]
pub(crate) struct Observed<M: Drop, O: Drop> {
    pub(crate) machine: M,
    pub(crate) observer: O,
}

impl<M: Drop, O: Observes + Drop> Observed<M, O> {
    /// Shows a line with its answer.
    pub(crate) fn show(&mut self, alloc: Global, number: u128, line: &[u8], answer: &Answer)
        ensures machine { self.new.machine ≡ self.old.machine }
        ensures saw { O.sees self.old.observer line.now (string_bytes answer.now.text) self.new.observer }
    {
        self.observer.observe(alloc, number, line, answer);
    }
}

impl<T: TakesSteps + Drop, O: Observes + Drop> Machine for Observed<ScriptMachine<T>, O> {
    ghost replies = { RepliesSeen (AnswersLine T.has_taken) O.sees };

    fn answer(&mut self, alloc: Global, number: u128, line: &[u8]) -> Result<String, AllocError> {
        let answer = self.machine.answer_line(alloc, line)?;
        self.show(alloc, number, line, &answer);
        Ok(answer.into_text())
    }
}

//! `Explainer`: what tells on standard error why lines were refused, and knows whether one was a mistake of the script.

ghost use Rattle.std.specs.Prelude.{◌≡◌, ◌||◌, false, IfOk, string_bytes};
ghost use Rattle.script_reasons.specs.Refusals.{tells_mistake};
ghost use Rattle.filing.specs.Mistakes.{notes, strict_status};

use crate::reasons::open_sessions::OpenSessions;
use filing_cli::Observes;
use oim_fact::NumericTable;
use script_reasons::{explain, push_reasons, reports_mistake, tells_mistake};
use script_runs::Answer;
use std::alloc::{AllocError, Global};
use std::sync::Arc;

/// Whether an answer tells a mistake. Its text is looked at only where the line took no step.
fn is_mistake(answer: &Answer) -> bool
    ensures { result ≡ tells_mistake (string_bytes answer.now.text) }
{
    match &answer.reply {
        Some(reply) => reports_mistake(reply),
        None => tells_mistake(&answer.text),
    }
}

/// Looks at the lines of a script and at their replies, and reports why a line was refused, where that is asked for.
/// What cannot be reported, out of memory or without a standard error, is dropped: replies never see it.
#[derive(Drop)]
pub(crate) struct Explainer {
    rt: HostRuntime,
    table: Arc<NumericTable>,
    explains: bool,
    /// The path of its script, where there are several.
    script: Option<String>,
    /// Whether a reply reported a line that is malformed or out of place.
    pub(crate) found_mistake: bool,
    /// The paths of the reports that its lines load, where they were made of files.
    reports: Vec<String>,
    /// How many lines it was shown. Blank ones are shown to nobody.
    lines: u64,
    refused: u64,
    first_refused: u64,
    open: OpenSessions,
}

impl Explainer {
    /// An explainer, or one that only knows of mistakes.
    pub(crate) fn new(
        rt: &HostRuntime,
        table: &Arc<NumericTable>,
        explains: bool,
    ) -> Result<Explainer, AllocError>
        ensures { IfOk result (λ e. e.found_mistake ≡ false) }
    {
        Ok(Explainer {
            rt: *rt,
            table: table.clone()?,
            explains,
            script: None,
            reports: Vec::new(rt.alloc()),
            found_mistake: false,
            lines: 0,
            refused: 0,
            first_refused: 0,
            open: OpenSessions::new(rt.alloc()),
        })
    }

    /// An explainer for one script of several, which it names before the first reason; or one that only knows of mistakes.
    pub(crate) fn of_script(
        rt: &HostRuntime,
        table: &Arc<NumericTable>,
        explains: bool,
        path: &str,
    ) -> Result<Explainer, AllocError>
        ensures { IfOk result (λ e. e.found_mistake ≡ false) }
    {
        let mut explainer = Explainer::new(rt, table, explains)?;
        explainer.script = Some(String::from_str(rt.alloc(), path)?);
        Ok(explainer)
    }

    /// An explainer of lines that load the reports at these paths, which names the path before each reason.
    pub(crate) fn of_reports(
        rt: &HostRuntime,
        table: &Arc<NumericTable>,
        reports: Vec<String>,
    ) -> Result<Explainer, AllocError>
        ensures { IfOk result (λ e. e.found_mistake ≡ false) }
    {
        let mut explainer = Explainer::new(rt, table, true)?;
        explainer.reports = reports;
        Ok(explainer)
    }

    /// Names the report that the line of this number loads, if it was made of a file.
    fn tell_report(&self, number: u64) {
        let Ok(place) = usize::try_from(number.saturating_sub(1)) else {
            return;
        };
        if let Some(path) = self.reports.get(place) {
            let _ = eprintln!(&self.rt; "filing: {path:?}:");
        }
    }

    /// Names the script, if it has to.
    fn tell_script(&self) {
        if let Some(path) = &self.script {
            let _ = eprintln!(&self.rt; "filing: in {path}:");
        }
    }

    /// The lines that tell why a line was refused. None where it was not.
    fn reasons(
        &self,
        alloc: Global,
        number: u64,
        line: &[u8],
        reply: &str,
    ) -> Result<Option<String>, AllocError> {
        let Some(reasons) = explain(alloc, number, line, &self.table, reply)? else {
            return Ok(None);
        };
        let mut text = String::new(alloc);
        push_reasons(&mut text, &reasons)?;
        Ok(Some(text))
    }

    /// Tells why a line was refused, if it was.
    fn tell(&mut self, alloc: Global, number: u64, line: &[u8], reply: &str)
        ensures { self.new.found_mistake ≡ self.old.found_mistake }
    {
        let Ok(Some(text)) = self.reasons(alloc, number, line, reply) else {
            return;
        };
        if self.refused == 0 {
            self.first_refused = number;
            self.tell_script();
        }
        self.refused = self.refused.saturating_add(1);
        self.tell_report(number);
        let _ = eprint!(&self.rt; "{text}");
    }

    /// Notes a line with the text of its reply, and whether that tells a mistake.
    pub(crate) fn note(
        &mut self,
        alloc: Global,
        number: u128,
        line: &[u8],
        reply: &str,
        is_mistake: bool,
    )
        ensures { self.new.found_mistake ≡ (self.old.found_mistake || is_mistake) }
    {
        self.found_mistake = self.found_mistake || is_mistake;
        self.lines = self.lines.saturating_add(1);
        if self.explains {
            let number = u64::try_from(number).unwrap_or(u64::MAX);
            self.tell(alloc, number, line, reply);
            let _ = self.open.take(alloc, line, reply);
        }
    }

    /// Tells at the end of a run how many lines were refused, and which sessions were never ended.
    pub(crate) fn tell_end(&self) {
        if self.refused == 0 && !self.open.is_empty() {
            self.tell_script();
        }
        let _ = match self.refused {
            0 => Ok(()),
            1 => eprintln!(&self.rt;
                "filing: 1 of {} lines was refused: line {}",
                self.lines, self.first_refused
            ),
            refused => eprintln!(&self.rt;
                "filing: {refused} of {} lines were refused, the first is line {}",
                self.lines, self.first_refused
            ),
        };
        self.open.tell(&self.rt);
    }

    /// The status of a run that ended without fault.
    pub(crate) fn status(&self, is_strict: bool) -> u8
        ensures { result ≡ strict_status is_strict self.now.found_mistake }
    {
        if is_strict && self.found_mistake {
            5
        } else {
            0
        }
    }
}

impl Observes for Explainer {
    ghost sees = { notes };

    fn observe(&mut self, alloc: Global, number: u128, line: &[u8], answer: &Answer) {
        self.note(alloc, number, line, &answer.text, is_mistake(answer));
    }
}

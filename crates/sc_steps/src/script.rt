//! A script's records answered, one after the other.

ghost use Rattle.std.specs.Prelude.{◌≡◌, ◌+◌, ◌<◌, ◌≤◌, length, ◌∷◌, [], None, Ok, IfOk, OnOk};
ghost use Rattle.sc_intake.specs.declared.input.TheConstants.{MOST_BYTES};
ghost use Rattle.sc_papers.specs.declared.stamp.TheConstants.Stamp.{GREATEST};
ghost use Rattle.sc_stamps.specs.Verdict.{stamped_verdict};
ghost use Rattle.sc_report.specs.Reply.{reply_text};
ghost use Rattle.sc_report.specs.Watched.{device_of};
ghost use Rattle.sc_steps.specs.Failing.{JournalFailsAsTold, OutputFailsAsTold};
ghost use Rattle.sc_steps.specs.Opening.{WritesText};
ghost use Rattle.sc_steps.specs.TwoWriters.{to_journal, to_output};
ghost use Rattle.sc_steps.specs.Script.{after_record, after_script, answer_to, answers, next_line, Writes};
ghost use Rattle.sc_steps.specs.Steps.{OutputGets, WritersGet};

use crate::amendable::Amendable;
use crate::fault::RunFault;
use crate::recorder::Recorder;
use crate::writing::write_line;
use sc_intake::ScriptRecords;
use sc_journal::{LineNo, line};
use sc_papers::{Amendment, Refusal, Stamped};
use sc_report::{Watched, reply_line};
use std::alloc::{AllocError, Global};
use std::io::Write;

/// Papers while a script is answered.
#[derive(Drop)]
pub struct Session<A> {
    pub amended: A,
    /// How many records were answered.
    pub records: u64,
}

/// The journal's line of an amendment that is accepted next. The only error is want of memory.
fn next_line<A: Amendable>(
    alloc: Global,
    amended: &A,
    amendment: &Amendment,
) -> Result<Vec<u8>, AllocError>
    requires room { (A.stands amended.now).stamps.accepted < GREATEST }
    ensures { IfOk result (λ text. text.items ≡ next_line (A.stands amended.now) amendment.now) }
{
    match LineNo::new(amended.accepted().get() + 1) {
        Some(number) => line(alloc, number, amendment),
        None => unreachable!(),
    }
}

/// Writes the reply line of a record.
fn write_reply<W: Write>(
    alloc: Global,
    number: u64,
    reply: &Result<(), Refusal>,
    out: &mut Watched<W>,
) -> Result<(), RunFault>
    ensures { OutputGets (WritesText (λ text. text ≡ reply_text number reply.now)) W.contents out.old out.new result }
{
    match reply_line(alloc, number, reply) {
        Ok(line) => write_line(line.as_slice(), out),
        Err(_) => Err(RunFault::OutOfMemory),
    }
}

/// Writes the line of an accepted amendment to the journal, and then its reply line to the output.
fn write_accepted<W: Write, J: Recorder>(
    alloc: Global,
    number: u64,
    line: &[u8],
    out: &mut Watched<W>,
    journal: &mut J,
) -> Result<(), RunFault>
    ensures { WritersGet (Writes (to_journal line.now ∷ to_output (reply_text number (Ok tt)) ∷ []))
        J.contents J.has_failed journal.old journal.new W.contents out.old out.new result }
{
    match journal.write_line(line) {
        Ok(()) => write_reply(alloc, number, &Ok(()), out),
        Err(_) => Err(RunFault::WriteJournal),
    }
}

impl<A: Amendable> Session<A> {
    /// A session in which no record was answered yet.
    pub fn new(amended: A) -> Self
        ensures amended { result.amended ≡ amended }
        ensures records { result.records ≡ 0 }
    {
        Session {
            amended,
            records: 0,
        }
    }

    /// Makes an amendment that nothing is said against, and writes its line and the reply line.
    fn accept<W: Write, J: Recorder>(
        &mut self,
        alloc: Global,
        stamped: Stamped,
        out: &mut Watched<W>,
        journal: &mut J,
    ) -> Result<(), RunFault>
        requires allowed { stamped_verdict (A.stands self.old.amended) stamped ≡ None }
        ensures records { OnOk result (self.new.records ≡ self.old.records) }
        ensures papers { OnOk result (A.stands self.new.amended
            ≡ after_record (A.stands self.old.amended) (Ok stamped)) }
        ensures writes { WritersGet (Writes (answer_to self.old.records (A.stands self.old.amended) (Ok stamped)))
            J.contents J.has_failed journal.old journal.new W.contents out.old out.new result }
    {
        let line = match next_line(alloc, &self.amended, &stamped.amendment) {
            Ok(line) => line,
            Err(_) => return Err(RunFault::OutOfMemory),
        };
        match self.amended.amend_allowed(stamped.amendment) {
            Ok(()) => write_accepted(alloc, self.records, line.as_slice(), out, journal),
            Err(_) => Err(RunFault::OutOfMemory),
        }
    }

    /// Answers a stamped amendment.
    fn answer_amendment<W: Write, J: Recorder>(
        &mut self,
        alloc: Global,
        stamped: Stamped,
        out: &mut Watched<W>,
        journal: &mut J,
    ) -> Result<(), RunFault>
        ensures records { OnOk result (self.new.records ≡ self.old.records) }
        ensures papers { OnOk result (A.stands self.new.amended
            ≡ after_record (A.stands self.old.amended) (Ok stamped)) }
        ensures writes { WritersGet (Writes (answer_to self.old.records (A.stands self.old.amended) (Ok stamped)))
            J.contents J.has_failed journal.old journal.new W.contents out.old out.new result }
    {
        match self.amended.check(&stamped) {
            Ok(()) => self.accept(alloc, stamped, out, journal),
            Err(refusal) => write_reply(alloc, self.records, &Err(refusal), out),
        }
    }

    /// Answers a record of a script, the last that was counted: an amendment is made or refused, and what
    /// is no amendment is refused.
    fn answer<W: Write, J: Recorder>(
        &mut self,
        alloc: Global,
        entry: Result<Stamped, Refusal>,
        out: &mut Watched<W>,
        journal: &mut J,
    ) -> Result<(), RunFault>
        ensures records { OnOk result (self.new.records ≡ self.old.records) }
        ensures papers { OnOk result (A.stands self.new.amended ≡ after_record (A.stands self.old.amended) entry) }
        ensures writes { WritersGet (Writes (answer_to self.old.records (A.stands self.old.amended) entry))
            J.contents J.has_failed journal.old journal.new W.contents out.old out.new result }
    {
        match entry {
            Ok(stamped) => self.answer_amendment(alloc, stamped, out, journal),
            Err(refusal) => write_reply(alloc, self.records, &Err(refusal), out),
        }
    }

    /// Answers the records of a script in turn, each when it is read: the journal is given the lines of the accepted
    /// amendments, each numbered by the stamp that its record then has, and the output the reply lines, numbered from 1; no
    /// reply is written before its line. Neither is flushed. An error says that a writer failed, or that there was no memory;
    /// then a prefix of these writes was made, and the session is of no more use. Each record costs what `check` and
    /// `amend_allowed` of its papers cost, and its line and its reply.
    pub fn answer_all<W: Write, J: Recorder>(
        &mut self,
        alloc: Global,
        script: &mut ScriptRecords<'_>,
        out: &mut Watched<W>,
        journal: &mut J,
    ) -> Result<(), RunFault>
        requires records { self.old.records ≡ 0 }
        requires bounded { length script.old ≤ MOST_BYTES + 1 }
        ensures papers { OnOk result (A.stands self.new.amended ≡ after_script (A.stands self.old.amended) script.old) }
        ensures writes { Writes (answers 1 (A.stands self.old.amended) script.old)
            (record { journal = J.contents journal.old; output = W.contents (device_of out.old) })
            (record { journal = J.contents journal.new; output = W.contents (device_of out.new) }) result }
        ensures failed { OutputFailsAsTold out.old out.new result }
        ensures journal_failed { JournalFailsAsTold (J.has_failed journal.old) (J.has_failed journal.new) result }
    {
        'records: loop {
            let entry = match script.next_record() {
                Ok(Some(entry)) => entry,
                Ok(None) => return Ok(()),
                Err(_) => return Err(RunFault::OutOfMemory),
            };
            self.records += 1;
            if let Err(fault) = self.answer(alloc, entry, out, journal) {
                return Err(fault);
            }
        }
    }
}

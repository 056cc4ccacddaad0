//! How the program ends: what each call's answer comes to, the exit status, and the line on standard error.

ghost use Rattle.std.specs.Prelude.{◌≡◌, Some, IfOk};
ghost use Rattle.sc_runs.specs.Ending.{status_of, status_of_fault};
ghost use Rattle.sc_runs.specs.FaultLine.{ending_words, fault_line, there_words, unwritten_words};

use crate::admitting::Listed;
use crate::changing::Changed;
use crate::checking::Checked;
use crate::explaining::Explained;
use crate::publishing::Finding;
use sc_audit::Verdict;
use sc_journal::Tail;
use sc_lottery::SeedError;
use sc_papers::{SchoolNo, StudentNo};
use sc_steps::RunFault;
use std::alloc::{AllocError, Global};
use std::fmt;

/// A file that papers are exported to.
#[derive(Clone, Copy, Debug, PartialEq, Eq)]
pub enum PapersFile {
    /// The file of the schools.
    Schools,
    /// The roster.
    Roster,
    /// The rank-order lists.
    Lists,
}

impl PapersFile {
    ghost use Rattle.std.specs.Prelude.{◌≡◌};
    ghost use Rattle.sc_runs.specs.FaultLine.{file_name};

    /// The file's name in the folder that was given.
    pub fn name(self) -> &'static str
        ensures { result.now ≡ file_name self }
    {
        match self {
            PapersFile::Schools => "schools.csv",
            PapersFile::Roster => "roster.csv",
            PapersFile::Lists => "lists.csv",
        }
    }
}

/// What became of a run.
#[derive(Clone, Copy, Debug, PartialEq, Eq)]
pub enum Ending {
    /// All was done.
    Done,
    /// The log does not certify its assignment, or the report that was published is not the one of it.
    NotCertified,
    /// The files that were checked have a fault.
    Faulty,
    /// A journal was replayed whose last line is torn.
    Torn,
    /// The seed is no seed.
    BadSeed(SeedError),
    /// The bundle has not its sections.
    BadBundle,
    /// The student whom the words name has no number of a student.
    BadStudent,
    /// The word that is to name a table of the report names none.
    BadTable,
    /// A table of the report was asked for, and the log too.
    TableBesideLog,
    /// The student who is to be explained is not in the papers.
    UnknownStudent { student: StudentNo },
    /// The school that the words name has no number of a school.
    BadSchool,
    /// The school whose lists are asked for is not in the papers.
    UnknownSchool { school: SchoolNo },
    /// The word that is to say since which line of a journal changes are told is no number of lines.
    BadSince,
    /// Changes were asked for since a line that the journal has not.
    NoLine { line: u32 },
    /// A file of exported papers is there already, and stays as it is. Those before it, in the order schools, roster,
    /// lists, were written whole.
    AlreadyThere { file: PapersFile },
    /// A file of exported papers could not be made or written. Those before it, in the order schools, roster,
    /// lists, were written whole.
    Unwritten { file: PapersFile },
    /// The run ended early.
    Fault(RunFault),
}

/// How a call ends that read a journal: a last line that was cut short is told, and is no fault.
impl From<Tail> for Ending {
    ghost use Rattle.sc_runs.specs.Ending.{ending_after};

    ghost from_gives = { λ tail ending. ending ≡ ending_after tail };

    fn from(tail: Tail) -> Self {
        match tail {
            Tail::Whole => Ending::Done,
            Tail::Torn => Ending::Torn,
        }
    }
}

/// How an audit ends.
impl From<Verdict> for Ending {
    ghost use Rattle.sc_runs.specs.Ending.{ending_by_verdict};

    ghost from_gives = { λ verdict ending. ending ≡ ending_by_verdict verdict };

    fn from(verdict: Verdict) -> Self {
        match verdict {
            Verdict::Certified => Ending::Done,
            Verdict::BadEntry { .. } | Verdict::Over { .. } => Ending::NotCertified,
        }
    }
}

/// How an audit of a log and a report ends.
impl From<Finding> for Ending {
    ghost use Rattle.sc_runs.specs.Ending.{ending_of_finding};

    ghost from_gives = { λ finding ending. ending ≡ ending_of_finding finding };

    fn from(finding: Finding) -> Self {
        match finding {
            Finding::Certified => Ending::Done,
            Finding::BadEntry { .. } | Finding::Over { .. } | Finding::ReportDiffers { .. } => {
                Ending::NotCertified
            }
        }
    }
}

/// How a check of files ends.
impl From<Checked> for Ending {
    ghost use Rattle.sc_runs.specs.Ending.{ending_of_check};

    ghost from_gives = { λ checked ending. ending ≡ ending_of_check checked };

    fn from(checked: Checked) -> Self {
        match checked {
            Checked::Clean => Ending::Done,
            Checked::Faulty => Ending::Faulty,
        }
    }
}

/// How an explanation ends: as its journal does, or for want of the student.
impl From<Explained> for Ending {
    ghost use Rattle.sc_runs.specs.Ending.{ending_of_explanation};

    ghost from_gives = { λ explained ending. ending ≡ ending_of_explanation explained };

    fn from(explained: Explained) -> Self {
        match explained {
            Explained::Written { tail } => Ending::from(tail),
            Explained::UnknownStudent { student } => Ending::UnknownStudent { student },
        }
    }
}

/// How a listing of the schools ends: as its journal does, or for want of the school.
impl From<Listed> for Ending {
    ghost use Rattle.sc_runs.specs.Ending.{ending_of_listing};

    ghost from_gives = { λ listed ending. ending ≡ ending_of_listing listed };

    fn from(listed: Listed) -> Self {
        match listed {
            Listed::Written { tail } => Ending::from(tail),
            Listed::UnknownSchool { school } => Ending::UnknownSchool { school },
        }
    }
}

/// How telling whose place changed ends: as its journal does, or for want of the line.
impl From<Changed> for Ending {
    ghost use Rattle.sc_runs.specs.Ending.{ending_of_change};

    ghost from_gives = { λ changed ending. ending ≡ ending_of_change changed };

    fn from(changed: Changed) -> Self {
        match changed {
            Changed::Written { tail } => Ending::from(tail),
            Changed::NoLine { line } => Ending::NoLine { line },
        }
    }
}

impl fmt::Display for Ending {
    ghost output = { λ ending. Some (ending_words ending) };

    fn fmt<W: fmt::Write>(&self, f: &mut fmt::Formatter<W>) -> fmt::Result {
        match self {
            Ending::Done | Ending::NotCertified | Ending::Faulty => Ok(()),
            Ending::Torn => f.write_str("journal torn"),
            Ending::BadSeed(error) => write!(f, "seed: {error}"),
            Ending::BadBundle => f.write_str("bundle"),
            Ending::BadStudent => f.write_str("student: Number"),
            Ending::BadTable => f.write_str("table: Name"),
            Ending::TableBesideLog => f.write_str("table: Log"),
            Ending::UnknownStudent { student } => write!(
                f,
                "explain: UnknownStudent {}",
                student.get()
            ),
            Ending::BadSchool => f.write_str("school: Number"),
            Ending::UnknownSchool { school } => write!(
                f,
                "admissions: UnknownSchool {}",
                school.get()
            ),
            Ending::BadSince => f.write_str("since: Number"),
            Ending::NoLine { line } => write!(f, "changes: NoLine {line}"),
            Ending::AlreadyThere { file } => f.write_str(there_words(*file)),
            Ending::Unwritten { file } => f.write_str(unwritten_words(*file)),
            Ending::Fault(fault) => write!(f, "{fault}"),
        }
    }
}

/// Which file is there already, and which ones were made whole before it.
fn there_words(file: PapersFile) -> &'static str
    ensures { result.now ≡ there_words file }
{
    match file {
        PapersFile::Schools => "cannot write schools.csv: it is there already; no file was made",
        PapersFile::Roster => "cannot write roster.csv: it is there already; schools.csv is whole",
        PapersFile::Lists => {
            "cannot write lists.csv: it is there already; schools.csv and roster.csv are whole"
        }
    }
}

/// Which file could not be made or written, and which ones are whole.
fn unwritten_words(file: PapersFile) -> &'static str
    ensures { result.now ≡ unwritten_words file }
{
    match file {
        PapersFile::Schools => "cannot write schools.csv: no file is whole",
        PapersFile::Roster => "cannot write roster.csv: schools.csv is whole",
        PapersFile::Lists => "cannot write lists.csv: schools.csv and roster.csv are whole",
    }
}

/// The exit status: 0 done (a torn journal is no fault), 1 not certified, 2 a bad seed, a student's or a school's number or
/// a number of lines that is none, a table's name that is none or a table beside a log, 3 a fault of an input, the bundle
/// or the journal, files that were found faulty, an unknown student or school or a line that the journal has not, 4 a file
/// or stream that could not be made, read or written, 5 want of memory.
pub fn status_of(ending: &Ending) -> u8
    ensures { result ≡ status_of ending.now }
{
    match ending {
        Ending::Done => 0,
        Ending::Torn => 0,
        Ending::NotCertified => 1,
        Ending::Faulty => 3,
        Ending::BadSeed(_) => 2,
        Ending::BadBundle => 3,
        Ending::BadStudent => 2,
        Ending::BadTable => 2,
        Ending::TableBesideLog => 2,
        Ending::UnknownStudent { .. } => 3,
        Ending::BadSchool => 2,
        Ending::UnknownSchool { .. } => 3,
        Ending::BadSince => 2,
        Ending::NoLine { .. } => 3,
        Ending::AlreadyThere { .. } => 4,
        Ending::Unwritten { .. } => 4,
        Ending::Fault(fault) => status_of_fault(fault),
    }
}

fn status_of_fault(fault: &RunFault) -> u8
    ensures { result ≡ status_of_fault fault.now }
{
    match fault {
        RunFault::Intake(_) => 3,
        RunFault::Journal(_) => 3,
        RunFault::Read { .. } => 4,
        RunFault::WriteOut => 4,
        RunFault::WriteJournal => 4,
        RunFault::OutOfMemory => 5,
    }
}

/// The line for standard error, with its newline; empty where all was done, the log is not certified or files were
/// found faulty. The only error is want of memory.
pub fn fault_line(alloc: Global, ending: &Ending) -> Result<Vec<u8>, AllocError>
    ensures { IfOk result (λ line. line.items ≡ fault_line ending.now) }
{
    match ending {
        Ending::Done | Ending::NotCertified | Ending::Faulty => Ok(Vec::new(alloc)),
        _ => Ok(format!(in alloc; "clearinghouse: {ending}\n")?.into_bytes()),
    }
}

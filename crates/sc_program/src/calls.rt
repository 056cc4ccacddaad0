//! The call that a subcommand asks for.
use crate::exports::export_papers;
use crate::inputs::{open_if_any, open_input, open_opening};
use crate::journal::create_journal;
use sc_intake::Source;
use sc_papers::{SchoolNo, Seed, StudentNo};
use sc_report::Watched;
use sc_runs::{
    Ending, Inputs, RunFault, Settling, Table, admissions_files, audit_files, audit_report_files,
    changes_files, explain_files, match_files, read_school, read_since, read_student, replay_files,
    run, summary_files, table_files, table_named,
};
use sc_words::{OpeningWords, Subcommand};
use std::io::Write;
use std::mem::forget;
use std::rt::Files;

/// Matches the files of an opening.
fn match_opening<R: Files + AllocGlobal, W: Write>(
    rt: &R,
    seed: &Seed,
    words: &OpeningWords<'_>,
    show_log: bool,
    out: &mut Watched<W>,
) -> Result<Ending, RunFault> {
    let mut opening = open_opening(rt, &words.files)?;
    let papers = match_files(rt.alloc(), seed, &mut opening, show_log, out)?;
    // The program ends here, so the papers are not taken apart.
    forget(papers);
    Ok(Ending::Done)
}

/// Writes one table of the report of an opening, as its papers stand after a journal if there is one.
fn tabulate<R: Files + AllocGlobal, W: Write>(
    rt: &R,
    seed: &Seed,
    words: &OpeningWords<'_>,
    journal: Option<&str>,
    table: Table,
    out: &mut Watched<W>,
) -> Result<Ending, RunFault> {
    let mut opening = open_opening(rt, &words.files)?;
    let mut journal = open_if_any(rt, journal, Source::Journal)?;
    let tail = table_files(rt.alloc(), seed, &mut opening, &mut journal, table, out)?;
    Ok(Ending::from(tail))
}

/// Matches the files of an opening, and writes the table that the words name, if they name one. The name is read before a
/// file is opened.
fn match_named<R: Files + AllocGlobal, W: Write>(
    rt: &R,
    seed: &Seed,
    words: &OpeningWords<'_>,
    show_log: bool,
    table: Option<&str>,
    out: &mut Watched<W>,
) -> Result<Ending, RunFault> {
    let Some(name) = table else {
        return match_opening(rt, seed, words, show_log, out);
    };
    match table_named(name) {
        Some(_) if show_log => Ok(Ending::TableBesideLog),
        Some(table) => tabulate(rt, seed, words, None, table, out),
        None => Ok(Ending::BadTable),
    }
}

/// When a run settles its papers.
fn settling_of(settle_each: bool) -> Settling {
    if settle_each {
        Settling::EachTime
    } else {
        Settling::AtTheEnd
    }
}

/// The words of a run after those of its opening: its script, where its journal goes and whether what is there is to be kept,
/// and when the papers are settled.
#[derive(Clone, Copy)]
struct RunWords<'a> {
    script: &'a str,
    journal: &'a str,
    no_clobber: bool,
    settling: Settling,
}

/// Runs a script after an opening.
fn run_script<R: Files + AllocGlobal, W: Write>(
    rt: &R,
    seed: &Seed,
    words: &OpeningWords<'_>,
    run_words: &RunWords<'_>,
    out: &mut Watched<W>,
) -> Result<Ending, RunFault> {
    let mut inputs = Inputs {
        opening: open_opening(rt, &words.files)?,
        script: open_input(rt, run_words.script, Source::Script)?,
    };
    let mut journal = create_journal(rt, run_words.journal, run_words.no_clobber, &inputs)?;
    run(
        rt.alloc(),
        seed,
        &mut inputs,
        run_words.settling,
        out,
        &mut journal,
    )?;
    Ok(Ending::Done)
}

/// Audits a log under an opening.
fn audit_log<R: Files + AllocGlobal, W: Write>(
    rt: &R,
    seed: &Seed,
    words: &OpeningWords<'_>,
    log: &str,
    out: &mut Watched<W>,
) -> Result<Ending, RunFault> {
    let mut opening = open_opening(rt, &words.files)?;
    let mut log = open_input(rt, log, Source::Log)?;
    let audited = audit_files(rt.alloc(), seed, &mut opening, &mut log, out)?;
    let ending = Ending::from(audited.verdict);
    // The program ends here, so the papers are not taken apart.
    forget(audited);
    Ok(ending)
}

/// Audits a log under an opening, and a report that was published.
fn audit_report<R: Files + AllocGlobal, W: Write>(
    rt: &R,
    seed: &Seed,
    words: &OpeningWords<'_>,
    log: &str,
    report: &str,
    out: &mut Watched<W>,
) -> Result<Ending, RunFault> {
    let mut opening = open_opening(rt, &words.files)?;
    let mut log = open_input(rt, log, Source::Log)?;
    let mut report = open_input(rt, report, Source::Report)?;
    let finding = audit_report_files(rt.alloc(), seed, &mut opening, &mut log, &mut report, out)?;
    Ok(Ending::from(finding))
}

/// Replays a journal over an opening, and writes the table that the words name, if they name one. The name is read before
/// a file is opened.
fn replay_named<R: Files + AllocGlobal, W: Write>(
    rt: &R,
    seed: &Seed,
    words: &OpeningWords<'_>,
    journal: &str,
    table: Option<&str>,
    out: &mut Watched<W>,
) -> Result<Ending, RunFault> {
    let Some(name) = table else {
        return replay_journal(rt, seed, words, journal, out);
    };
    match table_named(name) {
        Some(table) => tabulate(rt, seed, words, Some(journal), table, out),
        None => Ok(Ending::BadTable),
    }
}

/// Replays a journal over an opening.
fn replay_journal<R: Files + AllocGlobal, W: Write>(
    rt: &R,
    seed: &Seed,
    words: &OpeningWords<'_>,
    journal: &str,
    out: &mut Watched<W>,
) -> Result<Ending, RunFault> {
    let mut opening = open_opening(rt, &words.files)?;
    let mut journal = open_input(rt, journal, Source::Journal)?;
    let replayed = replay_files(rt.alloc(), seed, &mut opening, &mut journal, out)?;
    let ending = Ending::from(replayed.tail);
    // The program ends here, so the papers are not taken apart.
    forget(replayed);
    Ok(ending)
}

/// Sums up the papers of an opening, as they stand after a journal if there is one.
fn summarize<R: Files + AllocGlobal, W: Write>(
    rt: &R,
    seed: &Seed,
    words: &OpeningWords<'_>,
    journal: Option<&str>,
    out: &mut Watched<W>,
) -> Result<Ending, RunFault> {
    let mut opening = open_opening(rt, &words.files)?;
    let mut journal = open_if_any(rt, journal, Source::Journal)?;
    let tail = summary_files(rt.alloc(), seed, &mut opening, &mut journal, out)?;
    Ok(Ending::from(tail))
}

/// Explains the choices of a student of an opening, or of all, in the papers as they stand after a journal if there is
/// one.
fn explain<R: Files + AllocGlobal, W: Write>(
    rt: &R,
    seed: &Seed,
    words: &OpeningWords<'_>,
    student: Option<StudentNo>,
    journal: Option<&str>,
    out: &mut Watched<W>,
) -> Result<Ending, RunFault> {
    let mut opening = open_opening(rt, &words.files)?;
    let mut journal = open_if_any(rt, journal, Source::Journal)?;
    let explained = explain_files(rt.alloc(), seed, &mut opening, &mut journal, student, out)?;
    Ok(Ending::from(explained))
}

/// Explains the choices of the student whom the words name, or of all where they name none. The student's number is
/// read before a file is opened.
fn explain_named<R: Files + AllocGlobal, W: Write>(
    rt: &R,
    seed: &Seed,
    words: &OpeningWords<'_>,
    student: Option<&str>,
    journal: Option<&str>,
    out: &mut Watched<W>,
) -> Result<Ending, RunFault> {
    let Some(text) = student else {
        return explain(rt, seed, words, None, journal, out);
    };
    match read_student(text.as_bytes()) {
        Some(student) => explain(rt, seed, words, Some(student), journal, out),
        None => Ok(Ending::BadStudent),
    }
}

/// Lists whom a school of an opening admits, or each school, in the papers as they stand after a journal if there is one.
fn list_admissions<R: Files + AllocGlobal, W: Write>(
    rt: &R,
    seed: &Seed,
    words: &OpeningWords<'_>,
    school: Option<SchoolNo>,
    journal: Option<&str>,
    out: &mut Watched<W>,
) -> Result<Ending, RunFault> {
    let mut opening = open_opening(rt, &words.files)?;
    let mut journal = open_if_any(rt, journal, Source::Journal)?;
    let listed = admissions_files(rt.alloc(), seed, &mut opening, &mut journal, school, out)?;
    Ok(Ending::from(listed))
}

/// Lists whom the school admits that the words name, or each school where they name none. The school's number is read
/// before a file is opened.
fn list_named<R: Files + AllocGlobal, W: Write>(
    rt: &R,
    seed: &Seed,
    words: &OpeningWords<'_>,
    school: Option<&str>,
    journal: Option<&str>,
    out: &mut Watched<W>,
) -> Result<Ending, RunFault> {
    let Some(text) = school else {
        return list_admissions(rt, seed, words, None, journal, out);
    };
    match read_school(text.as_bytes()) {
        Some(school) => list_admissions(rt, seed, words, Some(school), journal, out),
        None => Ok(Ending::BadSchool),
    }
}

/// Tells whose place the amendments of a journal changed after its first lines, so many.
fn change<R: Files + AllocGlobal, W: Write>(
    rt: &R,
    seed: &Seed,
    words: &OpeningWords<'_>,
    journal: &str,
    since: u32,
    out: &mut Watched<W>,
) -> Result<Ending, RunFault> {
    let mut opening = open_opening(rt, &words.files)?;
    let mut journal = open_input(rt, journal, Source::Journal)?;
    let changed = changes_files(rt.alloc(), seed, &mut opening, &mut journal, since, out)?;
    Ok(Ending::from(changed))
}

/// Tells whose place the amendments of a journal changed after as many of its lines as the words say, or after none
/// where they say nothing. The number of lines is read before a file is opened.
fn change_since<R: Files + AllocGlobal, W: Write>(
    rt: &R,
    seed: &Seed,
    words: &OpeningWords<'_>,
    journal: &str,
    since: Option<&str>,
    out: &mut Watched<W>,
) -> Result<Ending, RunFault> {
    let Some(text) = since else {
        return change(rt, seed, words, journal, 0, out);
    };
    match read_since(text.as_bytes()) {
        Some(since) => change(rt, seed, words, journal, since, out),
        None => Ok(Ending::BadSince),
    }
}

/// Makes the call that a subcommand asks for, under this seed.
pub fn dispatch<R: Files + AllocGlobal, W: Write>(
    rt: &R,
    seed: &Seed,
    opening: &OpeningWords<'_>,
    subcommand: &Subcommand<'_>,
    out: &mut Watched<W>,
) -> Result<Ending, RunFault> {
    match subcommand {
        Subcommand::Match { show_log, table } => {
            match_named(rt, seed, opening, *show_log, *table, out)
        }
        Subcommand::Run {
            script,
            journal,
            no_clobber,
            settle_each,
        } => {
            let run_words = RunWords {
                script,
                journal,
                no_clobber: *no_clobber,
                settling: settling_of(*settle_each),
            };
            run_script(rt, seed, opening, &run_words, out)
        }
        Subcommand::Audit { log, report: None } => audit_log(rt, seed, opening, log, out),
        Subcommand::Audit {
            log,
            report: Some(report),
        } => audit_report(rt, seed, opening, log, report, out),
        Subcommand::Replay { journal, table } => {
            replay_named(rt, seed, opening, journal, *table, out)
        }
        Subcommand::Summary { journal } => summarize(rt, seed, opening, *journal, out),
        Subcommand::Explain { student, journal } => {
            explain_named(rt, seed, opening, *student, *journal, out)
        }
        Subcommand::Admissions { school, journal } => {
            list_named(rt, seed, opening, *school, *journal, out)
        }
        Subcommand::Changes { journal, since } => {
            change_since(rt, seed, opening, journal, *since, out)
        }
        Subcommand::Export { to, journal } => export_papers(rt, seed, opening, to, *journal),
    }
}

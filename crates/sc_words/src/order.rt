ghost use Rattle.std.specs.Prelude.{◌≡◌, ◌↔◌, true, [], Ok, IfOk, IfSome, IsSome, IsSomeAnd, codes};
ghost use Rattle.clap.specs.Words.{FailsBy, first_of, found_of, rows_of, subcommand_rows_of};
ghost use Rattle.sc_words.specs.CommandLine.{audit_names, changes_names, check_names, export_names, file_names, opening_names, replay_names, run_names};
ghost use Rattle.sc_words.specs.Complete.{HasOptions, IsComplete, IsOneOf, opening_subcommands};
ghost use Rattle.sc_words.specs.Orders.{AreFilesIn, IsGiven, IsGivenOrNot, IsOpeningIn, IsOrderIn, IsOrderOf, IsSet, IsSubcommandIn, faults_of};

use crate::program::program;
use crate::word::Word;
use clap::{ArgMatches, Error};
use std::alloc::Global;

/// The files of an opening, as the words give them.
#[derive(Clone, Copy, Debug, PartialEq, Eq)]
pub struct FileWords<'a> {
    /// The file of the schools.
    pub schools: &'a str,
    /// The file of the students.
    pub roster: &'a str,
    /// The file of the students' choices.
    pub lists: &'a str,
}

/// The seed and the files of an opening, as the words give them.
#[derive(Clone, Copy, Debug, PartialEq, Eq)]
pub struct OpeningWords<'a> {
    /// The lottery's seed, as hexadecimal digits.
    pub seed: &'a str,
    /// The three files.
    pub files: FileWords<'a>,
}

/// What the program is to do.
#[derive(Clone, Copy, Debug, PartialEq, Eq)]
pub enum Order<'a> {
    /// Run the bundle on standard input.
    Bundle,
    /// Tell every fault of the files of an opening, and of a script if there is one.
    Check {
        files: FileWords<'a>,
        script: Option<&'a str>,
    },
    /// Do this with an opening.
    Opening {
        opening: OpeningWords<'a>,
        subcommand: Subcommand<'a>,
    },
}

/// What is to be done with an opening.
#[derive(Clone, Copy, Debug, PartialEq, Eq)]
pub enum Subcommand<'a> {
    /// Write its report, or its log of rejections, or the table of the report that has this name.
    Match {
        show_log: bool,
        table: Option<&'a str>,
    },
    /// Answer a script after it, write the report and keep a journal, which may be refused where it is there already; settle
    /// the papers once, at the end, or after each amendment.
    Run {
        script: &'a str,
        journal: &'a str,
        no_clobber: bool,
        settle_each: bool,
    },
    /// Check a log of rejections against it, and a report if there is one.
    Audit {
        log: &'a str,
        report: Option<&'a str>,
    },
    /// Replay a journal over it, and write the report, or the table of the report that has this name.
    Replay {
        journal: &'a str,
        table: Option<&'a str>,
    },
    /// Write the summary of its papers, as they stand after a journal if there is one.
    Summary {
        journal: Option<&'a str>,
    },
    /// Write what came of each choice of its students, or of one, as the papers stand after a journal if there is one.
    Explain {
        student: Option<&'a str>,
        journal: Option<&'a str>,
    },
    /// Write the class list and the waiting list of its schools, or of one, as the papers stand after a journal if there
    /// is one.
    Admissions {
        school: Option<&'a str>,
        journal: Option<&'a str>,
    },
    /// Write whose place differs between the papers as they stand after these first lines of a journal, or at the opening, and
    /// after all of it.
    Changes {
        journal: &'a str,
        since: Option<&'a str>,
    },
    /// Write its papers into this folder, as they stand after a journal if there is one.
    Export {
        to: &'a str,
        journal: Option<&'a str>,
    },
}

/// The text given for an option.
fn text_in<'a>(found: &ArgMatches<'a>, name: &str) -> Option<&'a str>
    ensures given { IfSome result (IsGiven (rows_of (found_of found.now)) name.now) }
    ensures found { IsSome (first_of name.now (rows_of (found_of found.now))) → IsSome result }
    ensures exact { IsGivenOrNot (rows_of (found_of found.now)) name.now result }
{
    found.get_str(name)
}

/// Whether a flag is set.
fn is_set(found: &ArgMatches<'_>, name: &str) -> bool
    ensures { (result ≡ true) ↔ IsSet (rows_of (found_of found.now)) name.now }
{
    // As `get_flag`, which promises nothing of a text that is no `bool`.
    found.get_one::<bool>(name).unwrap_or(false)
}

/// The options of the three files.
fn files_in<'a>(found: &ArgMatches<'a>) -> Option<FileWords<'a>>
    ensures given { IfSome result (AreFilesIn (rows_of (found_of found.now))) }
    ensures found { HasOptions (rows_of (found_of found.now)) file_names → IsSome result }
{
    Some(FileWords {
        schools: text_in(found, "schools")?,
        roster: text_in(found, "roster")?,
        lists: text_in(found, "lists")?,
    })
}

/// The options of an opening.
fn opening_in<'a>(found: &ArgMatches<'a>) -> Option<OpeningWords<'a>>
    ensures given { IfSome result (IsOpeningIn (rows_of (found_of found.now))) }
    ensures found { HasOptions (rows_of (found_of found.now)) opening_names → IsSome result }
{
    Some(OpeningWords {
        seed: text_in(found, "seed")?,
        files: files_in(found)?,
    })
}

/// What `match` asks for.
fn match_in<'a>(found: &ArgMatches<'a>) -> Subcommand<'a>
    ensures { IsSubcommandIn (codes "match") (rows_of (found_of found.now)) result }
{
    Subcommand::Match {
        show_log: is_set(found, "print-log"),
        table: text_in(found, "table"),
    }
}

/// What `run` asks for. `--settle-at-end` asks for what is done anyway, so no order holds it.
fn run_in<'a>(found: &ArgMatches<'a>) -> Option<Subcommand<'a>>
    ensures given { IfSome result (IsSubcommandIn (codes "run") (rows_of (found_of found.now))) }
    ensures found { HasOptions (rows_of (found_of found.now)) run_names → IsSome result }
{
    Some(Subcommand::Run {
        script: text_in(found, "script")?,
        journal: text_in(found, "journal")?,
        no_clobber: is_set(found, "no-clobber"),
        settle_each: is_set(found, "settle-each"),
    })
}

/// What `audit` asks for.
fn audit_in<'a>(found: &ArgMatches<'a>) -> Option<Subcommand<'a>>
    ensures given { IfSome result (IsSubcommandIn (codes "audit") (rows_of (found_of found.now))) }
    ensures found { HasOptions (rows_of (found_of found.now)) audit_names → IsSome result }
{
    Some(Subcommand::Audit {
        log: text_in(found, "log")?,
        report: text_in(found, "report"),
    })
}

/// What `replay` asks for.
fn replay_in<'a>(found: &ArgMatches<'a>) -> Option<Subcommand<'a>>
    ensures given { IfSome result (IsSubcommandIn (codes "replay") (rows_of (found_of found.now))) }
    ensures found { HasOptions (rows_of (found_of found.now)) replay_names → IsSome result }
{
    Some(Subcommand::Replay {
        journal: text_in(found, "journal")?,
        table: text_in(found, "table"),
    })
}

/// What `export` asks for.
fn export_in<'a>(found: &ArgMatches<'a>) -> Option<Subcommand<'a>>
    ensures given { IfSome result (IsSubcommandIn (codes "export") (rows_of (found_of found.now))) }
    ensures found { HasOptions (rows_of (found_of found.now)) export_names → IsSome result }
{
    Some(Subcommand::Export {
        to: text_in(found, "to")?,
        journal: text_in(found, "journal"),
    })
}

/// What `summary` asks for.
fn summary_in<'a>(found: &ArgMatches<'a>) -> Subcommand<'a>
    ensures { IsSubcommandIn (codes "summary") (rows_of (found_of found.now)) result }
{
    Subcommand::Summary {
        journal: text_in(found, "journal"),
    }
}

/// What `explain` asks for.
fn explain_in<'a>(found: &ArgMatches<'a>) -> Subcommand<'a>
    ensures { IsSubcommandIn (codes "explain") (rows_of (found_of found.now)) result }
{
    Subcommand::Explain {
        student: text_in(found, "student"),
        journal: text_in(found, "journal"),
    }
}

/// What `admissions` asks for.
fn admissions_in<'a>(found: &ArgMatches<'a>) -> Subcommand<'a>
    ensures { IsSubcommandIn (codes "admissions") (rows_of (found_of found.now)) result }
{
    Subcommand::Admissions {
        school: text_in(found, "school"),
        journal: text_in(found, "journal"),
    }
}

/// What `changes` asks for.
fn changes_in<'a>(found: &ArgMatches<'a>) -> Option<Subcommand<'a>>
    ensures given { IfSome result (IsSubcommandIn (codes "changes") (rows_of (found_of found.now))) }
    ensures found { HasOptions (rows_of (found_of found.now)) changes_names → IsSome result }
{
    Some(Subcommand::Changes {
        journal: text_in(found, "journal")?,
        since: text_in(found, "since"),
    })
}

/// What the subcommand of this name asks for of an opening, or `None` where there is none of this name or it lacks an
/// option.
fn subcommand_in<'a>(name: &str, found: &ArgMatches<'a>) -> Option<Subcommand<'a>>
    ensures given { IfSome result (IsSubcommandIn name.now (rows_of (found_of found.now))) }
    ensures found { IsOneOf opening_subcommands name.now (rows_of (found_of found.now)) → IsSome result }
{
    match name {
        "match" => Some(match_in(found)),
        "run" => run_in(found),
        "audit" => audit_in(found),
        "replay" => replay_in(found),
        "export" => export_in(found),
        "summary" => Some(summary_in(found)),
        "explain" => Some(explain_in(found)),
        "admissions" => Some(admissions_in(found)),
        "changes" => changes_in(found),
        _ => None,
    }
}

/// The order of `check`.
fn check_in<'a>(found: &ArgMatches<'a>) -> Option<Order<'a>>
    ensures given { IfSome result (IsOrderIn (codes "check") (rows_of (found_of found.now))) }
    ensures found { HasOptions (rows_of (found_of found.now)) check_names → IsSome result }
{
    Some(Order::Check {
        files: files_in(found)?,
        script: text_in(found, "script"),
    })
}

/// The order of the subcommand of this name, or `None` where there is none of this name or it lacks an option.
fn named_order<'a>(name: &str, found: &ArgMatches<'a>) -> Option<Order<'a>>
    ensures given { IfSome result (IsOrderIn name.now (rows_of (found_of found.now))) }
    ensures found { IsComplete name.now (rows_of (found_of found.now)) → IsSome result }
{
    match name {
        "check" => check_in(found),
        _ => Some(Order::Opening {
            opening: opening_in(found)?,
            subcommand: subcommand_in(name, found)?,
        }),
    }
}

/// The order of a subcommand, or `None` where there is none or it lacks an option.
fn order_in<'a>(matches: &ArgMatches<'a>) -> Option<Order<'a>>
    ensures given { IfSome result (λ order. IsSomeAnd (subcommand_rows_of matches.now)
        (λ p. IsOrderIn p.0 p.1 order)) }
    ensures found { IsSomeAnd (subcommand_rows_of matches.now) (λ p. IsComplete p.0 p.1)
        → IsSome result }
{
    let (name, found) = matches.subcommand()?;
    named_order(name, found)
}

/// What the words after the program's name order: with no words the bundle, and else what `clap` reads
/// in them. The order borrows its texts from the words.
///
/// An error is `clap`'s, and has one of the kinds that its own statements find in the words (wrong
/// words, or that help was asked for), or means want of memory.
pub fn order_of<'a>(alloc: Global, words: &'a [Word]) -> Result<Order<'a>, Error>
    ensures no_words { (result ≡ Ok Order.Bundle) ↔ (words.entry.now ≡ []) }
    ensures order { IfOk result (IsOrderOf words.entry.now) }
    ensures refused { FailsBy (faults_of words.entry.now) result }
{
    if words.is_empty() {
        return Ok(Order::Bundle);
    }
    let matches = program(alloc)?.try_get_matches_from(words)?;
    match order_in(&matches) {
        Some(order) => Ok(order),
        // `clap` has refused words without a subcommand, or without an option that must be given.
        None => unreachable!(),
    }
}

//! What words order, and what is said of words that order nothing.
mod help;

use crate::comparing::{same, same_in};
use clap::error::ErrorKind;
use sc_program::end_without_words;
use sc_words::{FileWords, OpeningWords, Order, Subcommand, Word, order_of};
use std::alloc::{AllocError, Global};
use std::io;
use std::process::Abort;

/// The words of a line, which stand between bars.
fn words_of(alloc: Global, line: &str) -> Result<Vec<Word>, AllocError> {
    let mut words = Vec::new(alloc);
    for text in line.split('|') {
        words.push(Word::from_text(String::from_str(alloc, text)?))?;
    }
    Ok(words)
}

const FILES: FileWords<'static> = FileWords {
    schools: "schools",
    roster: "roster",
    lists: "lists",
};

const OPENING: OpeningWords<'static> = OpeningWords {
    seed: "00",
    files: FILES,
};

/// Lines, and what each asks for with that opening.
const ORDERS: &[(&str, Subcommand<'static>)] = &[
    (
        "match|--seed|00|--schools|schools|--roster|roster|--lists|lists",
        Subcommand::Match {
            show_log: false,
            table: None,
        },
    ),
    (
        "match|--print-log|--lists=lists|--roster|roster|--schools=schools|--seed|00",
        Subcommand::Match {
            show_log: true,
            table: None,
        },
    ),
    (
        "match|--table|cutoffs|--lists=lists|--roster|roster|--schools=schools|--seed|00",
        Subcommand::Match {
            show_log: false,
            table: Some("cutoffs"),
        },
    ),
    (
        "run|--seed|00|--schools|schools|--roster|roster|--lists|lists|--script|script|--journal|journal",
        Subcommand::Run {
            script: "script",
            journal: "journal",
            no_clobber: false,
            settle_each: false,
        },
    ),
    (
        "run|--journal=|--script=-|--seed|00|--schools|schools|--roster|roster|--lists|lists",
        Subcommand::Run {
            script: "-",
            journal: "",
            no_clobber: false,
            settle_each: false,
        },
    ),
    (
        "run|--settle-each|--seed|00|--schools|schools|--roster|roster|--lists|lists|--script|script|--journal|journal",
        Subcommand::Run {
            script: "script",
            journal: "journal",
            no_clobber: false,
            settle_each: true,
        },
    ),
    (
        "run|--settle-at-end|--seed|00|--schools|schools|--roster|roster|--lists|lists|--script|script|--journal|journal",
        Subcommand::Run {
            script: "script",
            journal: "journal",
            no_clobber: false,
            settle_each: false,
        },
    ),
    (
        "run|--settle-at-end|--settle-each|--seed|00|--schools|schools|--roster|roster|--lists|lists|--script|script|--journal|journal",
        Subcommand::Run {
            script: "script",
            journal: "journal",
            no_clobber: false,
            settle_each: true,
        },
    ),
    (
        "run|--no-clobber|--seed|00|--schools|schools|--roster|roster|--lists|lists|--script|script|--journal|journal",
        Subcommand::Run {
            script: "script",
            journal: "journal",
            no_clobber: true,
            settle_each: false,
        },
    ),
    (
        "audit|--seed|00|--schools|schools|--roster|roster|--lists|lists|--log|the log",
        Subcommand::Audit {
            log: "the log",
            report: None,
        },
    ),
    (
        "audit|--report|the report|--seed|00|--schools|schools|--roster|roster|--lists|lists|--log|the log",
        Subcommand::Audit {
            log: "the log",
            report: Some("the report"),
        },
    ),
    (
        "replay|--seed|00|--schools|schools|--roster|roster|--lists|lists|--journal=--journal",
        Subcommand::Replay {
            journal: "--journal",
            table: None,
        },
    ),
    (
        "replay|--table=reasons|--seed|00|--schools|schools|--roster|roster|--lists|lists|--journal|journal",
        Subcommand::Replay {
            journal: "journal",
            table: Some("reasons"),
        },
    ),
    (
        "summary|--seed|00|--schools|schools|--roster|roster|--lists|lists",
        Subcommand::Summary { journal: None },
    ),
    (
        "summary|--journal=kept|--seed|00|--schools|schools|--roster|roster|--lists|lists",
        Subcommand::Summary {
            journal: Some("kept"),
        },
    ),
    (
        "explain|--seed|00|--schools|schools|--roster|roster|--lists|lists",
        Subcommand::Explain {
            student: None,
            journal: None,
        },
    ),
    (
        "explain|--student|7|--journal=kept|--seed|00|--schools|schools|--roster|roster|--lists|lists",
        Subcommand::Explain {
            student: Some("7"),
            journal: Some("kept"),
        },
    ),
    (
        "admissions|--seed|00|--schools|schools|--roster|roster|--lists|lists",
        Subcommand::Admissions {
            school: None,
            journal: None,
        },
    ),
    (
        "admissions|--school|20|--journal=kept|--seed|00|--schools|schools|--roster|roster|--lists|lists",
        Subcommand::Admissions {
            school: Some("20"),
            journal: Some("kept"),
        },
    ),
    (
        "changes|--seed|00|--schools|schools|--roster|roster|--lists|lists|--journal|kept",
        Subcommand::Changes {
            journal: "kept",
            since: None,
        },
    ),
    (
        "changes|--since|7|--journal=kept|--seed|00|--schools|schools|--roster|roster|--lists|lists",
        Subcommand::Changes {
            journal: "kept",
            since: Some("7"),
        },
    ),
    (
        "export|--seed|00|--schools|schools|--roster|roster|--lists|lists|--to|next",
        Subcommand::Export {
            to: "next",
            journal: None,
        },
    ),
    (
        "export|--journal|kept|--seed|00|--schools|schools|--roster|roster|--lists|lists|--to=",
        Subcommand::Export {
            to: "",
            journal: Some("kept"),
        },
    ),
];

/// The words order this.
fn expect_order<R: Abort + AllocGlobal>(rt: &R, words: &[Word], want: Order<'_>) {
    match order_of(rt.alloc(), words) {
        Ok(order) => same(rt, &order, &want),
        Err(error) => panic!(rt; "{error}"),
    }
}

/// The words of a line ask for this with the opening.
fn expect_subcommand<R: Abort + AllocGlobal>(rt: &R, line: &str, subcommand: Subcommand<'_>) {
    match words_of(rt.alloc(), line) {
        Ok(words) => expect_order(
            rt,
            words.as_slice(),
            Order::Opening {
                opening: OPENING,
                subcommand,
            },
        ),
        Err(error) => panic!(rt; "{error}"),
    }
}

/// Lines that ask for a check of those files, and the script of each.
const CHECKS: &[(&str, Option<&'static str>)] = &[
    (
        "check|--schools|schools|--roster|roster|--lists|lists",
        None,
    ),
    (
        "check|--script=late|--lists|lists|--roster=roster|--schools|schools",
        Some("late"),
    ),
];

/// The words of a line ask for a check of the files, and of this script.
fn expect_check<R: Abort + AllocGlobal>(rt: &R, line: &str, script: Option<&'static str>) {
    match words_of(rt.alloc(), line) {
        Ok(words) => expect_order(
            rt,
            words.as_slice(),
            Order::Check {
                files: FILES,
                script,
            },
        ),
        Err(error) => panic!(rt; "{error}"),
    }
}

#[test]
fn command_lines(rt: HostRuntime) {
    for (line, subcommand) in ORDERS {
        expect_subcommand(&rt, line, *subcommand);
    }
    for (line, script) in CHECKS {
        expect_check(&rt, line, *script);
    }
    expect_order(&rt, &[], Order::Bundle);
}

/// The kind of error that `clap` finds in words that order nothing, and its text.
fn clap_error(alloc: Global, line: &str) -> Result<Option<(ErrorKind, String)>, AllocError> {
    let words = words_of(alloc, line)?;
    match order_of(alloc, words.as_slice()) {
        Ok(_) => Ok(None),
        Err(error) => Ok(Some((error.kind(), format!(in alloc; "{error}")?))),
    }
}

/// The words of a line order nothing: `clap` finds this kind of error in them, and says this among other
/// things.
fn expect_error<R: Abort + AllocGlobal>(rt: &R, line: &str, kind: ErrorKind, piece: &str) {
    match clap_error(rt.alloc(), line) {
        Ok(Some((found, text))) => {
            same_in(rt, &found, &kind, line);
            assert!(rt; text.as_str().contains(piece), "{line}: {text}");
        }
        Ok(None) => panic!(rt; "{line}: no error"),
        Err(error) => panic!(rt; "{error}"),
    }
}

const WRONG_LINES: &[(&str, ErrorKind)] = &[
    ("", ErrorKind::InvalidSubcommand),
    ("shuffle", ErrorKind::InvalidSubcommand),
    ("--seed|00|match", ErrorKind::UnknownArgument),
    ("match", ErrorKind::MissingRequiredArgument),
    (
        "match|--seed|00|--schools|schools|--roster|roster",
        ErrorKind::MissingRequiredArgument,
    ),
    ("match|--colour", ErrorKind::UnknownArgument),
    ("run|--print-log", ErrorKind::UnknownArgument),
    ("match|--print-log=yes", ErrorKind::TooManyValues),
    ("match|schools", ErrorKind::UnknownArgument),
    ("match|--seed|00|--seed|00", ErrorKind::ArgumentConflict),
    ("match|--print-log|--print-log", ErrorKind::ArgumentConflict),
    ("run|--no-clobber|--no-clobber", ErrorKind::ArgumentConflict),
    ("replay|--no-clobber", ErrorKind::UnknownArgument),
    ("match|--seed", ErrorKind::InvalidValue),
    ("audit|--log|-x", ErrorKind::UnknownArgument),
    ("audit|--log|--seed", ErrorKind::InvalidValue),
    ("help", ErrorKind::DisplayHelp),
    ("help|run", ErrorKind::DisplayHelp),
    ("--help", ErrorKind::DisplayHelp),
    ("match|--help", ErrorKind::DisplayHelp),
    ("run|-h", ErrorKind::DisplayHelp),
    ("--version", ErrorKind::DisplayVersion),
    ("-V", ErrorKind::DisplayVersion),
    ("match|--version", ErrorKind::UnknownArgument),
    ("summary|--student|1", ErrorKind::UnknownArgument),
    (
        "explain|--student|1|--student|2",
        ErrorKind::ArgumentConflict,
    ),
    ("explain|--student|1", ErrorKind::MissingRequiredArgument),
    ("explain|--school|1", ErrorKind::UnknownArgument),
    ("admissions|--student|1", ErrorKind::UnknownArgument),
    ("admissions|--school|1", ErrorKind::MissingRequiredArgument),
    ("admissions|--since|1", ErrorKind::UnknownArgument),
    (
        "changes|--seed|00|--schools|schools|--roster|roster|--lists|lists",
        ErrorKind::MissingRequiredArgument,
    ),
    ("changes|--since|1|--since|2", ErrorKind::ArgumentConflict),
    ("check|--seed|00", ErrorKind::UnknownArgument),
    ("check|--journal|kept", ErrorKind::UnknownArgument),
    (
        "check|--schools|schools|--roster|roster|--script|late",
        ErrorKind::MissingRequiredArgument,
    ),
];

#[test]
fn wrong_command_lines(rt: HostRuntime) {
    for (line, kind) in WRONG_LINES {
        expect_error(&rt, line, *kind, "");
    }
    let missing = "error: the following required arguments were not provided:";
    expect_error(&rt, "match", ErrorKind::MissingRequiredArgument, missing);
}

/// What the program says, and its status, where its words could not be read for this error.
fn expect_end<R: Abort + AllocGlobal>(rt: &R, error: &io::Error, line: &[u8], want: u8) {
    let mut errors = Vec::new(rt.alloc());
    let status = end_without_words(rt.alloc(), error, &mut errors);
    assert!(rt; errors.as_slice() == line, "{errors:?}");
    same(rt, &status, &want);
}

#[test]
fn words_that_could_not_be_read(rt: HostRuntime) {
    let line = b"clearinghouse: a word of the command line is not UTF-8\n";
    expect_end(&rt, &io::Error::from(io::ErrorKind::InvalidData), line, 2);
    let line = b"clearinghouse: out of memory\n";
    expect_end(&rt, &io::Error::from(io::ErrorKind::OutOfMemory), line, 5);
}

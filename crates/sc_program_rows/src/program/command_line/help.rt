//! What help says.
use super::expect_error;
use clap::error::ErrorKind;

/// Lines that ask for help, and a piece of what it says.
const HELP_TEXTS: &[(&str, &str)] = &[
    ("--help", "Usage: clearinghouse <COMMAND>"),
    ("--help", "Exit status: 0 done, 1 the log is not certified"),
    (
        "match|--help",
        "Usage: clearinghouse match [OPTIONS] --seed <HEX>",
    ),
    (
        "match|--help",
        "Assign the places of an opening and write the report",
    ),
    ("match|--help", "school,zone,seats"),
    ("match|--help", "student,zone,siblings"),
    ("match|--help", "student,choices"),
    ("match|--help", "--print-log"),
    ("match|--help", "Example:\n  clearinghouse match"),
    (
        "run|--help",
        "Answer a script of amendments after an opening",
    ),
    ("run|--help", "STAMP,enter,STUDENT,ZONE,SIBLINGS,CHOICES"),
    ("run|--help", "the k-th ok gives\nstamp k"),
    ("run|--help", "emptied before the inputs are read"),
    ("run|--help", "Example:\n  clearinghouse run"),
    (
        "audit|--help",
        "Check a log of rejections against an opening",
    ),
    ("audit|--help", "STUDENT,SCHOOL"),
    ("audit|--help", "Example:\n  clearinghouse audit"),
    (
        "check|--help",
        "Tell every fault of the files of an opening",
    ),
    ("check|--help", "the line as an editor counts it"),
    ("check|--help", "Example:\n  clearinghouse check"),
    ("replay|--help", "Replay a journal over an opening"),
    ("replay|--help", "--journal <FILE>"),
    ("replay|--help", "Example:\n  clearinghouse replay"),
    ("summary|--help", "Write what a district publishes"),
    ("summary|--help", "Example:\n  clearinghouse summary"),
    ("explain|--help", "Write what came of each choice"),
    ("explain|--help", "--student <NUMBER>"),
    ("explain|--help", "Example:\n  clearinghouse explain"),
    ("admissions|--help", "Write the class list"),
    ("admissions|--help", "--school <NUMBER>"),
    ("admissions|--help", "Example:\n  clearinghouse admissions"),
    ("changes|--help", "Write whose place"),
    ("changes|--help", "--since <LINE>"),
    ("changes|--help", "Example:\n  clearinghouse changes"),
    ("export|--help", "Write the papers of an opening"),
    ("export|--help", "[OPTIONS]"),
    ("export|--help", "--to <FOLDER>"),
    ("export|--help", "Example:\n  clearinghouse export"),
];

#[test]
fn help_texts(rt: HostRuntime) {
    for (line, piece) in HELP_TEXTS {
        expect_error(&rt, line, ErrorKind::DisplayHelp, piece);
    }
}

//! The options and the subcommands, as tables.

use crate::help;

/// How an option is given, and what help calls its value where it has one.
#[derive(Clone, Copy)]
pub(crate) enum OptionKind {
    /// With a value; it must be given.
    Required(&'static str),
    /// With a value; it may be left out.
    Optional(&'static str),
    /// Without a value; it may be left out.
    Flag,
}

/// An option that the program knows.
#[derive(Clone, Copy)]
pub(crate) struct KnownOption {
    /// What stands after the two dashes.
    pub(crate) name: &'static str,
    /// How it is given.
    pub(crate) kind: OptionKind,
    /// What help says of it.
    pub(crate) help: &'static str,
}

/// A subcommand that the program knows.
#[derive(Clone, Copy)]
pub(crate) struct KnownSubcommand {
    /// The word that asks for it.
    pub(crate) name: &'static str,
    /// What help says of it in a line.
    pub(crate) about: &'static str,
    /// What its own help says after the options.
    pub(crate) after: &'static str,
    /// Its options, in the order in which help lists them.
    pub(crate) options: &'static [KnownOption],
}

const SEED: KnownOption = KnownOption {
    name: "seed",
    kind: OptionKind::Required("HEX"),
    help: "The lottery's seed, 64 hexadecimal digits",
};

const SCHOOLS: KnownOption = KnownOption {
    name: "schools",
    kind: OptionKind::Required("FILE"),
    help: "The schools, one a row under the header school,zone,seats (zone 0: none)",
};

const ROSTER: KnownOption = KnownOption {
    name: "roster",
    kind: OptionKind::Required("FILE"),
    help: "The students, one a row under the header student,zone,siblings (the schools of their siblings) or student,zone,siblings,continuing (and the school at which they continue, or nothing)",
};

const LISTS: KnownOption = KnownOption {
    name: "lists",
    kind: OptionKind::Required("FILE"),
    help: "The students' choices, one student a row under the header student,choices (schools, best first)",
};

const CHECKED_SCRIPT: KnownOption = KnownOption {
    name: "script",
    kind: OptionKind::Optional("FILE"),
    help: "The amendments, of which each record is read and none is made",
};

const PRINT_LOG: KnownOption = KnownOption {
    name: "print-log",
    kind: OptionKind::Flag,
    help: "Write the log of rejections in place of the report",
};

const TABLE: KnownOption = KnownOption {
    name: "table",
    kind: OptionKind::Optional("TABLE"),
    help: "Write one table of the report alone: assignment, cutoffs or reasons",
};

const SCRIPT: KnownOption = KnownOption {
    name: "script",
    kind: OptionKind::Required("FILE"),
    help: "The amendments, one a record and no header (below)",
};

const NEW_JOURNAL: KnownOption = KnownOption {
    name: "journal",
    kind: OptionKind::Required("FILE"),
    help: "The file that keeps the accepted amendments; it is made new, or emptied before the inputs are read, and must not be one of them",
};

const NO_CLOBBER: KnownOption = KnownOption {
    name: "no-clobber",
    kind: OptionKind::Flag,
    help: "Refuse a journal that is there already, unless it is an empty file, rather than empty it",
};

const SETTLE_EACH: KnownOption = KnownOption {
    name: "settle-each",
    kind: OptionKind::Flag,
    help: "Settle the papers after each amendment, and not once, after the last record; the bytes are the same, and a long script takes longer",
};

const SETTLE_AT_END: KnownOption = KnownOption {
    name: "settle-at-end",
    kind: OptionKind::Flag,
    help: "Settle the papers once, after the last record, as is done anyway; this changes nothing",
};

const LOG: KnownOption = KnownOption {
    name: "log",
    kind: OptionKind::Required("FILE"),
    help: "The log of rejections, a record STUDENT,SCHOOL each and no header",
};

const REPORT: KnownOption = KnownOption {
    name: "report",
    kind: OptionKind::Optional("FILE"),
    help: "The report that was published, which is to be that of the log's assignment",
};

const OLD_JOURNAL: KnownOption = KnownOption {
    name: "journal",
    kind: OptionKind::Required("FILE"),
    help: "The journal that a run kept: a line for each accepted amendment, its number and the amendment",
};

const TO: KnownOption = KnownOption {
    name: "to",
    kind: OptionKind::Required("FOLDER"),
    help: "The folder in which schools.csv, roster.csv and lists.csv are made",
};

const KEPT_JOURNAL: KnownOption = KnownOption {
    name: "journal",
    kind: OptionKind::Optional("FILE"),
    help: "The journal that a run kept, if amendments were made",
};

const STUDENT: KnownOption = KnownOption {
    name: "student",
    kind: OptionKind::Optional("NUMBER"),
    help: "The number of the one student whose lines are written",
};

const SCHOOL: KnownOption = KnownOption {
    name: "school",
    kind: OptionKind::Optional("NUMBER"),
    help: "The number of the school whose lists alone are to be written",
};

const SINCE: KnownOption = KnownOption {
    name: "since",
    kind: OptionKind::Optional("LINE"),
    help: "How many lines the journal had when the results were published; without it, none",
};

/// The subcommands, in the order in which help lists them. They are no `static`, since the prover takes more steps than it
/// may at one of this size.
pub(crate) const SUBCOMMANDS: [KnownSubcommand; 10] = [
    KnownSubcommand {
        name: "check",
        about: "Tell every fault of the files of an opening, and of a script if there is one",
        after: help::CHECK_AFTER,
        options: &[SCHOOLS, ROSTER, LISTS, CHECKED_SCRIPT],
    },
    KnownSubcommand {
        name: "match",
        about: "Assign the places of an opening and write the report, or with --print-log its log of rejections",
        after: help::MATCH_AFTER,
        options: &[SEED, SCHOOLS, ROSTER, LISTS, PRINT_LOG, TABLE],
    },
    KnownSubcommand {
        name: "run",
        about: "Answer a script of amendments after an opening, write the replies and the report, and keep a journal of what was accepted",
        after: help::RUN_AFTER,
        options: &[
            SEED,
            SCHOOLS,
            ROSTER,
            LISTS,
            SCRIPT,
            NEW_JOURNAL,
            NO_CLOBBER,
            SETTLE_EACH,
            SETTLE_AT_END,
        ],
    },
    KnownSubcommand {
        name: "audit",
        about: "Check a log of rejections against an opening, without trusting who made it",
        after: help::AUDIT_AFTER,
        options: &[SEED, SCHOOLS, ROSTER, LISTS, LOG, REPORT],
    },
    KnownSubcommand {
        name: "replay",
        about: "Replay a journal over an opening and write the report",
        after: help::REPLAY_AFTER,
        options: &[SEED, SCHOOLS, ROSTER, LISTS, OLD_JOURNAL, TABLE],
    },
    KnownSubcommand {
        name: "export",
        about: "Write the papers of an opening, as they stand after a journal if there is one, as the files of a new opening",
        after: help::EXPORT_AFTER,
        options: &[SEED, SCHOOLS, ROSTER, LISTS, TO, KEPT_JOURNAL],
    },
    KnownSubcommand {
        name: "summary",
        about: "Write what a district publishes: how many students have each rank, and how sought after each school is",
        after: help::SUMMARY_AFTER,
        options: &[SEED, SCHOOLS, ROSTER, LISTS, KEPT_JOURNAL],
    },
    KnownSubcommand {
        name: "explain",
        about: "Write what came of each choice of every student, or of one, and why",
        after: help::EXPLAIN_AFTER,
        options: &[SEED, SCHOOLS, ROSTER, LISTS, STUDENT, KEPT_JOURNAL],
    },
    KnownSubcommand {
        name: "admissions",
        about: "Write the class list and the waiting list of every school, or of one",
        after: help::ADMISSIONS_AFTER,
        options: &[SEED, SCHOOLS, ROSTER, LISTS, SCHOOL, KEPT_JOURNAL],
    },
    KnownSubcommand {
        name: "changes",
        about: "Write whose place the amendments changed since results were published",
        after: help::CHANGES_AFTER,
        options: &[SEED, SCHOOLS, ROSTER, LISTS, OLD_JOURNAL, SINCE],
    },
];

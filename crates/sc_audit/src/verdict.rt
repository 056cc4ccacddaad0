use sc_papers::SchoolNo;

/// What an audit finds: the first thing that is wrong with a log, or that nothing is.
#[derive(Clone, Copy, Debug, PartialEq, Eq)]
pub enum Verdict {
    /// The entry in this line, counted from 1, is the first that is not valid after those before it:
    /// the school is not the student's next choice, or too few students who are ahead there have it
    /// as theirs.
    BadEntry { line: u64 },
    /// Every entry is valid, but at the log's end more students have this school as their next choice
    /// than it has seats. No school of a lesser number is over its seats.
    Over { school: SchoolNo },
    /// The log is settled for the papers: it certifies the matching that gives each student the next
    /// choice.
    Certified,
}

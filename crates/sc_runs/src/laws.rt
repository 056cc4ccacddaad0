//! What the texts of a run come to. Each function does nothing: its contract is the law.
ghost use Rattle.std.specs.Io.{StartsWith};
ghost use Rattle.std.specs.Prelude.{◌≡◌, ℕ, ◌≤◌, ◌&&◌, nat_le, ◌++◌, [], List, codes, length, Result, Ok, Some};
ghost use Rattle.sc_papers.specs.Market.{Market};
ghost use Rattle.sc_papers.specs.Interleaving.{IsInterleaving};
ghost use Rattle.sc_papers.specs.Matching.{IsStudentOptimal, Matching};
ghost use Rattle.sc_papers.specs.WellFormed.{WellFormed};
ghost use Rattle.sc_papers.specs.declared.amendment.Refusal.{Refusal};
ghost use Rattle.sc_papers.specs.declared.amendment.Stamped.{Stamped};
ghost use Rattle.sc_stamps.specs.Verdict.{unamended};
ghost use Rattle.sc_intake.specs.Script.{script_in};
ghost use Rattle.sc_intake.specs.declared.fault.IntakeFault.{IntakeFault};
ghost use Rattle.sc_journal.specs.Journal.{journal_text, IsReplay};
ghost use Rattle.sc_journal.specs.declared.journal.Tail.{Tail};
ghost use Rattle.sc_journal.specs.declared.journal.Tail.TheVariants.{Whole};
ghost use Rattle.sc_report.specs.Text.{report_text};
ghost use Rattle.sc_steps.specs.Script.{after_script};
ghost use Rattle.sc_steps.specs.declared.fault.RunFault.{RunFault};
ghost use Rattle.sc_runs.specs.Changing.{whole_lines, IsChange};
ghost use Rattle.sc_runs.specs.Desks.{papers_after, AreSameUpToOrder};
ghost use Rattle.sc_runs.specs.Run.{accepted, replies, Opened, WritesRun};
ghost use Rattle.sc_runs.specs.Standing.{Stands};

use sc_intake::MOST_BYTES;
use sc_journal::LineNo;
use sc_papers::{
    Count, LONGEST_LIST, MOST_SCHOOLS, MOST_STUDENTS, SchoolNo, Seats, Stamp, StudentNo, Zone,
};

/// The greatest numbers: of students and of lines of the journal up to 999,999,999, and stamps as far; of schools up to
/// 99,999, zones up to 9,999; 10,000 seats of a school, and as many in one amendment; 20 schools on a list, 5,000 schools
/// and 200,000 students; 64 MiB of one input. Every other clause cites them by name.
pub fn greatest_numbers_are_these()
    ensures student { StudentNo.GREATEST ≡ 999999999 }
    ensures school { SchoolNo.GREATEST ≡ 99999 }
    ensures zone { Zone.GREATEST ≡ 9999 }
    ensures seats { Seats.GREATEST ≡ 10000 }
    ensures count { Count.GREATEST ≡ 10000 }
    ensures list { LONGEST_LIST ≡ 20 }
    ensures schools { MOST_SCHOOLS ≡ 5000 }
    ensures students { MOST_STUDENTS ≡ 200000 }
    ensures bytes { MOST_BYTES ≡ 67108864 }
    ensures line { LineNo.GREATEST ≡ 999999999 }
    ensures stamp { Stamp.GREATEST ≡ 999999999 }
{}

/// As what a number is taken.
#[derive(Clone, Copy, Debug, PartialEq, Eq)]
pub struct TakenAs {
    pub student: bool,
    pub school: bool,
    pub zone: bool,
    pub seats: bool,
    pub count: bool,
    pub line: bool,
    pub stamp: bool,
}

/// Which numbers are taken by each kind's `new`: these and no other, from the least to the greatest.
pub fn numbers_are_taken_in_these_ranges(number: u32) -> TakenAs
    ensures student { result.student ≡ (nat_le 1 number && nat_le number 999999999) }
    ensures school { result.school ≡ (nat_le 1 number && nat_le number 99999) }
    ensures zone { result.zone ≡ nat_le number 9999 }
    ensures seats { result.seats ≡ nat_le number 10000 }
    ensures count { result.count ≡ (nat_le 1 number && nat_le number 10000) }
    ensures line { result.line ≡ (nat_le 1 number && nat_le number 999999999) }
    ensures stamp { result.stamp ≡ nat_le number 999999999 }
{
    TakenAs {
        student: StudentNo::new(number).is_some(),
        school: SchoolNo::new(number).is_some(),
        zone: Zone::new(number).is_some(),
        seats: Seats::new(number).is_some(),
        count: Count::new(number).is_some(),
        line: LineNo::new(number).is_some(),
        stamp: Stamp::new(number).is_some(),
    }
}

/// The journal of a run is replayed, over the papers of the opening, to the papers after the run, order
/// of entry included, and to the stamps after it, and no line of it is torn.
pub fn journal_of_a_run_is_replayed()
    ensures { (m : Market) (text : List ℕ) (script : List (Result Stamped Refusal)) → script_in text ≡ Ok script
        → IsReplay (unamended m) (after_script (unamended m) script)
        (journal_text 1 (accepted (unamended m) script)) Whole }
{}

/// The journal of a run never has more lines than there are numbers for.
pub fn journal_of_a_run_is_never_full()
    ensures { (m : Market) (script : List (Result Stamped Refusal))
        → length (accepted (unamended m) script) ≤ LineNo.GREATEST }
{}

/// Each `ok` that stands whole in the output has its line whole in the journal, whatever ended the run. However much of what it writes
/// two empty writers were given: where the output has the replies to the first records of the script, the journal has the lines of
/// all those among them that were accepted.
pub fn no_reply_before_its_line()
    ensures { (opened : Opened) (first rest : List (Result Stamped Refusal)) (journal output : List ℕ)
        (result : Result (Unit {0}) RunFault) → opened.script ≡ first ++ rest
        → WritesRun (Ok opened) (record { journal = Some []; output = Some [] })
        (record { journal = Some journal; output = Some output }) result
        → StartsWith output (replies 1 (unamended opened.papers) first)
        → StartsWith journal (journal_text 1 (accepted (unamended opened.papers) first)) }
{}

/// The order of stamped amendments decides nothing where it leaves the same papers: two lists of them over the same
/// papers of an opening, or two interleavings of several desks' lists, refused ones among them, after which the schools
/// and the students are the same up to order, leave every student the same, and one report.
pub fn stamped_amendments_that_leave_the_same_papers_leave_one_report()
    ensures matching { (m : Market) (first second : List Stamped) (a b : Matching) → WellFormed m
        → AreSameUpToOrder (papers_after m first) (papers_after m second) → IsStudentOptimal (papers_after m first) a
        → IsStudentOptimal (papers_after m second) b → (i : ℕ) → a i ≡ b i }
    ensures report { (m : Market) (first second : List Stamped) (a b : Matching) → WellFormed m
        → AreSameUpToOrder (papers_after m first) (papers_after m second) → IsStudentOptimal (papers_after m first) a
        → IsStudentOptimal (papers_after m second) b
        → report_text (papers_after m first) a ≡ report_text (papers_after m second) b }
    ensures desks { (m : Market) (desks : List (List Stamped)) (first second : List Stamped) (a b : Matching)
        → WellFormed m → IsInterleaving desks first → IsInterleaving desks second
        → AreSameUpToOrder (papers_after m first) (papers_after m second) → IsStudentOptimal (papers_after m first) a
        → IsStudentOptimal (papers_after m second) b
        → ((i : ℕ) → a i ≡ b i) × (report_text (papers_after m first) a ≡ report_text (papers_after m second) b) }
{}

/// After the last whole line of a journal nobody's place changes: what is told since then is the header alone.
pub fn nothing_changes_after_the_last_line()
    ensures { (reading : Result Market IntakeFault) (journal : List ℕ) (now : Market) (tail : Tail) (text : List ℕ)
        → Stands reading journal now tail → IsChange (whole_lines journal) reading journal now text
        → text ≡ codes "student,before,after\n" }
{}

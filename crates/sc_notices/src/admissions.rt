//! The class lists and the waiting lists as text.
ghost use Rattle.std.specs.Prelude.{◌≡◌, ◌+◌, ◌^◌, ◌<◌, ◌++◌, true, length, is_some, IfOk, IfSome, OnOk};
ghost use Rattle.sc_papers.specs.Market.{is_school, schools_of, students_of};
ghost use Rattle.sc_papers.specs.Matching.{Matching};
ghost use Rattle.sc_repair.specs.Standing.{matching_of};
ghost use Rattle.sc_reasons.specs.Rising.{rising};
ghost use Rattle.sc_notices.specs.AdmissionsText.{admissions_of, admissions_text, list_lines, place_line, school_lists};
ghost use Rattle.sc_notices.specs.KeyLists.{AreCandidates};
ghost use Rattle.sc_notices.specs.Telling.{Tells};

use crate::candidates::{Candidates, find_candidates};
use crate::explanation::push_own;
use crate::fields::push_field;
use crate::key_lists::sorted_keys;
use crate::parts::TextParts;
use crate::status::{Status, push_status};
use sc_decimal::push_number;
use sc_papers::{FlatPapers, Key, SchoolNo};
use sc_repair::Clearing;
use std::alloc::{AllocError, Global};
use std::marker::Model;

/// The line above the schools' lines.
pub(crate) const HEADER: &[u8] = b"school,rank,student,class,draw,status\n";

/// Adds the line of a student of this key in a list of a school, at this rank, from 0.
fn push_place(
    text: &mut Vec<u8>,
    status: Status,
    school: SchoolNo,
    rank: usize,
    key: Key,
) -> Result<(), AllocError>
    requires { rank + 1 < 2 ^ 64 }
    ensures { OnOk result (text.new.items ≡ text.old.items ++ place_line status school rank key) }
{
    push_field(text, school.get())?;
    push_number(text, rank as u64 + 1)?;
    text.extend_from_slice(b",")?;
    push_field(text, key.student.get())?;
    push_own(text, key)?;
    push_status(text, status)
}

/// Adds the lines of a list of a school.
fn push_list(
    text: &mut Vec<u8>,
    status: Status,
    school: SchoolNo,
    keys: &[Key],
) -> Result<(), AllocError>
    ensures { OnOk result (text.new.items ≡ text.old.items ++ list_lines status school keys.now) }
{
    for rank in 0..keys.len() {
        push_place(text, status, school, rank, keys[rank])?;
    }
    Ok(())
}

/// Adds the lines of a school of the papers, by the candidates of all schools.
fn push_school(
    text: &mut Vec<u8>,
    alloc: Global,
    papers: &FlatPapers,
    candidates: &Candidates,
    school: SchoolNo,
) -> Result<(), AllocError>
    requires known { is_school papers.now school ≡ true }
    requires admitted { length candidates.now.admitted ≡ length (schools_of papers.now) }
    requires waiting { length candidates.now.waiting ≡ length (schools_of papers.now) }
    // By whichever matching the candidates were found.
    ensures { OnOk result ((a : Matching)
        → AreCandidates papers.now a (students_of papers.now) candidates.now.admitted candidates.now.waiting
        → text.new.items ≡ text.old.items ++ school_lists papers.now a school) }
{
    let Some(position) = papers.school_position(school) else {
        unreachable!()
    };
    let admitted = sorted_keys(alloc, candidates.admitted.at(position))?;
    push_list(text, Status::Admitted, school, admitted.as_slice())?;
    let waiting = sorted_keys(alloc, candidates.waiting.at(position))?;
    push_list(text, Status::Waiting, school, waiting.as_slice())
}

/// The schools of the papers by rising number.
fn rising_schools(alloc: Global, papers: &FlatPapers) -> Result<Vec<SchoolNo>, AllocError>
    ensures { IfOk result (λ schools. schools.items ≡ rising (schools_of papers.now)) }
{
    let mut schools = Vec::with_capacity(alloc, papers.schools_len())?;
    for position in 0..papers.schools_len() {
        let Some(school) = papers.school_at(position) else {
            unreachable!()
        };
        schools.push(school)?;
    }
    schools.sort_unstable();
    Ok(schools)
}

/// The class lists and the waiting lists of schools: which they are, and what their lines are made from.
pub struct Admissions<'a> {
    alloc: Global,
    papers: &'a FlatPapers,
    schools: Vec<SchoolNo>,
    candidates: Candidates,
}

impl Drop for Admissions<'_> {
    fn drop(self) {
        let Admissions {
            alloc: _,
            papers: _,
            schools: _,
            candidates: _,
        } = self;
    }
}

impl<'a> Model for Admissions<'a> {
    ghost use Rattle.sc_notices.specs.Parts.{CanList, ToList};

    ghost Value = { ToList };

    ghost view = { λ l. record {
      papers = l.papers.now;
      schools = l.schools.items;
      admitted = l.candidates.admitted;
      waiting = l.candidates.waiting;
    } };

    ghost invariant = { λ l. CanList (record {
      papers = l.papers.now;
      schools = l.schools.items;
      admitted = l.candidates.admitted;
      waiting = l.candidates.waiting;
    }) };
}

impl<'a> Admissions<'a> {
    ghost use Rattle.std.specs.Prelude.{◌≡◌, ◌++◌, ℕ, List, [], get_or, length, OnOk};
    ghost use Rattle.sc_notices.specs.Parts.{AreListed};

    /// How many schools there are.
    pub(crate) fn count(&self) -> usize
        ensures { result ≡ length self.now.schools }
    {
        self.schools.len()
    }

    /// Adds the lines of a school, by its place from 0, or nothing past the last.
    pub(crate) fn push_part(&self, text: &mut Vec<u8>, at: usize) -> Result<(), AllocError>
        ensures { (parts : List (List ℕ)) → AreListed self.now parts
            → OnOk result (text.new.items ≡ text.old.items ++ get_or parts at []) }
    {
        let Some(school) = self.schools.get(at) else {
            return Ok(());
        };
        push_school(text, self.alloc, self.papers, &self.candidates, *school)
    }
}

/// The class list and the waiting list of each school under the standing assignment: a header, and for each school by
/// rising number a line for each student who has it, `admitted`, and then for each who prefers it to what they have,
/// `waiting`, both by their keys there: by class, then draw, then number. A line has the school, the student's rank in
/// that list, from 1, the student's number, class and draw, and the word. Each part has the lines of one school. The only
/// error is want of memory, which is taken for each of these students. The cost is one pass over the students' choices, and
/// for each part a sort of its lists.
pub fn admission_parts<'a>(
    alloc: Global,
    clearing: &'a Clearing,
) -> Result<TextParts<'a>, AllocError>
    ensures { IfOk result (λ told.
        Tells told (admissions_text clearing.now.standing.papers (matching_of clearing.now.standing))) }
{
    let papers: &FlatPapers = clearing.papers();
    let candidates = find_candidates(alloc, clearing.papers(), clearing.places())?;
    let schools = rising_schools(alloc, papers)?;
    Ok(TextParts::Listed {
        admissions: Admissions {
            alloc,
            papers,
            schools,
            candidates,
        },
    })
}

/// The lines of one school as in `admission_parts`, under the same header, or `None` where the school is not in the
/// papers. The only error is want of memory. The cost is one pass over the students' choices, and a sort of the school's
/// lists.
pub fn admissions_of<'a>(
    alloc: Global,
    clearing: &'a Clearing,
    school: SchoolNo,
) -> Result<Option<TextParts<'a>>, AllocError>
    ensures known { IfOk result (λ found. is_some found ≡ is_school clearing.now.standing.papers school) }
    ensures text { IfOk result (λ found. IfSome found (λ told. Tells told
        (admissions_of clearing.now.standing.papers (matching_of clearing.now.standing) school))) }
{
    let papers: &FlatPapers = clearing.papers();
    if papers.school_position(school).is_none() {
        return Ok(None);
    }
    let candidates = find_candidates(alloc, clearing.papers(), clearing.places())?;
    Ok(Some(TextParts::Listed {
        admissions: Admissions {
            alloc,
            papers,
            schools: Vec::from_slice(alloc, &[school])?,
            candidates,
        },
    }))
}

//! The three files of papers.
ghost use Rattle.std.specs.Prelude.{◌≡◌, IfOk, Ok};
ghost use Rattle.sc_intake.specs.Papers.{papers_in};
ghost use Rattle.sc_export.specs.Files.{lists_text, roster_text, schools_text};

use crate::lists::push_lists;
use crate::roster::push_roster;
use crate::schools::push_schools;
use sc_papers::Papers;
use std::alloc::{AllocError, Global};

/// The texts of the files of an opening.
pub struct PapersFiles {
    /// The file of the schools.
    pub schools: Vec<u8>,
    /// The roster.
    pub roster: Vec<u8>,
    /// The rank-order lists.
    pub lists: Vec<u8>,
}

impl Drop for PapersFiles {
    fn drop(self) {
        let PapersFiles {
            schools: _,
            roster: _,
            lists: _,
        } = self;
    }
}

/// The files of papers: one row a school, and in each of the two others one row a student, all in order of
/// entry; the roster in its longer form where somebody continues at a school. Reading them back under the
/// papers' seed gives the same papers, the orders of entry included.
///
/// The only error is want of memory. The cost is three passes over the students and one over the schools.
pub fn export(alloc: Global, papers: &Papers) -> Result<PapersFiles, AllocError>
    ensures schools { IfOk result (λ files. files.schools.items ≡ schools_text papers.now) }
    ensures roster { IfOk result (λ files. files.roster.items ≡ roster_text papers.now) }
    ensures lists { IfOk result (λ files. files.lists.items ≡ lists_text papers.now) }
    ensures read_back { IfOk result (λ files.
        papers_in papers.now.seed files.schools.items files.roster.items files.lists.items ≡ Ok papers.now) }
{
    // Papers are always well-formed, and this call tells so.
    let _ = papers.students_len();
    let mut schools = Vec::new(alloc);
    push_schools(&mut schools, papers)?;
    let mut roster = Vec::new(alloc);
    push_roster(&mut roster, papers)?;
    let mut lists = Vec::new(alloc);
    push_lists(&mut lists, papers)?;
    Ok(PapersFiles {
        schools,
        roster,
        lists,
    })
}

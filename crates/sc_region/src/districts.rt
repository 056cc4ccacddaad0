//! The districts of the schools, kept beside the papers.

ghost use Rattle.std.specs.Prelude.{◌≡◌, ◌<◌, ◌==◌, ℕ, None, Some, filter, length, not, Contains, IfOk, OnOk};
ghost use Rattle.std.specs.Prelude.{slice_index};
ghost use Rattle.sc_papers.specs.Market.{schools_of, students_of};
ghost use Rattle.sc_papers.specs.Verdict.{after, verdict};
ghost use Rattle.sc_region.specs.Districts.{listed_by, firsts_at, unlisted_by, lists_in, new_first, students_in};
ghost use Rattle.sc_region.specs.Districts.{DistrictsView, AreDistricts, AreSearchedFrom, AreWidened};
ghost use Rattle.sc_region.specs.Groups.{first_choice, position_of, IsAllowedBeside, schools_of_group};
ghost use Rattle.sc_region.specs.Telling.{AreOfRegion, MarkRegion};

use crate::candidates::{
    count_at, few_hold_together, first_few, listed_at, positions_in, schools_of_group,
    spread_positions,
};
use crate::first::First;
use crate::grouping::{first_position_at, groups_among, groups_of, position_of, regroup};
use crate::marks::RegionPositions;
use crate::members::positions_of;
use crate::reach::{first_choice, new_choices, widen};
use sc_papers::{Amendment, FlatPapers, MOST_STUDENTS, StudentNo};
use std::alloc::{AllocError, Global};
use std::marker::Model;

// Where more than one in so many students are listed in the district of an amendment, its region is found by a
// pass over all students, which asks nobody's position by number.
const WIDE: usize = 8;

/// Which schools lie in one district: a set of schools that no student's list leaves. With it come the students
/// of each district, at their first choices. From it the region of an amendment is found in its district alone.
///
/// The districts are those of some papers, and are kept in step with them. They may come to be wider than they
/// need be: lists that have gone leave joined what they joined, until the region of an amendment is looked for there.
pub struct Districts {
    // By the school's position, the number of its district.
    groups: Vec<usize>,
    // Likewise the students whose first choice it is, each with a guess at where they stand.
    firsts: Vec<Vec<First>>,
}

impl Drop for Districts {
    fn drop(self) {
        let Districts {
            groups: _,
            firsts: _,
        } = self;
    }
}

impl Model for Districts {
    ghost Value = { DistrictsView };

    ghost view = { λ d. record { groups = d.groups.items; firsts = lists_in d.firsts.items } };
}

/// So many empty lists.
fn empty_lists(alloc: Global, count: usize) -> Result<Vec<Vec<First>>, AllocError>
    ensures { IfOk result (λ lists. length lists.items ≡ count) }
{
    let mut lists = Vec::with_capacity(alloc, count)?;
    for _i in 0..count {
        lists.push(Vec::new(alloc))?;
    }
    Ok(lists)
}

/// Puts a student into the list of the school at a position.
fn put(firsts: &mut Vec<Vec<First>>, school: usize, first: First) -> Result<(), AllocError>
    requires { school < length firsts.old.items }
    ensures has { OnOk result (Contains (firsts_at (lists_in firsts.new.items) school) first.student) }
    ensures keeps { OnOk result ((p i : ℕ) → Contains (firsts_at (lists_in firsts.old.items) p) i
        → Contains (firsts_at (lists_in firsts.new.items) p) i) }
    ensures one_each { OnOk result (length firsts.new.items ≡ length firsts.old.items) }
{
    firsts[school].push(first)?;
    Ok(())
}

/// For each school, the students whose first choice it is.
fn firsts_of(alloc: Global, papers: &FlatPapers) -> Result<Vec<Vec<First>>, AllocError>
    ensures one_each { IfOk result (λ firsts. length firsts.items ≡ length (schools_of papers.now)) }
    ensures listed { IfOk result (λ firsts. (i : ℕ) → Contains (students_of papers.now) i
        → Contains (firsts_at (lists_in firsts.items) (position_of papers.now (first_choice papers.now i))) i) }
{
    let mut firsts = empty_lists(alloc, papers.schools_len())?;
    for position in 0..papers.students_len() {
        let Some(student) = papers.student_at(position) else {
            unreachable!()
        };
        put(
            &mut firsts,
            first_position_at(papers, position),
            First::new(student, position),
        )?;
    }
    Ok(firsts)
}

/// Takes a student out of a list.
fn strike(list: &mut Vec<First>, student: StudentNo)
    ensures { students_in list.new.items ≡ filter (λ i. not (i == student)) (students_in list.old.items) }
{
    list.retain(|other| other.student != student);
}

/// Takes a student out of the list of the school at a position.
fn take_out(firsts: &mut Vec<Vec<First>>, school: usize, student: StudentNo)
    requires { school < length firsts.old.items }
    ensures others { (p i : ℕ) → (i ≡ student → ⊥) → Contains (firsts_at (lists_in firsts.old.items) p) i
        → Contains (firsts_at (lists_in firsts.new.items) p) i }
    ensures gone { Contains (firsts_at (lists_in firsts.new.items) school) student → ⊥ }
    ensures one_each { length firsts.new.items ≡ length firsts.old.items }
{
    strike(&mut firsts[school], student);
}

/// Who is no longer listed at their first choice, once the amendment is made.
fn unlisted_by(amendment: &Amendment) -> Option<StudentNo>
    ensures { result ≡ unlisted_by amendment.now }
{
    match amendment {
        Amendment::Withdraw { student } | Amendment::Rerank { student, .. } => Some(*student),
        _ => None,
    }
}

/// Who comes to be listed at the first of the amendment's choices.
fn listed_by(amendment: &Amendment) -> Option<StudentNo>
    ensures { result ≡ listed_by amendment.now }
{
    match amendment {
        Amendment::Enter { student, .. } | Amendment::Rerank { student, .. } => Some(*student),
        _ => None,
    }
}

/// Takes out whoever the amendment takes from their first choice.
fn let_leave(firsts: &mut Vec<Vec<First>>, papers: &FlatPapers, amendment: &Amendment)
    requires { IsAllowedBeside papers.now amendment.now firsts.old.items }
    ensures others { (p i : ℕ) → (unlisted_by amendment.now ≡ Some i → ⊥)
        → Contains (firsts_at (lists_in firsts.old.items) p) i → Contains (firsts_at (lists_in firsts.new.items) p) i }
    ensures gone { (i : ℕ) → unlisted_by amendment.now ≡ Some i
        → Contains (firsts_at (lists_in firsts.new.items) (position_of papers.now (first_choice papers.now i))) i → ⊥ }
    ensures one_each { length firsts.new.items ≡ length firsts.old.items }
{
    if let Some(student) = unlisted_by(amendment) {
        take_out(
            firsts,
            position_of(papers, first_choice(papers, student)),
            student,
        );
    }
}

/// Puts whoever comes with new choices into the list of the first of them.
fn let_come(
    firsts: &mut Vec<Vec<First>>,
    papers: &FlatPapers,
    amendment: &Amendment,
) -> Result<(), AllocError>
    requires { IsAllowedBeside papers.now amendment.now firsts.old.items }
    ensures keeps { OnOk result ((p i : ℕ) → Contains (firsts_at (lists_in firsts.old.items) p) i
        → Contains (firsts_at (lists_in firsts.new.items) p) i) }
    ensures moved { OnOk result ((i : ℕ) → listed_by amendment.now ≡ Some i
        → Contains (firsts_at (lists_in firsts.new.items) (position_of papers.now (new_first amendment.now))) i) }
    ensures nobody { OnOk result (listed_by amendment.now ≡ None → firsts.new ≡ firsts.old) }
    ensures one_each { OnOk result (length firsts.new.items ≡ length firsts.old.items) }
{
    if let Some(student) = listed_by(amendment) {
        let first = new_choices(amendment)[0];
        // Who enters comes last, and whoever is in the papers by now stays where they are.
        let position = papers
            .student_position(student)
            .unwrap_or(papers.students_len());
        put(
            firsts,
            position_of(papers, first),
            First::new(student, position),
        )?;
    }
    Ok(())
}

impl Districts {
    /// The districts of the papers. The only error is want of memory.
    ///
    /// The cost is one pass over all choices, by their positions. Memory is taken for each school and each
    /// student.
    pub fn of(alloc: Global, papers: &FlatPapers) -> Result<Self, AllocError>
        ensures { IfOk result (AreDistricts papers.now) }
    {
        let groups = groups_of(alloc, papers)?.into_numbers();
        let firsts = firsts_of(alloc, papers)?;
        // This call tells that the papers are well-formed.
        prove!(papers.students_len() <= MOST_STUDENTS);
        Ok(Districts { groups, firsts })
    }

    /// Makes one district of those that the new choices join, and answers the position of the school to begin with.
    fn widen(&mut self, papers: &FlatPapers, amendment: &Amendment) -> usize
        requires districts { AreDistricts papers.now self.old }
        requires beside { IsAllowedBeside papers.now amendment.now self.old.groups }
        ensures { AreSearchedFrom papers.now amendment.now self.new result }
    {
        // This call tells that the papers are well-formed.
        prove!(papers.students_len() <= MOST_STUDENTS);
        widen(papers, amendment, &mut self.groups)
    }

    /// The positions of the region's students, rising, found among all students, by passes that ask nobody's position by
    /// number. Given are the position of the school to begin with and those of the schools of its district. Where the
    /// lists of a few do not hold the district together, those of all make the groups of the districts anew.
    fn positions_among_all(
        &mut self,
        alloc: Global,
        papers: &FlatPapers,
        amendment: &Amendment,
        start: usize,
        schools: &[usize],
    ) -> Result<Vec<usize>, AllocError>
        requires searched { AreSearchedFrom papers.now amendment.now self.old start }
        requires schools { schools.now ≡ schools_of_group self.old.groups (slice_index self.old.groups start) }
        ensures region { IfOk result (λ positions. AreOfRegion papers.now amendment.now positions.items) }
        ensures widened { AreWidened papers.now amendment.now self.new }
    {
        // This call tells that the papers are well-formed.
        prove!(papers.students_len() <= MOST_STUDENTS);
        let few = spread_positions(alloc, papers)?;
        if few_hold_together(alloc, papers, schools, start, few.as_slice())? {
            let group = self.groups[start];
            let positions = positions_of(alloc, papers, self.groups.as_slice(), group)?;
            return Ok(positions);
        }
        let mut exact = groups_of(alloc, papers)?.into_numbers();
        widen(papers, amendment, &mut exact);
        let positions = positions_of(alloc, papers, exact.as_slice(), exact[start])?;
        self.groups = exact;
        Ok(positions)
    }

    /// The positions of the region's students, rising, found among those who are listed in the district of the school to begin with.
    /// Given are that school's position and those of the schools of its district. Where the lists of a few do not hold
    /// the district together, those of all who are listed in it make its groups anew.
    fn positions_among_listed(
        &mut self,
        alloc: Global,
        papers: &FlatPapers,
        amendment: &Amendment,
        start: usize,
        schools: &[usize],
    ) -> Result<Vec<usize>, AllocError>
        requires searched { AreSearchedFrom papers.now amendment.now self.old start }
        requires schools { schools.now ≡ schools_of_group self.old.groups (slice_index self.old.groups start) }
        ensures region { IfOk result (λ positions. AreOfRegion papers.now amendment.now positions.items) }
        ensures widened { AreWidened papers.now amendment.now self.new }
    {
        let group = self.groups[start];
        let candidates = listed_at(alloc, papers, &self.firsts, schools)?;
        let listed = candidates.as_slice();
        // This call tells that the papers are well-formed.
        prove!(papers.students_len() <= MOST_STUDENTS);
        if few_hold_together(alloc, papers, schools, start, first_few(schools, listed))? {
            let positions = positions_in(alloc, papers, self.groups.as_slice(), group, listed)?;
            return Ok(positions);
        }
        let mut exact = groups_among(alloc, papers, listed)?.into_numbers();
        widen(papers, amendment, &mut exact);
        let positions = positions_in(alloc, papers, exact.as_slice(), exact[start], listed)?;
        regroup(&mut self.groups, group, exact.as_slice());
        Ok(positions)
    }

    /// Brings the students who are listed at their first choices in step with an amendment, before it is made, where the new
    /// choices have widened the districts. Whoever withdraws is listed there no longer, so that the lists do not grow with
    /// those who have gone.
    fn list_anew(self, papers: &FlatPapers, amendment: &Amendment) -> Result<Self, AllocError>
        requires { AreWidened papers.now amendment.now self }
        ensures listed { IfOk result (AreDistricts (after papers.now amendment.now)) }
        ensures gone { IfOk result (λ districts. (i : ℕ) → unlisted_by amendment.now ≡ Some i → listed_by amendment.now ≡ None
            → Contains (firsts_at districts.firsts (position_of papers.now (first_choice papers.now i))) i → ⊥) }
    {
        // This call tells that the papers are well-formed.
        prove!(papers.students_len() <= MOST_STUDENTS);
        let mut districts = self;
        let_leave(&mut districts.firsts, papers, amendment);
        let_come(&mut districts.firsts, papers, amendment)?;
        Ok(districts)
    }

    /// The region of an amendment that is not refused, as `region` tells it, with a mark for each student in order of entry, found in the district of
    /// the amendment alone: that of the amended school or of the amended student's choices. One who enters has no mark. The
    /// districts stay those of the papers, whatever the answer, but those that the new choices join become one, and where no lists hold
    /// the schools of the amendment's district together any more, it comes apart. The only error is want of memory.
    ///
    /// The cost is a look at each of the district's students, with a look-up by number for each who no longer
    /// stands where they stood when they came to be listed, and a sort; two passes over the schools, for each of
    /// which memory is taken, as for each student of the district; and one over the choices of a few of these
    /// students, four for each school of the district. Where those few do not hold the district together, the
    /// choices of all of them are passed over. Then there are a few passes more over the schools, and where the new choices join
    /// districts, one for each that is joined. Where the district has a good part of all students, these passes are over all students.
    pub fn region(
        &mut self,
        alloc: Global,
        papers: &FlatPapers,
        amendment: &Amendment,
    ) -> Result<RegionPositions, AllocError>
        requires districts { AreDistricts papers.now self.old }
        requires allowed { verdict papers.now amendment.now ≡ None }
        ensures region { IfOk result (MarkRegion papers.now amendment.now) }
        ensures widened { AreWidened papers.now amendment.now self.new }
    {
        let start = self.widen(papers, amendment);
        let district = schools_of_group(alloc, self.groups.as_slice(), self.groups[start])?;
        let schools = district.as_slice();
        let students = papers.students_len();
        if count_at(&self.firsts, schools) > students / WIDE {
            let positions = self.positions_among_all(alloc, papers, amendment, start, schools)?;
            return Ok(RegionPositions::at(students, positions));
        }
        let positions = self.positions_among_listed(alloc, papers, amendment, start, schools)?;
        Ok(RegionPositions::at(students, positions))
    }

    /// The region of an amendment that is not refused, as `region` gives it, and the districts in step with it, as `amend` brings them.
    /// The only error is want of memory, with which the districts are given up. The cost is that of both.
    pub fn amend_with_region(
        self,
        alloc: Global,
        papers: &FlatPapers,
        amendment: &Amendment,
    ) -> Result<(Self, RegionPositions), AllocError>
        requires districts { AreDistricts papers.now self }
        requires allowed { verdict papers.now amendment.now ≡ None }
        ensures districts { IfOk result
            (λ (districts, region). AreDistricts (after papers.now amendment.now) districts) }
        ensures region { IfOk result (λ (districts, region). MarkRegion papers.now amendment.now region) }
    {
        let mut widened = self;
        let region = widened.region(alloc, papers, amendment)?;
        let districts = widened.list_anew(papers, amendment)?;
        Ok((districts, region))
    }

    /// The districts in step with an amendment of their papers that is not refused, before it is made: those of the
    /// papers after it. Districts that the new choices join become one. The only error is want of
    /// memory, with which the districts are given up.
    ///
    /// The cost is a look at each of the new choices, one at each student who has the first choice of one who
    /// withdraws or comes with other choices, and a pass over the schools for each district that is joined.
    pub fn amend(self, papers: &FlatPapers, amendment: &Amendment) -> Result<Self, AllocError>
        requires districts { AreDistricts papers.now self }
        requires allowed { verdict papers.now amendment.now ≡ None }
        ensures { IfOk result (AreDistricts (after papers.now amendment.now)) }
    {
        let mut widened = self;
        widened.widen(papers, amendment);
        widened.list_anew(papers, amendment)
    }
}

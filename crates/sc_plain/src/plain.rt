//! The definitions of `specs/` once more, as a slow plain program for tests: it lists every matching
//! of small papers, and finds the stable ones and the student-optimal one by the definitions alone.
use std::alloc::Global;
use std::process::Abort;

/// A school of small papers.
#[derive(Clone, Copy)]
pub struct School {
    pub number: u32,
    pub zone: u32,
    pub seats: usize,
}

/// A student of small papers, with the lottery's draw.
#[derive(Clone, Copy)]
pub struct Student<'a> {
    pub number: u32,
    pub draw: u64,
    pub zone: u32,
    pub siblings: &'a [u32],
    pub choices: &'a [u32],
    pub continuing: Option<u32>,
}

/// Small papers, the students in order of entry.
#[derive(Clone, Copy)]
pub struct Market<'a> {
    pub schools: &'a [School],
    pub students: &'a [Student<'a>],
}

/// What each student has, in order of entry.
pub type Matching = Vec<Option<u32>>;

impl Student<'_> {
    /// The place of a school among the choices.
    fn place(&self, school: u32) -> Option<usize> {
        self.choices.iter().position(|choice| *choice == school)
    }

    /// The priority class at a school.
    fn class(&self, school: &School) -> u8 {
        if self.continuing == Some(school.number) {
            return 0;
        }
        let sibling = self.siblings.contains(&school.number);
        let zone = self.zone != 0 && self.zone == school.zone;
        match (sibling, zone) {
            (true, true) => 1,
            (true, false) => 2,
            (false, true) => 3,
            (false, false) => 4,
        }
    }

    /// Whether this student is ahead of another at a school.
    fn is_ahead(&self, other: &Student, school: &School) -> bool {
        (self.class(school), self.draw, self.number)
            < (other.class(school), other.draw, other.number)
    }

    /// Whether this student prefers a school to what is given.
    fn prefers(&self, school: u32, given: Option<u32>) -> bool {
        match (self.place(school), given) {
            (None, _) => false,
            (Some(_), None) => true,
            (Some(at), Some(other)) => match self.place(other) {
                None => false,
                Some(later) => at < later,
            },
        }
    }

    /// The first choice that has not rejected this student.
    fn next_choice(&self, log: &[(u32, u32)]) -> Option<u32> {
        self.choices
            .iter()
            .find(|choice| !log.contains(&(self.number, **choice)))
            .copied()
    }
}

/// How many students have a school.
fn held(matching: &[Option<u32>], school: u32) -> usize {
    matching.iter().filter(|has| **has == Some(school)).count()
}

impl Market<'_> {
    /// Whether a student, who has `has`, blocks a matching with a school.
    fn blocks(
        &self,
        matching: &[Option<u32>],
        student: &Student,
        has: Option<u32>,
        school: &School,
    ) -> bool {
        student.prefers(school.number, has)
            && (held(matching, school.number) < school.seats
                || self.students.iter().zip(matching).any(|(other, given)| {
                    *given == Some(school.number) && student.is_ahead(other, school)
                }))
    }

    /// The first of a student's choices with which the student, who has `has`, blocks a matching.
    fn earliest_block(
        &self,
        matching: &[Option<u32>],
        student: &Student,
        has: Option<u32>,
    ) -> Option<u32> {
        for choice in student.choices {
            for school in self.schools {
                if school.number == *choice && self.blocks(matching, student, has, school) {
                    return Some(*choice);
                }
            }
        }
        None
    }

    /// The student of the least number who blocks a matching, and the first choice with which that
    /// student does.
    pub fn first_block(&self, matching: &[Option<u32>]) -> Option<(u32, u32)> {
        let mut first: Option<(u32, u32)> = None;
        for (student, has) in self.students.iter().zip(matching) {
            let is_less = first.is_none_or(|(number, _)| student.number < number);
            if is_less {
                if let Some(school) = self.earliest_block(matching, student, *has) {
                    first = Some((student.number, school));
                }
            }
        }
        first
    }

    /// The least number of a school that is over its seats.
    pub fn first_over(&self, matching: &[Option<u32>]) -> Option<u32> {
        let mut first: Option<u32> = None;
        for school in self.schools {
            let is_less = first.is_none_or(|number| school.number < number);
            if is_less && held(matching, school.number) > school.seats {
                first = Some(school.number);
            }
        }
        first
    }

    /// Whether each pair is of a student of the papers and of a school that the student lists.
    pub fn is_matching(&self, pairs: &[(u32, u32)]) -> bool {
        pairs.iter().all(|(number, school)| {
            self.students.iter().any(|student| student.number == *number
                && student.place(*school).is_some())
        })
    }

    /// What pairs of a student and a school give each student.
    pub fn matching_of_pairs(
        &self,
        rt: &impl Abort,
        alloc: Global,
        pairs: &[(u32, u32)],
    ) -> Matching {
        let mut matching = Vec::new(alloc);
        for student in self.students {
            let pair = pairs.iter().find(|pair| pair.0 == student.number);
            matching.push(pair.map(|pair| pair.1)).expect(rt, "memory");
        }
        matching
    }

    /// Whether each school is within its seats.
    fn is_within_seats(&self, matching: &[Option<u32>]) -> bool {
        self.schools
            .iter()
            .all(|school| held(matching, school.number) <= school.seats)
    }

    /// Whether a matching is stable.
    pub fn is_stable(&self, matching: &[Option<u32>]) -> bool {
        self.is_within_seats(matching)
            && self.students.iter().zip(matching).all(|(student, has)| match has {
                None => true,
                Some(school) => student.place(*school).is_some(),
            })
            && !self.students.iter().zip(matching).any(|(student, has)| {
                self.schools
                    .iter()
                    .any(|school| self.blocks(matching, student, *has, school))
            })
    }

    /// Every matching of the papers, within seats or not.
    pub fn matchings(&self, rt: &impl Abort, alloc: Global) -> Vec<Matching> {
        let mut all = Vec::new(alloc);
        all.push(Vec::new(alloc)).ok().expect(rt, "memory");
        for student in self.students {
            all = with_student(rt, alloc, &all, student);
        }
        all
    }

    /// Every stable matching of the papers.
    pub fn stable_matchings(&self, rt: &impl Abort, alloc: Global) -> Vec<Matching> {
        let mut stable = Vec::new(alloc);
        for matching in self.matchings(rt, alloc) {
            if self.is_stable(&matching) {
                stable.push(matching).ok().expect(rt, "memory");
            }
        }
        stable
    }

    /// Whether no student prefers what one of the stable matchings gives.
    pub fn is_best(&self, matching: &[Option<u32>], stable: &[Matching]) -> bool {
        stable.iter().all(|other| {
            self.students.iter().zip(matching).zip(other).all(|(
                (student, has),
                given,
            )| match given {
                None => true,
                Some(school) => !student.prefers(*school, *has),
            })
        })
    }

    /// Whether an entry is valid after a log.
    fn is_valid_entry(&self, log: &[(u32, u32)], entry: (u32, u32)) -> bool {
        let student = self
            .students
            .iter()
            .find(|student| student.number == entry.0);
        let school = self.schools.iter().find(|school| school.number == entry.1);
        match (student, school) {
            (Some(student), Some(school)) => {
                student.next_choice(log) == Some(school.number)
                    && school.seats
                        <= self
                            .students
                            .iter()
                            .filter(|other| {
                                other.next_choice(log) == Some(school.number)
                                    && other.is_ahead(student, school)
                            })
                            .count()
            }
            _ => false,
        }
    }

    /// The place of the first entry that is not valid.
    pub fn first_bad_entry(&self, log: &[(u32, u32)]) -> Option<usize> {
        for (at, entry) in log.iter().enumerate() {
            if !self.is_valid_entry(&log[..at], *entry) {
                return Some(at);
            }
        }
        None
    }

    /// What a log gives each student.
    pub fn matching_of(&self, rt: &impl Abort, alloc: Global, log: &[(u32, u32)]) -> Matching {
        let mut matching = Vec::new(alloc);
        for student in self.students {
            matching.push(student.next_choice(log)).expect(rt, "memory");
        }
        matching
    }

    /// Whether a log is settled.
    pub fn is_settled(&self, rt: &impl Abort, alloc: Global, log: &[(u32, u32)]) -> bool {
        self.first_bad_entry(log).is_none()
            && self.is_within_seats(&self.matching_of(rt, alloc, log))
    }
}

/// A matching of one more student.
fn with_one(
    rt: &impl Abort,
    alloc: Global,
    matching: &[Option<u32>],
    has: Option<u32>,
) -> Matching {
    let mut longer = Vec::from_slice(alloc, matching).expect(rt, "memory");
    longer.push(has).expect(rt, "memory");
    longer
}

/// The matchings of one more student, who has nothing or any of the choices.
fn with_student(
    rt: &impl Abort,
    alloc: Global,
    matchings: &[Matching],
    student: &Student,
) -> Vec<Matching> {
    let mut longer = Vec::new(alloc);
    for matching in matchings {
        add_matching(rt, &mut longer, with_one(rt, alloc, matching, None));
        for school in student.choices {
            add_matching(
                rt,
                &mut longer,
                with_one(rt, alloc, matching, Some(*school)),
            );
        }
    }
    longer
}

fn add_matching(rt: &impl Abort, matchings: &mut Vec<Matching>, matching: Matching) {
    matchings.push(matching).ok().expect(rt, "memory");
}

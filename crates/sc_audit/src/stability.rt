use sc_papers::{SchoolNo, StudentNo};

/// What a check of an assignment finds: the first thing that is wrong with it, or that it is stable.
#[derive(Clone, Copy, Debug, PartialEq, Eq)]
pub enum Stability {
    /// Somebody who is not in the papers has a school, or a student has one that they do not list.
    NotAMatching,
    /// More students have this school than it has seats. No school of a lesser number is over its
    /// seats.
    OverSeats {
        school: SchoolNo,
    },
    /// The student prefers the school to what they have, and the school has a free seat or the student is
    /// ahead there of somebody who has it. No student of a lesser number blocks, and this one with no
    /// choice before this school.
    Blocked {
        student: StudentNo,
        school: SchoolNo,
    },
    /// Stable, in the sense of Gale and Shapley (1962): a matching within the seats that no student and
    /// school block.
    Stable,
}

//! How many students have their first choice, their second and so on.
ghost use Rattle.std.specs.Prelude.{◌≡◌, ℕ, ◌+◌, ◌<◌, ◌≤◌, nat_eq, cond, is_none, length, position, slice_index, take, Some};
ghost use Rattle.std.specs.Option.{option_eq};
ghost use Rattle.sc_papers.specs.Assignment.{assigned};
ghost use Rattle.sc_papers.specs.Market.{students_of};
ghost use Rattle.sc_notices.specs.Counting.{AreRankCounts};
ghost use Rattle.sc_notices.specs.Summary.{rank_in};

use sc_papers::{Assignment, LONGEST_LIST, MOST_STUDENTS, Papers, SchoolNo};

/// How many students have their choice of each rank, from 0, and how many have no school.
#[derive(Clone, Copy)]
pub(crate) struct RankCounts {
    pub by_rank: [u32; LONGEST_LIST],
    pub unplaced: u32,
}

/// The rank of a school among choices, from 0, where it is one of them.
pub(crate) fn rank_among(choices: &[SchoolNo], school: SchoolNo) -> Option<usize>
    ensures { result ≡ position (nat_eq school) choices.now }
{
    choices.iter().position(|choice| school == *choice)
}

/// Counts a student with these choices and this school.
fn count_place(counts: &mut RankCounts, choices: &[SchoolNo], held: Option<SchoolNo>)
    requires short { length choices.now ≤ LONGEST_LIST }
    requires few_placed { (rank : ℕ) → rank < LONGEST_LIST → slice_index counts.old.by_rank rank < MOST_STUDENTS }
    requires few_unplaced { counts.old.unplaced < MOST_STUDENTS }
    ensures by_rank { (rank : ℕ) → rank < LONGEST_LIST → slice_index counts.new.by_rank rank
        ≡ slice_index counts.old.by_rank rank + cond (option_eq nat_eq (rank_in choices.now held) (Some rank)) 1 0 }
    ensures unplaced { counts.new.unplaced ≡ counts.old.unplaced + cond (is_none held) 1 0 }
{
    match held {
        Some(school) => {
            if let Some(rank) = rank_among(choices, school) {
                counts.by_rank[rank] += 1;
            }
        }
        None => counts.unplaced += 1,
    }
}

/// How many students have their choice of each rank, and how many have no school. One pass over the students.
pub(crate) fn rank_counts(papers: &Papers, places: &Assignment) -> RankCounts
    ensures { AreRankCounts papers.now (assigned places.now) (students_of papers.now) result }
{
    let mut counts = RankCounts {
        by_rank: [0; LONGEST_LIST],
        unplaced: 0,
    };
    // Mostly the pairs stand in the students' order.
    let mut guess: usize = 0;
    for position in 0..papers.students_len() {
        let Some(student) = papers.student_at(position) else {
            unreachable!()
        };
        let held = places.get_near(student, guess);
        count_place(&mut counts, papers.choices_at(position), held);
        guess = guess.saturating_add(usize::from(held.is_some()));
    }
    counts
}

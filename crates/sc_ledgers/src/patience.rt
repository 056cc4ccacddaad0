//! How long a sweep goes on before it is given up.

use crate::ledger::Ledger;
use sc_papers::FlatPapers;

/// What a question costs beside the labels that are counted for it, in labels.
const QUESTION: usize = 4_500;

/// What two settlings from scratch cost for each student, in labels.
const STUDENT: usize = 10_000;

/// So many questions may be put in any market: a small one is never settled from scratch for their sake.
const FEW: usize = 1_000;

/// One question for so many students is asked before anybody looks how long the ledgers are.
const STUDENTS: usize = 64;

/// About how many questions a sweep has put to the schools, and how many it may: then it has cost twice as much as a settling from
/// scratch. Questions are counted times the schools, so that a part of one counts too.
///
/// No call here promises anything, and none has a clause: a sweep that is given up too soon, or too late, costs time and
/// nothing else.
#[derive(Drop)]
pub(crate) struct Patience {
    asked: usize,
    most: usize,
}

/// How many labels a school has in the mean.
fn mean_len(ledgers: &[Ledger]) -> usize {
    let mut labels = 0_usize;
    for ledger in ledgers {
        labels = labels.saturating_add(ledger.len());
    }
    labels / ledgers.len().max(1)
}

/// How many questions cost twice as much as a settling from scratch, times the schools.
fn most_asked(papers: &FlatPapers, ledgers: &[Ledger]) -> usize {
    let scratch = papers.students_len().saturating_mul(STUDENT);
    let question = mean_len(ledgers).saturating_add(QUESTION);
    let most = (scratch / question.max(1)).max(FEW);
    most.saturating_mul(papers.schools_len())
}

impl Patience {
    /// Nothing was asked.
    pub(crate) fn new(papers: &FlatPapers) -> Self {
        let few = papers.students_len() / STUDENTS;
        let most = few.saturating_mul(papers.schools_len());
        Patience { asked: 0, most }
    }

    /// Whether there were too many, now that the ledgers are looked at.
    fn is_past(&mut self, papers: &FlatPapers, ledgers: &[Ledger]) -> bool {
        self.most = most_asked(papers, ledgers);
        self.asked > self.most
    }

    /// So many questions more, times the schools. Whether there were too many.
    ///
    /// It is taken into the loop over the turns, most of which ask nothing.
    #[inline(always)]
    pub(crate) fn is_over(
        &mut self,
        asked: usize,
        papers: &FlatPapers,
        ledgers: &[Ledger],
    ) -> bool {
        self.asked = self.asked.saturating_add(asked);
        self.asked > self.most && self.is_past(papers, ledgers)
    }
}

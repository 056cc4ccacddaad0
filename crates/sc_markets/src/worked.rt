//! The worked markets. Their settlings are known, and stand in the tests.

use crate::readings::papers;
use sc_intake::IntakeFault;
use sc_papers::Papers;
use std::alloc::Global;

/// The rows of the three files of a market.
#[derive(Clone, Copy)]
pub struct Files<'a> {
    pub schools: &'a str,
    pub students: &'a str,
    pub lists: &'a str,
}

impl Files<'_> {
    /// The papers of these rows, as `papers` reads them.
    pub fn papers(&self, alloc: Global) -> Result<Papers, IntakeFault> {
        papers(alloc, self.schools, self.students, self.lists)
    }
}

/// Market A: schools 10 and 20 with a seat each, both in no zone, and two students, each with a sibling
/// where the other wants to go.
pub const MARKET_A: Files<'static> = Files {
    schools: SCHOOLS_A,
    students: STUDENTS_A,
    lists: LISTS_A,
};

/// The schools' rows of Market A.
pub const SCHOOLS_A: &str = "10,0,1\n20,0,1\n";

/// The students' rows of Markets A and B.
pub const STUDENTS_A: &str = "1,0,20\n2,0,10\n";

/// The lists' rows of Markets A and B.
pub const LISTS_A: &str = "1,10 20\n2,20 10\n";

/// Market B: Market A with school 10 in zone 1.
pub const MARKET_B: Files<'static> = Files {
    schools: SCHOOLS_B,
    students: STUDENTS_A,
    lists: LISTS_A,
};

/// The schools' rows of Market B.
pub const SCHOOLS_B: &str = "10,1,1\n20,0,1\n";

/// Market B after its newcomer, student 3, who puts out student 1, who puts out student 2.
pub const MARKET_B_AND_NEWCOMER: Files<'static> = Files {
    schools: SCHOOLS_B,
    students: "1,0,20\n2,0,10\n3,1,10\n",
    lists: "1,10 20\n2,20 10\n3,10\n",
};

/// Market B with its student 2 continuing at school 10.
pub const MARKET_B_CONTINUING: Files<'static> = Files {
    schools: SCHOOLS_B,
    students: "1,0,20,\n2,0,10,10\n",
    lists: LISTS_A,
};

/// The market in which a correction of student 1 rewinds to the start.
pub const FIVE_STUDENTS: Files<'static> = Files {
    schools: "10,1,1\n20,0,2\n",
    students: "1,1,\n2,0,\n3,0,\n4,0,\n5,0,\n",
    lists: "1,10 20\n2,10 20\n3,20\n4,20 10\n5,20\n",
};

/// One seat, two students.
pub const TWO_STUDENTS: Files<'static> = Files {
    schools: "1,0,1\n",
    students: "1,0,\n2,0,\n",
    lists: "1,1\n2,1\n",
};

/// The papers of Market A.
pub fn market_a(alloc: Global) -> Result<Papers, IntakeFault> {
    MARKET_A.papers(alloc)
}

/// The papers of Market B.
pub fn market_b(alloc: Global) -> Result<Papers, IntakeFault> {
    MARKET_B.papers(alloc)
}

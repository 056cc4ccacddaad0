//! Ranks in the lottery.
ghost use Rattle.std.specs.Prelude.{◌≡◌, ℕ, ◌+◌, ◌<◌, ◌≤◌, length, map, IfOk};
ghost use Rattle.sc_papers.specs.Market.{Market, student_at, students_of};
ghost use Rattle.sc_papers.specs.Matching.{Matching};
ghost use Rattle.sc_papers.specs.WellFormed.{WellFormed};
ghost use Rattle.sc_reasons.specs.Cutoff.{cutoff as cutoff_of, rows_in_order};
ghost use Rattle.sc_seats.specs.Roll.{in_order};
ghost use Rattle.sc_notices.specs.Lottery.{cutoff_rank, lottery_rank, ticket_of};

use sc_papers::{FlatPapers, Key, MOST_STUDENTS};
use sc_report::{Cutoff, CutoffRow};
use std::alloc::{AllocError, Global};

/// A student's ticket in the lottery, by their key at a school: the key that they would have if all were of one class.
fn ticket_of(key: Key) -> Key
    ensures class { result.class ≡ 0 }
    ensures draw { result.draw ≡ key.draw }
    ensures student { result.student ≡ key.student }
{
    Key { class: 0, ..key }
}

/// The ticket of the student at a position of the order of entry.
pub(crate) fn ticket_at(papers: &FlatPapers, position: usize) -> Key
    requires { position < length papers.now.students }
    ensures { result ≡ ticket_of papers.now (student_at papers.now position) }
{
    let Some(student) = papers.student_at(position) else {
        unreachable!()
    };
    let Some(draw) = papers.draw_at(position) else {
        unreachable!()
    };
    Key {
        class: 0,
        draw,
        student,
    }
}

/// The tickets of all students, best first. The only error is want of memory. The cost is a sort of them.
fn tickets(alloc: Global, papers: &FlatPapers) -> Result<Vec<Key>, AllocError>
    ensures { IfOk result (λ tickets. tickets.items ≡ in_order (map (ticket_of papers.now) (students_of papers.now))) }
{
    let mut tickets = Vec::with_capacity(alloc, papers.students_len())?;
    for position in 0..papers.students_len() {
        tickets.push(ticket_at(papers, position))?;
    }
    tickets.sort_unstable();
    Ok(tickets)
}

/// How many tickets of all students, which are given best first, are ahead of one.
fn place_among(tickets: &[Key], ticket: &Key) -> usize
    ensures ahead { (m : Market) (i : ℕ) → WellFormed m → tickets.now ≡ in_order (map (ticket_of m) (students_of m))
        → ticket.now ≡ ticket_of m i → result + 1 ≡ lottery_rank m i }
    ensures within { result ≤ length tickets.now }
{
    match tickets.binary_search(ticket) {
        Ok(place) => place,
        Err(place) => place,
    }
}

/// The rank of a ticket, from 1, by a search among those of all students, which are given best first.
fn searched_rank(tickets: &[Key], ticket: &Key) -> u32
    requires { length tickets.now ≤ MOST_STUDENTS }
    // By whichever papers the tickets were made.
    ensures { (m : Market) (i : ℕ) → WellFormed m → tickets.now ≡ in_order (map (ticket_of m) (students_of m))
        → ticket.now ≡ ticket_of m i → result ≡ lottery_rank m i }
{
    place_among(tickets, ticket) as u32 + 1
}

/// The rank of a ticket, from 1, by those of all students of the papers, which are given best first.
fn rank_of(papers: &FlatPapers, tickets: &[Key], ticket: &Key) -> u32
    requires { tickets.now ≡ in_order (map (ticket_of papers.now) (students_of papers.now)) }
    ensures { (i : ℕ) → ticket.now ≡ ticket_of papers.now i → result ≡ lottery_rank papers.now i }
{
    // This call tells that the papers are well-formed and within their limits.
    prove!(papers.students_len() <= MOST_STUDENTS);
    searched_rank(tickets, ticket)
}

/// The rank of the student of a cutoff, from 1, if it has one.
fn cutoff_rank(papers: &FlatPapers, tickets: &[Key], cutoff: Cutoff) -> Option<u32>
    requires { tickets.now ≡ in_order (map (ticket_of papers.now) (students_of papers.now)) }
    ensures { (a : Matching) (s : ℕ) → cutoff ≡ cutoff_of papers.now a s → result ≡ cutoff_rank papers.now cutoff }
{
    match cutoff {
        Cutoff::Full { key } => Some(rank_of(papers, tickets, &ticket_of(key))),
        Cutoff::Closed | Cutoff::Free => None,
    }
}

/// The ranks of the students of rows' cutoffs, in their order.
fn cutoff_ranks(
    alloc: Global,
    papers: &FlatPapers,
    tickets: &[Key],
    rows: &[CutoffRow],
) -> Result<Vec<Option<u32>>, AllocError>
    requires { tickets.now ≡ in_order (map (ticket_of papers.now) (students_of papers.now)) }
    ensures count { IfOk result (λ ranks. length ranks.items ≡ length rows.now) }
    // By whichever matching the rows were made.
    ensures ranks { IfOk result (λ ranks. (a : Matching) → rows.now ≡ rows_in_order papers.now a
        → ranks.items ≡ map (λ row. cutoff_rank papers.now row.cutoff) rows.now) }
{
    let mut ranks = Vec::with_capacity(alloc, rows.len())?;
    for row in rows {
        ranks.push(cutoff_rank(papers, tickets, row.cutoff))?;
    }
    Ok(ranks)
}

/// The ranks in the lottery: of the students, by their tickets, which stand best first, and of the student of each school's
/// cutoff, by the school's position in the order of entry.
pub(crate) struct Lottery {
    tickets: Vec<Key>,
    of_cutoffs: Vec<Option<u32>>,
}

impl Drop for Lottery {
    fn drop(self) {
        let Lottery {
            tickets: _,
            of_cutoffs: _,
        } = self;
    }
}

impl Lottery {
    ghost use Rattle.std.specs.Prelude.{◌≡◌, ℕ, ◌<◌, get_or, length, IfOk};
    ghost use Rattle.sc_notices.specs.Lottery.{lottery_rank, ticket_of};
    ghost use Rattle.sc_notices.specs.Tickets.{IsLotteryOf};

    /// The ranks by the rows of all schools in order of entry. The only error is want of memory. The cost is a sort of the
    /// students' tickets, and a search among them for each school.
    pub(crate) fn new(
        alloc: Global,
        papers: &FlatPapers,
        rows: &[CutoffRow],
    ) -> Result<Self, AllocError>
        ensures { IfOk result (IsLotteryOf papers.now rows.now) }
    {
        let tickets = tickets(alloc, papers)?;
        let of_cutoffs = cutoff_ranks(alloc, papers, tickets.as_slice(), rows)?;
        Ok(Lottery {
            tickets,
            of_cutoffs,
        })
    }

    /// The rank of a student's ticket, from 1, by a search.
    pub(crate) fn rank_of(&self, papers: &FlatPapers, rows: &[CutoffRow], ticket: &Key) -> u32
        requires { IsLotteryOf papers.now rows.now self.now }
        ensures { (i : ℕ) → ticket.now ≡ ticket_of papers.now i → result ≡ lottery_rank papers.now i }
    {
        rank_of(papers, self.tickets.as_slice(), ticket)
    }

    /// The rank of the student of the cutoff of the school at a position of the order of entry, from 1, if it has one.
    pub(crate) fn cutoff_rank_at(&self, position: usize) -> Option<u32>
        requires { position < length self.now.of_cutoffs.items }
        ensures { result ≡ get_or self.now.of_cutoffs.items position result }
    {
        self.of_cutoffs[position]
    }
}

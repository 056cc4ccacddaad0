//! A newcomer's chain, by the ledgers of all others.

ghost use Rattle.std.specs.Prelude.{◌≡◌, ◌+◌, List, OnErr, OnOk, length};
ghost use Rattle.sc_papers.specs.Restriction.{cut};
ghost use Rattle.sc_papers.specs.declared.rejection.Rejection.{Rejection};
ghost use Rattle.sc_checkpoint.specs.Chains.{logs_in, with_chain};
ghost use Rattle.sc_repair.specs.Anew.{AreLedgersOf, HavePlaces};

use crate::places::Places;
use crate::replacing::{move_all, place_new};
use sc_checkpoint::Segments;
use sc_ledgers::{Ledgers, Stances, enter_last};
use sc_papers::{FlatPapers, MOST_STUDENTS, StudentNo};
use std::alloc::{AllocError, Global};

/// Enters a newcomer, as the last student of the papers, after those of the segments: their chain runs by the ledgers, the newcomer and
/// whomever the chain moves are given the places at which they stand then, and the chain is put at the end of the segments. The only error
/// is want of memory, which changes neither places nor segments; the ledgers are then to be given up.
///
/// The cost is an offer for each proposal of the chain.
pub(crate) fn enter_newcomer(
    alloc: Global,
    ledgers: &mut Ledgers,
    papers: &FlatPapers,
    student: StudentNo,
    places: &mut Places,
    segments: &mut Segments,
) -> Result<(), AllocError>
    requires last { length papers.now.students ≡ length segments.old + 1 }
    requires placed { HavePlaces (cut papers.now (length segments.old)) (logs_in segments.old) places.old }
    requires ledgers { AreLedgersOf (cut papers.now (length segments.old)) (logs_in segments.old) ledgers.old }
    ensures ledgers { OnOk result (AreLedgersOf papers.now (logs_in segments.new) ledgers.new) }
    ensures pushed { OnOk result ((chain : List Rejection) × (segments.new ≡ with_chain segments.old student chain)) }
    ensures placed { OnOk result (HavePlaces papers.now (logs_in segments.new) places.new) }
    ensures unchanged { OnErr result ((places.new ≡ places.old) × (segments.new ≡ segments.old)) }
{
    // This call tells that the papers are well-formed.
    prove!(papers.students_len() <= MOST_STUDENTS);
    let position = segments.len();
    let mut stances = Stances::new(alloc);
    let mut chain = Vec::new(alloc);
    enter_last(papers, ledgers, &mut stances, position, &mut chain)?;
    let before = places.len();
    let moved = stances.as_slice();
    place_new(papers, moved, places)?;
    if let Err(refused) = segments.push(student, chain.as_slice()) {
        places.truncate(before);
        return Err(refused);
    }
    move_all(papers, moved, places);
    Ok(())
}

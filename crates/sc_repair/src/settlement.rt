//! The papers settled: the standing assignment under them, and what it takes to keep it so.

mod afresh;
mod amend;
mod change;
mod newcomer;
mod withdraw;

use crate::places::Places;
use sc_checkpoint::Segments;
use sc_ledgers::Ledgers;
use sc_papers::Papers;
use sc_region::Districts;
use std::alloc::Global;
use std::marker::Model;

/// The papers and the standing assignment under them, with the log of rejections that certifies it, in
/// segments, one for each student in order of entry: of every settlement, the standing assignment is the
/// student-optimal stable matching of its papers. It knows no stamps: a `Clearing` keeps them beside it.
pub(crate) struct Settlement {
    pub(crate) alloc: Global,
    pub(crate) papers: Papers,
    pub(crate) places: Places,
    pub(crate) segments: Segments,
    pub(crate) proposals: u64,
    // Where there are some, the ledgers of the log, by which an amendment takes turns anew and a newcomer enters. They are lost where a
    // growth is refused, and opened when they are wanted.
    pub(crate) ledgers: Option<Ledgers>,
    // Where there are some, the districts of the papers, from which the region of an amendment is found: they are
    // kept from amendment to amendment, and made again when they are wanted.
    pub(crate) districts: Option<Districts>,
    // How many amendments are yet to be settled from scratch, since a sweep by the ledgers was given up.
    pub(crate) rest: u32,
}

impl Drop for Settlement {
    fn drop(self) {
        let Settlement {
            alloc: _,
            papers: _,
            places: _,
            segments: _,
            proposals: _,
            ledgers: _,
            districts: _,
            rest: _,
        } = self;
    }
}

impl Model for Settlement {
    ghost use Rattle.sc_repair.specs.Standing.{Standing};

    ghost Value = { Standing };

    ghost use Rattle.sc_repair.specs.Representation.{standing_of, IsSound};

    ghost view = { standing_of };

    ghost invariant = { IsSound };
}

//! A script's records, one at a time.

use crate::fault::{IntakeFault, Source};
use crate::input::records_in;
use crate::records::Records;
use crate::script::stamped_in;
use sc_papers::{Refusal, Stamped};
use std::alloc::{AllocError, Global};
use std::marker::Model;

/// The records of a script that are yet to be read, each a stamped amendment or `Shape`. They are read from the text
/// one at a time, so that the memory does not grow with the script.
#[derive(Drop)]
pub struct ScriptRecords<'a> {
    alloc: Global,
    records: Records<'a>,
}

impl<'a> Model for ScriptRecords<'a> {
    ghost use Rattle.std.specs.Prelude.{List, map, Result as Reading};
    ghost use Rattle.sc_papers.specs.declared.amendment.Refusal.{Refusal as Refused};
    ghost use Rattle.sc_papers.specs.declared.amendment.Stamped.{Stamped as Amended};
    ghost use Rattle.sc_intake.specs.Script.{stamped_in};

    ghost Value = { List (Reading Amended Refused) };

    ghost view = { λ s. map stamped_in s.records.left };
}

impl<'a> ScriptRecords<'a> {
    ghost use Rattle.std.specs.Prelude.{◌≡◌, ◌≤◌, ◌+◌, [], ◌∷◌, length, IfOk, MatchOption, MatchResult, OnErr, Ok, Err};
    ghost use Rattle.sc_intake.specs.Script.{script_in};
    ghost use Rattle.sc_intake.specs.declared.input.TheConstants.{MOST_BYTES};

    /// The records of a script, which has no header; none is read yet.
    ///
    /// The fault is `TooLong` of row 0 where the script is longer than 64 MiB, and `Header` of row 1 where a second
    /// byte order mark follows the first.
    pub fn open(alloc: Global, bytes: &'a [u8]) -> Result<Self, IntakeFault>
        ensures script { MatchResult result (λ records. script_in bytes.now ≡ Ok records)
            (λ fault. script_in bytes.now ≡ Err fault) }
        ensures bounded { IfOk result (λ records. length records ≤ MOST_BYTES + 1) }
    {
        let records = records_in(alloc, Source::Script, bytes)?;
        Ok(ScriptRecords { alloc, records })
    }

    /// The next record, or `None` where there is none left. The only error is want of memory, after which no record is
    /// left: nobody goes on with a script of which a record was lost.
    ///
    /// The cost is the length of the record, and the memory that of its amendment.
    pub fn next_record(&mut self) -> Result<Option<Result<Stamped, Refusal>>, AllocError>
        ensures next { IfOk result (λ found. MatchOption found (self.old ≡ []) (λ entry. self.old ≡ entry ∷ self.new)) }
        ensures ended { OnErr result (self.new ≡ []) }
    {
        let found = self.read_next();
        if found.is_err() {
            self.records = Records::none();
        }
        found
    }

    /// Does what `next_record` does, but for what an error leaves.
    fn read_next(&mut self) -> Result<Option<Result<Stamped, Refusal>>, AllocError>
        ensures { IfOk result (λ found. MatchOption found (self.old ≡ []) (λ entry. self.old ≡ entry ∷ self.new)) }
    {
        match self.records.advance(Source::Script) {
            Ok(true) => Ok(Some(stamped_in(self.alloc, &self.records)?)),
            Ok(false) => Ok(None),
            Err(_) => Err(AllocError),
        }
    }
}

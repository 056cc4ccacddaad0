//! The inputs of a call, and reading each of them whole.

ghost use Rattle.std.specs.Prelude.{◌≡◌, ◌++◌, ◌∷◌, [], All, IfErr, IfOk, is_some};
ghost use Rattle.sc_steps.specs.Inputs.{in_order, opening_turns, turn_of, turns_if_any, turns_with, AreRead, EndsAmong, EndsReading, IsRead, IsReadIfAny, TakesWithin};
ghost use Rattle.sc_steps.specs.Steps.{texts_of};

use crate::fault::RunFault;
use sc_intake::{Cause, IntakeFault, MOST_BYTES, Source};
use sc_report::{ReadFault, Watched, read_whole};
use std::alloc::Global;
use std::io::Read;

/// The files from which papers are opened.
#[derive(Drop)]
pub struct Opening<R> {
    pub schools: Watched<R>,
    pub roster: Watched<R>,
    pub lists: Watched<R>,
}

/// The texts of an opening's files, each read whole.
pub struct OpeningTexts {
    pub schools: Vec<u8>,
    pub roster: Vec<u8>,
    pub lists: Vec<u8>,
}

impl Drop for OpeningTexts {
    fn drop(self) {
        let OpeningTexts {
            schools: _,
            roster: _,
            lists: _,
        } = self;
    }
}

/// The texts of a call's inputs, each read whole: the files of an opening, and the input after them.
#[derive(Drop)]
pub struct InputTexts {
    pub opening: OpeningTexts,
    pub last: Vec<u8>,
}

/// The texts of an opening's files, lent.
#[derive(Clone, Copy)]
pub struct OpeningSlices<'a> {
    pub schools: &'a [u8],
    pub roster: &'a [u8],
    pub lists: &'a [u8],
}

/// Reads an input whole, and answers its bytes. An error says that the reader failed, that the input is longer than
/// 64 MiB, or that there was no memory for it. At most one byte past that length is taken.
pub fn read_input<R: Read>(
    alloc: Global,
    from: &mut Watched<R>,
    source: Source,
) -> Result<Vec<u8>, RunFault>
    ensures read { IfOk result (λ given. IsRead (turn_of R.remaining source from.old from.new) given.items) }
    ensures ended { IfErr result (EndsReading (turn_of R.remaining source from.old from.new)) }
    ensures limit { TakesWithin (turn_of R.remaining source from.old from.new) }
{
    match read_whole(alloc, from, MOST_BYTES + 1) {
        Ok(bytes) => {
            if bytes.len() > MOST_BYTES {
                return Err(RunFault::Intake(IntakeFault {
                    source,
                    row: 0,
                    cause: Cause::TooLong,
                }));
            }
            Ok(bytes)
        }
        Err(ReadFault::Device) => Err(RunFault::Read { source }),
        Err(ReadFault::OutOfMemory) => Err(RunFault::OutOfMemory),
    }
}

/// Reads the files of an opening whole, in the order schools, roster, lists.
pub fn read_opening<R: Read>(
    alloc: Global,
    opening: &mut Opening<R>,
) -> Result<OpeningTexts, RunFault>
    ensures read { IfOk result (λ given. AreRead (opening_turns R.remaining opening.old opening.new)
        (in_order (texts_of given))) }
    ensures ended { IfErr result (EndsAmong (opening_turns R.remaining opening.old opening.new)) }
    ensures limit { All TakesWithin (opening_turns R.remaining opening.old opening.new) }
{
    let schools = match read_input(alloc, &mut opening.schools, Source::Schools) {
        Ok(schools) => schools,
        Err(fault) => return Err(fault),
    };
    let roster = match read_input(alloc, &mut opening.roster, Source::Roster) {
        Ok(roster) => roster,
        Err(fault) => return Err(fault),
    };
    let lists = match read_input(alloc, &mut opening.lists, Source::Lists) {
        Ok(lists) => lists,
        Err(fault) => return Err(fault),
    };
    Ok(OpeningTexts {
        schools,
        roster,
        lists,
    })
}

/// Reads the files of an opening whole, in the order schools, roster, lists, and then the input after them, which is told
/// as `source`; answers their texts. An error is the first that `read_input` gives among them, and what comes after that
/// input is not touched. Of none more than one byte past 64 MiB is taken.
pub fn read_inputs<R: Read>(
    alloc: Global,
    opening: &mut Opening<R>,
    last: &mut Watched<R>,
    source: Source,
) -> Result<InputTexts, RunFault>
    ensures read { IfOk result (λ given.
        AreRead (turns_with R.remaining opening.old opening.new source last.old last.new)
        (in_order (texts_of given.opening) ++ given.last.items ∷ [])) }
    ensures ended { IfErr result (EndsAmong (turns_with R.remaining opening.old opening.new source last.old last.new)) }
    ensures limit { All TakesWithin (turns_with R.remaining opening.old opening.new source last.old last.new) }
{
    let opening = match read_opening(alloc, opening) {
        Ok(opening) => opening,
        Err(fault) => return Err(fault),
    };
    match read_input(alloc, last, source) {
        Ok(last) => Ok(InputTexts { opening, last }),
        Err(fault) => Err(fault),
    }
}

/// Reads an input whole, if there is one, and nothing where there is none.
fn read_if_any<R: Read>(
    alloc: Global,
    from: &mut Option<Watched<R>>,
    source: Source,
) -> Result<Vec<u8>, RunFault>
    ensures read { IfOk result (λ given. IsReadIfAny (turns_if_any R.remaining source from.old from.new) given.items) }
    ensures ended { IfErr result (EndsAmong (turns_if_any R.remaining source from.old from.new)) }
    ensures limit { All TakesWithin (turns_if_any R.remaining source from.old from.new) }
    ensures stays { is_some from.new ≡ is_some from.old }
{
    match from {
        Some(from) => read_input(alloc, from, source),
        None => Ok(Vec::new(alloc)),
    }
}

/// Reads the files of an opening whole, in the order schools, roster, lists, and then the input after them, if there is
/// one, which is told as `source`; answers their texts, that of no input as an empty one. An error is the first that
/// `read_input` gives among them, and what comes after that input is not touched. Of none more than one byte past 64 MiB
/// is taken.
pub fn read_opening_and<R: Read>(
    alloc: Global,
    opening: &mut Opening<R>,
    last: &mut Option<Watched<R>>,
    source: Source,
) -> Result<InputTexts, RunFault>
    ensures read { IfOk result (λ given. AreRead (opening_turns R.remaining opening.old opening.new)
        (in_order (texts_of given.opening))) }
    ensures last { IfOk result (λ given.
        IsReadIfAny (turns_if_any R.remaining source last.old last.new) given.last.items) }
    ensures ended { IfErr result (EndsAmong (opening_turns R.remaining opening.old opening.new
        ++ turns_if_any R.remaining source last.old last.new)) }
    ensures limit { All TakesWithin (opening_turns R.remaining opening.old opening.new
        ++ turns_if_any R.remaining source last.old last.new) }
    ensures stays { is_some last.new ≡ is_some last.old }
{
    let opening = match read_opening(alloc, opening) {
        Ok(opening) => opening,
        Err(fault) => return Err(fault),
    };
    match read_if_any(alloc, last, source) {
        Ok(last) => Ok(InputTexts { opening, last }),
        Err(fault) => Err(fault),
    }
}

impl OpeningTexts {
    ghost use Rattle.std.specs.Prelude.{◌≡◌};

    /// The three texts, lent: none is copied.
    pub fn as_slices(&self) -> OpeningSlices<'_>
        ensures schools { result.schools.now ≡ self.now.schools.items }
        ensures roster { result.roster.now ≡ self.now.roster.items }
        ensures lists { result.lists.now ≡ self.now.lists.items }
    {
        OpeningSlices {
            schools: self.schools.as_slice(),
            roster: self.roster.as_slice(),
            lists: self.lists.as_slice(),
        }
    }
}

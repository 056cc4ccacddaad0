//! The file of a journal that is written.
use sc_report::Watched;
use sc_runs::{Inputs, RunFault};
use std::fs::{Metadata, OpenFile, OpenOptions, metadata};
use std::os::unix::fs::{FileTypeExt, MetadataExt};
use std::rt::Files;

/// Where the standard output is found as a file.
const OUTPUT: &str = "/dev/stdout";

/// Whether two files are one, under whatever names.
fn are_one(one: &Metadata, other: &Metadata) -> bool {
    one.dev() == other.dev() && one.ino() == other.ino()
}

/// Whether a file is this open input. An input of which nothing can be learnt counts as another file.
fn is_input<F: OpenFile>(file: &Metadata, input: &Watched<F>) -> bool {
    match input.inner().metadata() {
        Ok(input) => are_one(file, &input),
        Err(_) => false,
    }
}

/// Whether a file is one of the inputs of a run.
fn is_among<F: OpenFile>(file: &Metadata, inputs: &Inputs<F>) -> bool {
    is_input(file, &inputs.opening.schools)
        || is_input(file, &inputs.opening.roster)
        || is_input(file, &inputs.opening.lists)
        || is_input(file, &inputs.script)
}

/// Whether a file has nothing that is to be kept: an empty regular file. A device or a pipe is none.
fn is_empty_file(file: &Metadata) -> bool {
    file.is_file() && file.len() == 0
}

/// Whether what stands under a path is to be kept, if something does. To open a pipe would wait for its reader.
fn is_kept<R: Files>(rt: &R, path: &str) -> bool {
    match metadata(rt, path) {
        Ok(file) => !is_empty_file(&file),
        Err(_) => false,
    }
}

/// Whether a file is an input that is lost, or never ends, where a journal is written to it: a regular file or a pipe.
fn is_spoiled<F: OpenFile>(file: &Metadata, inputs: &Inputs<F>) -> bool {
    (file.is_file() || file.file_type().is_fifo()) && is_among(file, inputs)
}

/// Empties a regular file that is to be the journal, unless it is one of the inputs or the output, or holds something that
/// is to be kept: these are left as they are. A pipe has nothing to lose, but may be no input, since a run that reads what
/// it writes would not end; a device, as `/dev/null`, may be both.
pub fn empty_journal<F: OpenFile>(
    journal: &F,
    no_clobber: bool,
    inputs: &Inputs<F>,
    output: Option<&Metadata>,
) -> Result<(), RunFault> {
    let Ok(file) = journal.metadata() else {
        return Err(RunFault::WriteJournal);
    };
    if no_clobber && !is_empty_file(&file) || is_spoiled(&file, inputs) {
        return Err(RunFault::WriteJournal);
    }
    if !file.is_file() {
        return Ok(());
    }
    if let Some(output) = output {
        if are_one(&file, output) {
            return Err(RunFault::WriteJournal);
        }
    }
    match journal.set_len(0) {
        Ok(()) => Ok(()),
        Err(_) => Err(RunFault::WriteJournal),
    }
}

/// The journal file, made new or emptied. It is opened as it stands and looked at before it is emptied; where what is there
/// is to be kept, it is looked at before it is opened too.
pub fn create_journal<R: Files>(
    rt: &R,
    path: &str,
    no_clobber: bool,
    inputs: &Inputs<R::File>,
) -> Result<Watched<R::File>, RunFault> {
    if no_clobber && is_kept(rt, path) {
        return Err(RunFault::WriteJournal);
    }
    let Ok(journal) = OpenOptions::new().write(true).create(true).open(rt, path) else {
        return Err(RunFault::WriteJournal);
    };
    // Where nothing can be learnt of the output, it counts as another file.
    let output = metadata(rt, OUTPUT).ok();
    empty_journal(&journal, no_clobber, inputs, output.as_ref())?;
    Ok(Watched::new(journal))
}

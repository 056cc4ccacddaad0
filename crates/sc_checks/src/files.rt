//! The inputs that are checked, by their names.
ghost use Rattle.std.specs.Prelude.{◌≡◌, option_map};
ghost use Rattle.sc_checks.specs.FaultLines.{file_of};
ghost use Rattle.sc_checks.specs.Representation.{file_view, files_view};

use sc_intake::Source;

/// The names of the inputs that are checked, as they were given.
#[derive(Clone, Copy, Debug)]
pub struct FileNames<'a> {
    pub schools: &'a str,
    pub roster: &'a str,
    pub lists: &'a str,
    /// Where there is no script, whatever name.
    pub script: &'a str,
}

/// An input: its name as it was given, and its text.
#[derive(Clone, Copy, Debug)]
pub struct InputFile<'a> {
    pub name: &'a str,
    pub text: &'a [u8],
}

/// The inputs that are checked. Where there is no script, its text is empty.
#[derive(Clone, Copy, Debug)]
pub struct InputFiles<'a> {
    pub schools: InputFile<'a>,
    pub roster: InputFile<'a>,
    pub lists: InputFile<'a>,
    pub script: InputFile<'a>,
}

/// The input that a fault is of, where it is one of these.
pub(crate) fn file_of<'a>(files: &InputFiles<'a>, source: Source) -> Option<InputFile<'a>>
    ensures { option_map file_view result ≡ file_of (files_view files.now) source }
{
    match source {
        Source::Schools => Some(files.schools),
        Source::Roster => Some(files.roster),
        Source::Lists => Some(files.lists),
        Source::Script => Some(files.script),
        Source::Log | Source::Journal | Source::Bundle | Source::Report => None,
    }
}

//! What a row is to be: which columns it has, and whom it is of.
ghost use Rattle.std.specs.Prelude.{◌≡◌, []};
ghost use Rattle.std.specs.Str.{bytes_eq};
ghost use Rattle.sc_intake.specs.Plain.{fields_from};
ghost use Rattle.sc_checks.specs.Forms.{columns_of, form_of, form_of_word};

use crate::columns::Column;
use crate::fields::field_text;
use sc_intake::Source;

/// What a row is to be: a row of one of the files, or a record of a script by its word.
#[derive(Clone, Copy)]
pub(crate) enum Form {
    SchoolRow,
    RosterRow,
    ListRow,
    Enter,
    Withdraw,
    Rerank,
    AddOrClose,
    Correct,
    Unknown,
}

/// Whether a field is this word.
fn is_word(field: &[u8], word: &[u8]) -> bool
    ensures { result ≡ bytes_eq field.now word.now }
{
    field == word
}

/// What a record of a script is to be, by the word after its stamp.
fn form_of_word(word: &[u8]) -> Form
    ensures { result ≡ form_of_word word.now }
{
    if is_word(word, b"enter") {
        return Form::Enter;
    }
    if is_word(word, b"withdraw") {
        return Form::Withdraw;
    }
    if is_word(word, b"rerank") {
        return Form::Rerank;
    }
    if is_word(word, b"add") {
        return Form::AddOrClose;
    }
    if is_word(word, b"close") {
        return Form::AddOrClose;
    }
    if is_word(word, b"correct") {
        return Form::Correct;
    }
    Form::Unknown
}

/// What a row of an input with this line is to be.
pub(crate) fn form_of(source: Source, line: &[u8]) -> Form
    ensures { result ≡ form_of source (fields_from [] line.now) }
{
    match source {
        Source::Schools => Form::SchoolRow,
        Source::Roster => Form::RosterRow,
        Source::Lists => Form::ListRow,
        Source::Script => form_of_word(field_text(line, 1)),
        Source::Log | Source::Journal | Source::Bundle | Source::Report => Form::Unknown,
    }
}

/// The columns of a form, in the order of its fields.
pub(crate) fn columns_of(form: Form) -> &'static [Column]
    ensures { result.now ≡ columns_of form }
{
    match form {
        Form::SchoolRow => &[Column::School, Column::Zone, Column::Seats],
        Form::RosterRow => &[
            Column::Student,
            Column::Zone,
            Column::Siblings,
            Column::Continuing,
        ],
        Form::ListRow => &[Column::Student, Column::Choices],
        Form::Enter => &[
            Column::Stamp,
            Column::Word,
            Column::Student,
            Column::Zone,
            Column::Siblings,
            Column::Choices,
            Column::Continuing,
        ],
        Form::Withdraw => &[Column::Stamp, Column::Word, Column::Student],
        Form::Rerank => &[
            Column::Stamp,
            Column::Word,
            Column::Student,
            Column::Choices,
        ],
        Form::AddOrClose => &[Column::Stamp, Column::Word, Column::School, Column::Count],
        Form::Correct => &[
            Column::Stamp,
            Column::Word,
            Column::Student,
            Column::Zone,
            Column::Siblings,
            Column::Continuing,
        ],
        Form::Unknown => &[Column::Stamp],
    }
}

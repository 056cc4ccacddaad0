//! The version, and the longer texts of `--help`.

/// The version that `--version` tells.
pub(crate) const VERSION: &str = "0.1.0";

pub(crate) const PROGRAM: &str =
    "Assign school places by the student-optimal stable matching; without a subcommand, reads one bundle from standard input";

pub(crate) const STATUSES: &str = "\
Exit status: 0 done, 1 the log is not certified, or the report that was published is another one (audit alone),
2 wrong words or a bad seed, 3 a fault in an input, 4 a file or stream that cannot be opened, read or written, 5
out of memory. A fault is told in one line on standard error.

Example:
  clearinghouse < bundle";

pub(crate) const CHECK_AFTER: &str = "\
Writes a line for each row that has a fault, with its first cause: the file, the line as an editor counts it, the
school or the student whose row it is, what stands there, what is expected, and the cause. First comes what is wrong
with each file alone, in the order schools, roster, lists, then what the rows say together, then the records of the
script that are no amendments. A row is judged by those that have no fault, so to mend one may show others; but a
school is known where its number can be read. No seed is needed: none changes the faults.

Exit status: 0 no fault, 2 wrong words, 3 a fault, 4 a file or stream that cannot be opened, read or written, 5 out
of memory.

Example:
  clearinghouse check --schools schools.csv --roster roster.csv --lists lists.csv --script script.csv";

pub(crate) const MATCH_AFTER: &str = "\
The report is the assignment, the cutoffs and the reasons, each under a header of its own. With --table one of them is
written alone, so that a spreadsheet opens it. The log of rejections has one record for each rejection,
STUDENT,SCHOOL, and no header; audit reads it. No table is written beside a log.

Exit status: 0 done, 2 wrong words or a bad seed, 3 a fault in an input, 4 a file or stream that cannot be
opened, read or written, 5 out of memory.

Example:
  clearinghouse match --seed 0000000000000000000000000000000000000000000000000000000000000000 \\
      --schools schools.csv --roster roster.csv --lists lists.csv";

pub(crate) const RUN_AFTER: &str = "\
A script has no header. Its records:
  STAMP,enter,STUDENT,ZONE,SIBLINGS,CHOICES   the student enters
  STAMP,withdraw,STUDENT                      the student leaves
  STAMP,rerank,STUDENT,CHOICES                the choices are replaced
  STAMP,add,SCHOOL,COUNT                      the school has so many seats more
  STAMP,close,SCHOOL,COUNT                    the school has so many seats fewer
  STAMP,correct,STUDENT,ZONE,SIBLINGS         the zone and the siblings' schools are replaced
One more field at the end of enter and correct, CONTINUING, names the school at which the student continues;
without it, or where it is empty, the student continues nowhere.
STAMP tells which change of the student, or for add and close of the school, was seen last: the k-th ok gives
stamp k, and before the first the stamp is 0. With another stamp than the one that stands the record is refused
as Stale, and the reply tells the stamp that stands.
Each has a reply before the report: its number and ok, or refused and why. A refused one changes nothing.

With --no-clobber a journal that is there already is left as it is, and the run ends before an input is read, unless
it is an empty file.
The papers are settled once, after the last record. With --settle-each they are settled after each amendment, as a
program does that answers questions in between: what is written is the same, and a long script takes far longer.
--settle-at-end, for scripts that were written when it was needed, changes nothing.

Exit status: 0 done, 2 wrong words or a bad seed, 3 a fault in an input, 4 a file or stream that cannot be
opened, read or written, 5 out of memory.

Example:
  clearinghouse run --seed 0000000000000000000000000000000000000000000000000000000000000000 \\
      --schools schools.csv --roster roster.csv --lists lists.csv --script script.csv --journal journal";

pub(crate) const AUDIT_AFTER: &str = "\
Writes certified, or bad entry LINE for the first entry of the log that the rules do not give, or over SCHOOL for a
school that has more students than seats at its end. With --report the report that was published is compared
with that of the papers under the log, and report differs LINE tells the first line that is another one. A run's
replies are no part of the report.

Exit status: 0 certified, 1 not, 2 wrong words or a bad seed, 3 a fault in an input, 4 a file
or stream that cannot be opened, read or written, 5 out of memory.

Example:
  clearinghouse audit --seed 0000000000000000000000000000000000000000000000000000000000000000 \\
      --schools schools.csv --roster roster.csv --lists lists.csv --log log.csv";

pub(crate) const REPLAY_AFTER: &str = "\
A last line that was cut short is left out and told on standard error; that is no fault. With --table one table of
the report is written alone.

Exit status: 0 done, 2 wrong words or a bad seed, 3 a fault in an input, 4 a file or stream that cannot be
opened, read or written, 5 out of memory.

Example:
  clearinghouse replay --seed 0000000000000000000000000000000000000000000000000000000000000000 \\
      --schools schools.csv --roster roster.csv --lists lists.csv --journal journal";

pub(crate) const EXPORT_AFTER: &str = "\
Makes schools.csv, roster.csv and lists.csv in FOLDER, which has to be there. A file of one of these names that
is there already is left as it is, and the export ends with a fault. Opened again under the same seed, the three
files give the same papers, order of entry included. Stamps begin at 0 again.

A last line of the journal that was cut short is left out and told on standard error; that is no fault.

Exit status: 0 done, 2 wrong words or a bad seed, 3 a fault in an input, 4 a file or stream that cannot be
opened, made, read or written, 5 out of memory.

Example:
  clearinghouse export --seed 0000000000000000000000000000000000000000000000000000000000000000 \\
      --schools schools.csv --roster roster.csv --lists lists.csv --journal journal --to next";

pub(crate) const SUMMARY_AFTER: &str = "\
The first table has a line for each rank that some student has, and a last one, -, for the students without a
school; the second a line for each school: its seats, how many are held, how many are free, and how many
students list it. With --journal its amendments are made first; a last line of it that was cut short is left out
and told on standard error, which is no fault.

Exit status: 0 done, 2 wrong words or a bad seed, 3 a fault in an input, 4 a file or stream that cannot be
opened, read or written, 5 out of memory.

Example:
  clearinghouse summary --seed 0000000000000000000000000000000000000000000000000000000000000000 \\
      --schools schools.csv --roster roster.csv --lists lists.csv --journal journal";

pub(crate) const EXPLAIN_AFTER: &str = "\
The table has a line for each choice, students by number and best choice first: the choice's rank from 1, the
school, the student's own class and draw there and their rank in the lottery, the school's cutoff as the report has
it and the rank of its student in the lottery, and the outcome: given, later for a choice after the given one, or why
it was not given, as in the report. With --student the lines are that student's alone. With --journal its amendments
are made first; a last line of it that was cut short is left out and told on standard error, which is no fault.

Exit status: 0 done, 2 wrong words, a bad seed or a student that is no number, 3 a fault in an input or a student
who is not in the papers, 4 a file or stream that cannot be opened, read or written, 5 out of memory.

Example:
  clearinghouse explain --seed 0000000000000000000000000000000000000000000000000000000000000000 \\
      --schools schools.csv --roster roster.csv --lists lists.csv --student 1";

pub(crate) const ADMISSIONS_AFTER: &str = "\
The table has, for each school by number, a line for each student who has it, admitted, and then one for each who
prefers it to what they have, waiting. Each of the two lists goes by priority class, then draw, then number, and has
ranks from 1. With --school the lines are that school's alone. With --journal its amendments are made first; a last
line of it that was cut short is left out and told on standard error, which is no fault.

Exit status: 0 done, 2 wrong words, a bad seed or a school that is no number, 3 a fault in an input or a school
that is not in the papers, 4 a file or stream that cannot be opened, read or written, 5 out of memory.

Example:
  clearinghouse admissions --seed 0000000000000000000000000000000000000000000000000000000000000000 \\
      --schools schools.csv --roster roster.csv --lists lists.csv --school 1";

pub(crate) const CHANGES_AFTER: &str = "\
The table has a line for each student whose place is another one, by rising number: the place before, and the place
after all amendments of the journal. A place is a school's number, - for none, or absent for a student who is not in
the papers at that time. Before is after the journal's first LINE lines, and at the opening without --since. A last
line of the journal that was cut short is left out and told on standard error, which is no fault.

Exit status: 0 done, 2 wrong words, a bad seed or a line that is no number, 3 a fault in an input or a line past the
journal's last whole one, 4 a file or stream that cannot be opened, read or written, 5 out of memory.

Example:
  clearinghouse changes --seed 0000000000000000000000000000000000000000000000000000000000000000 \\
      --schools schools.csv --roster roster.csv --lists lists.csv --journal journal --since 2";

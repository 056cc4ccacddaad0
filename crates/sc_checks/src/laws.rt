//! What every fault of the files has to do with reading them. Each function does nothing: its contract is the law.
ghost use Rattle.std.specs.Prelude.{◌≡◌, ◌↔◌, ℕ, true, false, List, [], Err, is_ok, map};
ghost use Rattle.csv.specs.Reading.{default_config, records, strip_bom};
ghost use Rattle.sc_intake.specs.Checking.{faults_in, lists_judged, roster_judged, schools_judged, script_faults};
ghost use Rattle.sc_intake.specs.Lists.{lists_in};
ghost use Rattle.sc_intake.specs.Papers.{papers_in};
ghost use Rattle.sc_intake.specs.Plain.{fields_from};
ghost use Rattle.sc_intake.specs.Roster.{roster_in};
ghost use Rattle.sc_intake.specs.Schools.{schools_in};
ghost use Rattle.sc_intake.specs.declared.fault.IntakeFault.{IntakeFault};
ghost use Rattle.sc_checks.specs.Lines.{has_quote, rows_of};
ghost use Rattle.sc_checks.specs.Readings.{reading_of, BeginsWith};

/// A file reads as the rows that judging it row by row finds good, where it finds no fault, and otherwise as the first
/// fault that it finds.
pub fn reading_a_file_is_judging_it()
    ensures schools { (text : List ℕ) → schools_in text ≡ reading_of (schools_judged text) }
    ensures roster { (text : List ℕ) → roster_in text ≡ reading_of (roster_judged text) }
    ensures lists { (text : List ℕ) → lists_in text ≡ reading_of (lists_judged text) }
{}

/// Three files make papers exactly where they have no fault. Where they make none, the fault that is told is the first
/// of all their faults.
pub fn files_make_papers_where_they_have_no_fault()
    ensures none { (seed schools roster lists : List ℕ)
        → (is_ok (papers_in seed schools roster lists) ≡ true ↔ faults_in seed schools roster lists ≡ []) }
    ensures first { (seed schools roster lists : List ℕ) (fault : IntakeFault)
        → (papers_in seed schools roster lists ≡ Err fault ↔ BeginsWith fault (faults_in seed schools roster lists)) }
{}

/// The faults of three files are the same under every seed.
pub fn no_seed_changes_the_faults()
    ensures { (seed other schools roster lists : List ℕ)
        → faults_in seed schools roster lists ≡ faults_in other schools roster lists }
{}

/// A script without a byte has no fault.
pub fn empty_script_has_no_fault()
    ensures { script_faults [] ≡ [] }
{}

/// Where a text has no quote, the rows that are told by their lines are the records that are read of it, each with its
/// fields.
pub fn rows_that_are_told_are_those_that_are_read()
    ensures { (text : List ℕ) → has_quote text ≡ false
        → records default_config (strip_bom text) ≡ map (λ row. fields_from [] row.bytes) (rows_of text) }
{}

//! What holds of the files of papers.

ghost use Rattle.std.specs.Prelude.{◌≡◌, Ok};
ghost use Rattle.sc_papers.specs.Market.{Market};
ghost use Rattle.sc_papers.specs.WellFormed.{WellFormed, WithinLimits};
ghost use Rattle.sc_intake.specs.Papers.{papers_in};
ghost use Rattle.sc_export.specs.Files.{lists_text, roster_text, schools_text};
ghost use Rattle.sc_export.specs.Ranges.{AreInRange};

/// Papers that are well-formed and within their limits, as all papers are, are read back from their files:
/// the same schools and students, and the same orders of entry.
pub fn exported_papers_are_read_back()
    ensures { (m : Market) → WellFormed m → WithinLimits m → AreInRange m →
        papers_in m.seed (schools_text m) (roster_text m) (lists_text m) ≡ Ok m }
{}

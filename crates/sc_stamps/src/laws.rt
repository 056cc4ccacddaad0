//! The laws of stamps. Each function does nothing: its contract is the law.
ghost use Rattle.std.specs.Prelude.{◌≡◌, ℕ, ◌+◌, ◌<◌, ◌++◌, List, [], ◌∷◌, length, slice_get, None, Some, true, false, if◌then◌else◌};
ghost use Rattle.sc_papers.specs.Market.{Market};
ghost use Rattle.sc_papers.specs.TakingBack.{is_entry};
ghost use Rattle.sc_papers.specs.Verdict.{after, verdict};
ghost use Rattle.sc_papers.specs.WellFormed.{WellFormed};
ghost use Rattle.sc_papers.specs.declared.amendment.Amendment.{Amendment};
ghost use Rattle.sc_papers.specs.declared.amendment.Refusal.{Refusal};
ghost use Rattle.sc_papers.specs.declared.amendment.Stamped.{Stamped};
ghost use Rattle.sc_stamps.specs.History.{accepted_among, after_list, IsNumberOfLast};
ghost use Rattle.sc_stamps.specs.Record.{is_record, is_same, record_of};
ghost use Rattle.sc_stamps.specs.Stamps.{Stamps, no_stamps, stamp_of, stamps_after, IsInStep};
ghost use Rattle.sc_stamps.specs.Verdict.{StampedPapers, stamped_after, stamped_verdict, unamended};
ghost use Rattle.sc_stamps.specs.declared.record.Record.{Record};

/// There is a stamp for each student and each school, at the opening and after each amendment, and none is
/// greater than the number of accepted amendments.
pub fn stamps_stay_in_step()
    ensures opening { (m : Market) → IsInStep m (no_stamps m) }
    ensures after { (m : Market) (stamps : Stamps) (a : Amendment) → IsInStep m stamps
        → IsInStep (after m a) (stamps_after m a stamps) }
{}

/// An accepted amendment makes the number of them one greater, gives its record, where that is now in the
/// papers, this number as its stamp, and leaves every other stamp. An absent record has stamp 0.
pub fn accepted_amendment_stamps_its_record()
    ensures counted { (m : Market) (stamps : Stamps) (a : Amendment)
        → (stamps_after m a stamps).accepted ≡ stamps.accepted + 1 }
    ensures stamps { (m : Market) (stamps : Stamps) (a : Amendment) (r : Record) → WellFormed m → verdict m a ≡ None
        → IsInStep m stamps
        → stamp_of (after m a) (stamps_after m a stamps) r ≡ (if is_record (after m a) r
        then (if is_same (record_of a) r then stamps.accepted + 1 else stamp_of m stamps r) else 0) }
{}

/// An accepted amendment carried the stamp that its record had.
pub fn accepted_amendment_carries_its_record_s_stamp()
    ensures { (p : StampedPapers) (stamped : Stamped) → stamped_verdict p stamped ≡ None
        → (verdict p.papers stamped.amendment ≡ None)
        × (stamp_of p.papers p.stamps (record_of stamped.amendment) ≡ stamped.stamp) }
{}

/// The stamp of a record that is in the papers is the greatest k for which the k-th accepted amendment was of
/// this record, or 0 if there was none; that of an absent record is 0.
pub fn stamp_is_the_number_of_the_last_amendment()
    ensures accepted { (m : Market) (list : List Stamped)
        → (after_list (unamended m) list).stamps.accepted ≡ length (accepted_among (unamended m) list) }
    ensures present { (m : Market) (list : List Stamped) (r : Record) → WellFormed m
        → is_record (after_list (unamended m) list).papers r ≡ true
        → IsNumberOfLast r (accepted_among (unamended m) list)
        (stamp_of (after_list (unamended m) list).papers (after_list (unamended m) list).stamps r) }
    ensures absent { (m : Market) (list : List Stamped) (r : Record) → WellFormed m
        → is_record (after_list (unamended m) list).papers r ≡ false
        → stamp_of (after_list (unamended m) list).papers (after_list (unamended m) list).stamps r ≡ 0 }
{}

/// No two accepted amendments of one record carried the same stamp, entries aside: the later one carried the
/// greater. So it is from whatever papers on, with whatever stamps in step.
pub fn accepted_amendments_of_a_record_carry_rising_stamps()
    ensures { (p : StampedPapers) (list : List Stamped) (j k : ℕ) (earlier later : Stamped) → WellFormed p.papers
        → IsInStep p.papers p.stamps → j < k
        → slice_get (accepted_among p list) j ≡ Some earlier → slice_get (accepted_among p list) k ≡ Some later
        → is_same (record_of earlier.amendment) (record_of later.amendment) ≡ true → is_entry later.amendment ≡ false
        → earlier.stamp < later.stamp }
{}

/// Stamped amendments in turn, and so each interleaving of several desks' lists, are answered by the rules in
/// the papers and with the stamps as they then stand; the papers stay well-formed.
pub fn stamped_amendments_are_answered_in_turn()
    ensures accepted { (p : StampedPapers) (list : List Stamped) (stamped : Stamped)
        → stamped_verdict (after_list p list) stamped ≡ None
        → after_list p (list ++ stamped ∷ []) ≡ stamped_after (after_list p list) stamped.amendment }
    ensures refused { (p : StampedPapers) (list : List Stamped) (stamped : Stamped) (refusal : Refusal)
        → stamped_verdict (after_list p list) stamped ≡ Some refusal
        → after_list p (list ++ stamped ∷ []) ≡ after_list p list }
    ensures well_formed { (p : StampedPapers) (list : List Stamped) → WellFormed p.papers
        → WellFormed (after_list p list).papers }
{}

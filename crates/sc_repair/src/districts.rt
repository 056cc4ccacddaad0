//! The region of an amendment, from districts that are kept from amendment to amendment.

ghost use Rattle.std.specs.Prelude.{◌≡◌, None, IfOk, IfSome, OnErr, OnOk};
ghost use Rattle.sc_papers.specs.Verdict.{after};
ghost use Rattle.sc_region.specs.Districts.{AreDistricts};
ghost use Rattle.sc_region.specs.Telling.{MarkRegion};
ghost use Rattle.sc_repair.specs.Representation.{MayFollow};

use sc_papers::{Amendment, FlatPapers};
use sc_region::{Districts, RegionPositions};
use std::alloc::{AllocError, Global};

/// These districts, or where there are none, those of the papers.
fn districts_of(
    alloc: Global,
    districts: Option<Districts>,
    papers: &FlatPapers,
) -> Result<Districts, AllocError>
    requires { IfSome districts (AreDistricts papers.now) }
    ensures { IfOk result (AreDistricts papers.now) }
{
    match districts {
        Some(districts) => Ok(districts),
        None => Districts::of(alloc, papers),
    }
}

/// The region of an amendment of the papers that is not refused, before it is made, and with it the districts of the papers after it. They are
/// made where there are none. The only error is want of memory, which leaves none.
pub(crate) fn region_of(
    alloc: Global,
    districts: &mut Option<Districts>,
    papers: &FlatPapers,
    amendment: &Amendment,
) -> Result<RegionPositions, AllocError>
    requires { MayFollow papers.now amendment.now districts.old }
    ensures region { IfOk result (MarkRegion papers.now amendment.now) }
    ensures in_step { OnOk result (IfSome districts.new (AreDistricts (after papers.now amendment.now))) }
    ensures given_up { OnErr result (districts.new ≡ None) }
{
    let before = districts_of(alloc, districts.take(), papers)?;
    let (amended, region) = before.amend_with_region(alloc, papers, amendment)?;
    *districts = Some(amended);
    Ok(region)
}

/// Brings districts of the papers in step with an amendment that is not refused, before it is made; where there
/// is no room for that, they are given up.
pub(crate) fn follow(districts: &mut Option<Districts>, papers: &FlatPapers, amendment: &Amendment)
    requires { MayFollow papers.now amendment.now districts.old }
    ensures { IfSome districts.new (AreDistricts (after papers.now amendment.now)) }
{
    if let Some(before) = districts.take() {
        *districts = before.amend(papers, amendment).ok();
    }
}

//! Stamps that were made ready for an amendment, once it was made or refused.

ghost use Rattle.std.specs.Prelude.{◌≡◌, ◌<◌, OnErr, OnOk};
ghost use Rattle.sc_papers.specs.declared.stamp.TheConstants.Stamp.{GREATEST};
ghost use Rattle.sc_stamps.specs.Stamps.{Stamps as AllStamps, begun, finished};

use sc_stamps::{Marking, Stamps};
use std::alloc::AllocError;

/// Gives the record of an amendment that was made its stamp, or takes back what was made ready where it was refused,
/// and answers what making it did. It takes no memory.
pub(crate) fn ended(
    stamps: &mut Stamps,
    marking: Marking,
    made: Result<(), AllocError>,
) -> Result<(), AllocError>
    requires { stamps.old.accepted < GREATEST }
    ensures made { result ≡ made }
    ensures finished { OnOk result (stamps.new ≡ finished marking stamps.old) }
    ensures as_before { OnErr result
        ((before : AllStamps) → stamps.old ≡ begun marking before → stamps.new ≡ before) }
{
    match made {
        Ok(()) => {
            stamps.finish(marking);
            Ok(())
        }
        Err(refused) => {
            stamps.take_back(marking);
            Err(refused)
        }
    }
}

ghost use Rattle.std.specs.Prelude.{Decides};
ghost use Rattle.sets.specs.Members.{NoMember, Meet};
ghost use Rattle.rules.specs.Allotments.{Grants, Offers};

use crate::allotment::Allotment;
use sets::{BidderSet, Bundle};

impl Allotment {
    pub(crate) fn none() -> Allotment
        ensures { NoMember result.winners.word × NoMember result.taken.word }
    {
        Allotment {
            winners: BidderSet::empty(),
            taken: Bundle::empty(),
        }
    }

    /// Whether some item of the bundle is taken.
    pub(crate) fn overlaps(self, bundle: Bundle) -> bool
        ensures { Decides result (Meet bundle.word self.taken.word) }
    {
        bundle.shares(self.taken)
    }

    /// Gives the bidder its bundle.
    pub(crate) fn with(self, bidder: usize, bundle: Bundle) -> Allotment
        ensures { Grants self bidder bundle.word result }
    {
        Allotment {
            winners: self.winners.with(bidder),
            taken: self.taken.union(bundle),
        }
    }

    /// Gives the bidder its bundle, unless an item of it is taken.
    pub(crate) fn offer(self, bidder: usize, bundle: Bundle) -> Allotment
        ensures { Offers self bidder bundle.word result }
    {
        if self.overlaps(bundle) {
            self
        } else {
            self.with(bidder, bundle)
        }
    }
}

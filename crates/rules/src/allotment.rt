use sets::{BidderSet, Bundle};

mod methods;

/// Winners so far, and the items that they take.
#[derive(Clone, Copy)]
pub(crate) struct Allotment {
    pub(crate) winners: BidderSet,
    taken: Bundle,
}

ghost use Rattle.std.specs.Prelude.{◌≡◌};
ghost use Rattle.book.specs.Checks.{Serves, answer};
ghost use Rattle.book.specs.Limits.{WithinLimits};
ghost use Rattle.book.specs.Model.{fresh};
ghost use Rattle.book.specs.Runs.{step, run, AcceptsByChecks, OnlyValueMoves, EachHasBid};

use crate::call::{Answer, Call};
use crate::open::OpenBook;
use crate::refusal::Refusal;

impl OpenBook {
    /// Makes one call, whichever it is.
    #[tactic(auto, using(crate::proofs::Stepping::call_tests))]
    pub fn apply(&mut self, call: Call) -> Result<Answer, Refusal>
        ensures served { Serves call (answer call self.old) self.old result self.new }
        ensures stepped { self.new ≡ step call self.old }
        ensures limits { WithinLimits self.old × WithinLimits self.new }
    {
        // A call is data: the promises are about lists of calls.
        match call {
            Call::Size { items } => self.size(items).map(|()| Answer::Done),
            Call::Enter { bundle, value } => self.enter(bundle, value).map(Answer::Entered),
            Call::Revise { bidder, value } => self.revise(bidder, value).map(|()| Answer::Done),
            Call::Withdraw { bidder } => self.withdraw(bidder).map(|()| Answer::Done),
            Call::Show { bidder } => self.show(bidder).map(Answer::Shown),
        }
    }

    /// Makes the calls one after the other.
    fn make(&mut self, calls: &[Call])
        ensures made { self.new ≡ run calls.now self.old }
        ensures limits { WithinLimits self.old → WithinLimits self.new }
    {
        for &call in calls {
            let _ = self.apply(call);
        }
    }

    /// The book that the calls make of a fresh one, refused ones doing nothing.
    #[tactic(auto, using(crate::proofs::Bidding::call_lists))]
    pub fn from_calls(calls: &[Call]) -> OpenBook
        ensures made { result ≡ run calls.now fresh }
        ensures checked { AcceptsByChecks }
        ensures alone { OnlyValueMoves calls.now }
        ensures bids { EachHasBid calls.now }
        ensures limits { WithinLimits result }
    {
        let mut book = OpenBook::new();
        book.make(calls);
        book
    }
}

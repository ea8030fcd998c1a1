//! How the tour prints a call, an answer, a row and the winners: each in a type of the tour's own, since `Display` and they are of other
//! crates.
use book::{Answer, Call, Mark, Refusal, Row};
use sets::{BidderSet, Bundle};
use std::fmt;

/// A call.
#[derive(Clone, Copy)]
pub(crate) struct Asked(pub(crate) Call);

/// What a call answered.
#[derive(Clone, Copy)]
pub(crate) struct Told(pub(crate) Result<Answer, Refusal>);

/// A row.
#[derive(Clone, Copy)]
pub(crate) struct Line(pub(crate) Row);

/// The items of a bundle.
#[derive(Clone, Copy)]
pub(crate) struct Items(pub(crate) Bundle);

/// The winners of an award.
#[derive(Clone, Copy)]
pub(crate) struct Winners(pub(crate) BidderSet);

impl fmt::Display for Asked {
    fn fmt<W: fmt::Write>(&self, f: &mut fmt::Formatter<W>) -> fmt::Result {
        // A call is data, and this is how each kind reads.
        match self.0 {
            Call::Size { items } => write!(f, "size {items}"),
            Call::Enter { bundle, value } => write!(f, "enter {} at {value}", Items(bundle)),
            Call::Revise { bidder, value } => write!(f, "revise bidder {bidder} to {value}"),
            Call::Withdraw { bidder } => write!(f, "withdraw bidder {bidder}"),
            Call::Show { bidder } => write!(f, "show bidder {bidder}"),
        }
    }
}

impl fmt::Display for Told {
    fn fmt<W: fmt::Write>(&self, f: &mut fmt::Formatter<W>) -> fmt::Result {
        match self.0 {
            Ok(Answer::Done) => write!(f, "done"),
            Ok(Answer::Entered(bidder)) => write!(f, "bidder {bidder}"),
            Ok(Answer::Shown(row)) => write!(f, "{}", Line(row)),
            Err(refusal) => write!(f, "refused {}, {refusal:?}", u8::from(refusal)),
        }
    }
}

impl fmt::Display for Line {
    fn fmt<W: fmt::Write>(&self, f: &mut fmt::Formatter<W>) -> fmt::Result {
        let mark = match self.0.mark {
            Mark::Standing => "standing",
            Mark::Withdrawn => "withdrawn",
        };
        write!(f, "{} at {}, {mark}", Items(self.0.bundle), self.0.value)
    }
}

impl fmt::Display for Items {
    fn fmt<W: fmt::Write>(&self, f: &mut fmt::Formatter<W>) -> fmt::Result {
        list(f, "items", |item| self.0.has(item))
    }
}

impl fmt::Display for Winners {
    fn fmt<W: fmt::Write>(&self, f: &mut fmt::Formatter<W>) -> fmt::Result {
        list(f, "winners", |bidder| self.0.has(bidder))
    }
}

/// What is listed, then the number of each member.
fn list<W: fmt::Write, F: Fn(usize) -> bool>(
    f: &mut fmt::Formatter<W>,
    what: &str,
    is_member: F,
) -> fmt::Result
    requires { F.IsAlwaysCallable is_member }
{
    f.write_str(what)?;
    for number in (0..64).filter(|&number| is_member(number)) {
        write!(f, " {number}")?;
    }
    Ok(())
}

ghost use Rattle.std.specs.Prelude.{◌≡◌, [], length, Decides};
ghost use Rattle.sets.specs.Members.{Has};
ghost use Rattle.book.specs.declared.row.Mark.TheVariants.{Standing};
ghost use Rattle.ranking.specs.Views.{entry_of, seen};
ghost use Rattle.rules.specs.Laws.{Asked};
ghost use Rattle.rules.specs.Rounds.{IsRowOf};
ghost use Rattle.rules.specs.WaitingLists.{Waiting};

use arrayvec::ArrayVec;
use book::{ClosedBook, Mark, ROW_LIMIT, Row};
use ranking::Contender;
use sets::BidderSet;

/// What a rule is asked: a closed book, its rows, and who may win.
#[derive(Clone, Copy)]
pub(crate) struct Round<'b> {
    // Clauses speak of the book, code of its rows.
    pub(crate) book: &'b ClosedBook,
    pub(crate) rows: &'b [Row],
    admitted: BidderSet,
    ghost asked: { Asked book.now admitted.word },
    ghost own: { rows.now ≡ book.now.rows },
}

impl<'b> Round<'b> {
    pub(crate) fn new(book: &'b ClosedBook, admitted: BidderSet) -> Round<'b>
        ensures book { result.book.now ≡ book.now }
        ensures admitted { result.admitted ≡ admitted }
    {
        Round {
            book,
            rows: book.rows(),
            admitted,
        }
    }

    /// Lists all who take part, in a list that the caller lends: a list of 64 places is dear to hand out.
    pub(crate) fn list_contenders(&self, waiting: &mut ArrayVec<Contender, ROW_LIMIT>)
        requires { waiting.old.items ≡ [] }
        ensures { Waiting self.now.book.now self.now.admitted.word (length self.now.book.now.rows)
            waiting.new.items }
    {
        for (bidder, row) in self.rows.iter().enumerate() {
            if self.takes_part(bidder, row) {
                waiting.push(self.contender(bidder, row));
            }
        }
    }

    // Number and row are two parameters, as `enumerate` gives them: a struct of both would be built and taken apart at each turn.
    /// Whether the bidder with this row takes part.
    pub(crate) fn takes_part(&self, bidder: usize, row: &Row) -> bool
        ensures { Decides result ((row.now.mark ≡ Standing) × Has self.now.admitted.word bidder) }
    {
        row.mark == Mark::Standing && self.admitted.has(bidder)
    }

    /// What a ranking sees of the bidder.
    fn contender(&self, bidder: usize, row: &Row) -> Contender
        requires { IsRowOf self.now.book.now bidder row.now }
        ensures { entry_of result ≡ seen self.now.book.now bidder }
    {
        Contender {
            value: row.value,
            size: row.bundle.len(),
            number: bidder,
        }
    }
}

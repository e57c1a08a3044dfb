ghost use Rattle.std.specs.Prelude.{◌≡◌, IfSome};
ghost use Rattle.pana_calls.specs.Parts.{board_in, counts_in, families_in, holdings_in, journal_in, status_in};
ghost use Rattle.pana_calls.specs.declared.answer.Answer.TheVariants.{Given};
ghost use Rattle.pana_calls.specs.declared.reply.Reply.TheVariants as replies;

use crate::board::BoardView;
use crate::family_row::FamilyRow;
use crate::hall_counts::HallCounts;
use crate::holding::HoldingList;
use crate::reply::Reply;
use crate::standing::StatusRow;
use pana_journal::EntryList;
use pana_list::PlainList;
use std::error::Error;
use std::fmt;

/// What answers a call.
pub enum Answer {
    /// A hall's reply.
    Given(Reply),
    /// The call is a report against which nothing stands, but it can't be kept, and nothing has changed.
    NotKept,
}

impl Drop for Answer {
    fn drop(self) {
        match self {
            Answer::Given(_) => {}
            Answer::NotKept => {}
        }
    }
}

impl Answer {
    /// The families that it has, if it is such an answer.
    pub fn into_families(self) -> Option<PlainList<FamilyRow>>
        ensures part { result ≡ families_in self }
        ensures answer { IfSome result (λ families. self ≡ Given (replies.Families families)) }
    {
        match self {
            Answer::Given(reply) => reply.into_families(),
            Answer::NotKept => None,
        }
    }

    /// The board that it has, if it is such an answer.
    pub fn into_board(self) -> Option<BoardView>
        ensures part { result ≡ board_in self }
        ensures answer { IfSome result (λ board. self ≡ Given (replies.Board board)) }
    {
        match self {
            Answer::Given(reply) => reply.into_board(),
            Answer::NotKept => None,
        }
    }

    /// The holdings that it has, if it is such an answer.
    pub fn into_holdings(self) -> Option<HoldingList>
        ensures part { result ≡ holdings_in self }
        ensures answer { IfSome result (λ holdings. self ≡ Given (replies.Holdings holdings)) }
    {
        match self {
            Answer::Given(reply) => reply.into_holdings(),
            Answer::NotKept => None,
        }
    }

    /// The copies that are obsolete or in conflict that it has, if it is such an answer.
    pub fn into_status(self) -> Option<PlainList<StatusRow>>
        ensures part { result ≡ status_in self }
        ensures answer { IfSome result (λ status. self ≡ Given (replies.Status status)) }
    {
        match self {
            Answer::Given(reply) => reply.into_status(),
            Answer::NotKept => None,
        }
    }

    /// The entries that it has, if it is such an answer.
    pub fn into_journal(self) -> Option<EntryList>
        ensures part { result ≡ journal_in self }
        ensures answer { IfSome result (λ journal. self ≡ Given (replies.Journal journal)) }
    {
        match self {
            Answer::Given(reply) => reply.into_journal(),
            Answer::NotKept => None,
        }
    }

    /// The counts that it has, if it is such an answer.
    pub fn into_counts(self) -> Option<HallCounts>
        ensures part { result ≡ counts_in self }
        ensures answer { IfSome result (λ counts. self ≡ Given (replies.Counts counts)) }
    {
        match self {
            Answer::Given(reply) => reply.into_counts(),
            Answer::NotKept => None,
        }
    }
}

/// A call has no answer: the session's store has failed, or has no call left.
#[derive(Clone, Copy, Debug, PartialEq, Eq)]
pub struct NoAnswer;

impl fmt::Display for NoAnswer {
    ghost use Rattle.std.specs.Prelude.{Some, codes};

    ghost output = { λ _. Some (codes "no answer") };

    fn fmt<W: fmt::Write>(&self, f: &mut fmt::Formatter<W>) -> fmt::Result {
        f.write_str("no answer")
    }
}

impl Error for NoAnswer {}

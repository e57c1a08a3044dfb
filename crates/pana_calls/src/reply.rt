ghost use Rattle.std.specs.Prelude.{◌≡◌, IfSome};
ghost use Rattle.pana_calls.specs.Parts.{board_in, counts_in, families_in, holdings_in, journal_in, standing_in, status_in};
ghost use Rattle.pana_calls.specs.declared.answer.Answer.TheVariants.{Given};
ghost use Rattle.pana_calls.specs.declared.reply.Reply.TheVariants as replies;

use crate::board::BoardView;
use crate::cause::Cause;
use crate::copy_stamp::CopyStamp;
use crate::family_row::FamilyRow;
use crate::hall_counts::HallCounts;
use crate::holding::HoldingList;
use crate::standing::{CopyStanding, StatusRow};
use pana_event::Rel;
use pana_journal::{EntryList, ReportKind};
use pana_list::PlainList;

/// The answer of a hall to a call.
pub enum Reply {
    /// The report was accepted, as the entry with this number.
    Done { entry: u64 },
    /// What was seen was reported, by an entry of this kind; where it took two, that is the last one's kind and number.
    Did { kind: ReportKind, entry: u64 },
    /// What was seen was known: nothing was to be done of the copy with this number, or no copy is at the place.
    Known { copy: Option<u64> },
    /// The families that have a living copy, by rising number.
    Families(PlainList<FamilyRow>),
    /// The board that was asked for.
    Board(BoardView),
    /// The stamps of the family's living copies, by rising number.
    Stamps(PlainList<CopyStamp>),
    /// How the first copy relates to the second.
    Pair(Rel),
    /// The living copies on the device, by rising number.
    Holdings(HoldingList),
    /// The living copy at the place that was asked for, if one is there.
    At(Option<CopyStanding>),
    /// Copies that are obsolete or in conflict, by rising number.
    Status(PlainList<StatusRow>),
    /// Entries of the journal.
    Journal(EntryList),
    /// How many copies live, and on how many devices.
    Counts(HallCounts),
    /// The call was refused, and changed nothing.
    Refused(Cause),
}

impl Drop for Reply {
    fn drop(self) {
        match self {
            Reply::Done { entry: _ } => {}
            Reply::Did { kind: _, entry: _ } => {}
            Reply::Known { copy: _ } => {}
            Reply::Families(_) => {}
            Reply::Board(_) => {}
            Reply::Stamps(_) => {}
            Reply::Pair(_) => {}
            Reply::Holdings(_) => {}
            Reply::At(_) => {}
            Reply::Status(_) => {}
            Reply::Journal(_) => {}
            Reply::Counts(_) => {}
            Reply::Refused(_) => {}
        }
    }
}

impl Reply {
    /// The families that it has, if it is such a reply.
    pub fn into_families(self) -> Option<PlainList<FamilyRow>>
        ensures part { result ≡ families_in (Given self) }
        ensures reply { IfSome result (λ families. self ≡ replies.Families families) }
    {
        match self {
            Reply::Families(families) => Some(families),
            _ => None,
        }
    }

    /// The board that it has, if it is such a reply.
    pub fn into_board(self) -> Option<BoardView>
        ensures part { result ≡ board_in (Given self) }
        ensures reply { IfSome result (λ board. self ≡ replies.Board board) }
    {
        match self {
            Reply::Board(board) => Some(board),
            _ => None,
        }
    }

    /// The holdings that it has, if it is such a reply.
    pub fn into_holdings(self) -> Option<HoldingList>
        ensures part { result ≡ holdings_in (Given self) }
        ensures reply { IfSome result (λ holdings. self ≡ replies.Holdings holdings) }
    {
        match self {
            Reply::Holdings(holdings) => Some(holdings),
            _ => None,
        }
    }

    /// How the copy at the place stands, if one is there that it has, if it is such a reply.
    pub fn into_standing(self) -> Option<Option<CopyStanding>>
        ensures part { result ≡ standing_in (Given self) }
        ensures reply { IfSome result (λ standing. self ≡ replies.At standing) }
    {
        match self {
            Reply::At(standing) => Some(standing),
            _ => None,
        }
    }

    /// The copies that are obsolete or in conflict that it has, if it is such a reply.
    pub fn into_status(self) -> Option<PlainList<StatusRow>>
        ensures part { result ≡ status_in (Given self) }
        ensures reply { IfSome result (λ status. self ≡ replies.Status status) }
    {
        match self {
            Reply::Status(status) => Some(status),
            _ => None,
        }
    }

    /// The entries that it has, if it is such a reply.
    pub fn into_journal(self) -> Option<EntryList>
        ensures part { result ≡ journal_in (Given self) }
        ensures reply { IfSome result (λ journal. self ≡ replies.Journal journal) }
    {
        match self {
            Reply::Journal(journal) => Some(journal),
            _ => None,
        }
    }

    /// The counts that it has, if it is such a reply.
    pub fn into_counts(self) -> Option<HallCounts>
        ensures part { result ≡ counts_in (Given self) }
        ensures reply { IfSome result (λ counts. self ≡ replies.Counts counts) }
    {
        match self {
            Reply::Counts(counts) => Some(counts),
            _ => None,
        }
    }
}

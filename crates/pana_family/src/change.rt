//! Changes of rows, each of which has an inverse.
ghost use Rattle.std.specs.Prelude.{◌≡◌, ◌+◌, ◌<◌, ◌≤◌, None, count_by, length, reverse, vec_len, vec_capacity, [], ◌∷◌};
ghost use Rattle.std.specs.Option.{option_len};
ghost use Rattle.pana_family.specs.Rows.{IsRising, dropped, put_back, row_at};
ghost use Rattle.pana_family.specs.declared.change.Exchange.TheVariants.{Put};
ghost use Rattle.pana_family.specs.Change.{number_of, at_number, placed, placed_all, formers, is_put, puts, changed, inverse, room_of};

use crate::making::renew;
use crate::row::StampRow;
use crate::searching::{index_from, row_position};
use pana_event::EventTree;
use smallvec::SmallVec;
use std::mem;

/// What becomes of the row at one number.
#[derive(Drop)]
pub enum Exchange {
    /// This row stands at its number.
    Put(StampRow),
    /// The number has no row.
    Take(u64),
}

impl Default for Exchange {
    fn default() -> Exchange {
        Exchange::Take(0)
    }
}

/// What takes a family's rows from one state to another. It holds all memory that this takes.
#[derive(Drop)]
pub enum Change {
    /// The copy has this event and touch.
    Event(u64, EventTree, u64),
    /// The copy has this touch.
    Touch(u64, u64),
    /// Rows are exchanged, one after another.
    // In a box, so that an edit, the change that comes most, isn't moved with room for two rows.
    Rows(Box<SmallVec<Exchange, 2>>),
}

/// Whether the exchange puts a row.
fn is_put(new: &Exchange) -> bool
    ensures { result ≡ is_put new.now }
{
    match new {
        Exchange::Put(_) => true,
        Exchange::Take(_) => false,
    }
}

/// How many rows these exchanges put.
fn puts(news: &[Exchange]) -> usize
    ensures { result ≡ count_by is_put news.now }
{
    news.iter().filter(|new| is_put(new)).count()
}

/// The number at which rows are exchanged.
pub fn number_of(new: &Exchange) -> u64
    ensures { result ≡ number_of new.now }
{
    match new {
        Exchange::Put(row) => row.copy,
        Exchange::Take(number) => *number,
    }
}

/// How many rows the change may add.
pub fn room_of(change: &Change) -> usize
    ensures { result ≡ room_of change.now }
{
    match change {
        Change::Rows(news) => puts(news.as_slice()),
        _ => 0,
    }
}

/// The exchange that leaves this row, or none, at a number.
fn at_number(number: u64, row: Option<StampRow>) -> Exchange
    ensures { result ≡ at_number number row }
{
    match row {
        Some(row) => Exchange::Put(row),
        None => Exchange::Take(number),
    }
}

/// Puts a row among the others, of which none has its number. Takes no memory.
fn insert_row(items: &mut Vec<StampRow>, row: StampRow)
    requires rising { IsRising 0 items.old.items }
    requires absent { row_at items.old.items row.copy ≡ None }
    requires room { vec_len items.old < vec_capacity items.old }
    ensures items { items.new.items ≡ put_back row items.old.items }
    ensures len { vec_len items.new ≡ vec_len items.old + 1 }
    ensures capacity { vec_capacity items.old ≤ vec_capacity items.new }
{
    let at = index_from(items, row.copy);
    match items.insert(at, row) {
        Ok(()) => {}
        Err(_) => unreachable!(),
    }
}

/// Takes out the row with this number, if there is one. Takes no memory.
fn take_row(items: &mut Vec<StampRow>, copy: u64) -> Option<StampRow>
    requires { IsRising 0 items.old.items }
    ensures items { items.new.items ≡ dropped copy items.old.items }
    ensures former { result ≡ row_at items.old.items copy }
    ensures len { vec_len items.new + option_len result ≡ vec_len items.old }
    ensures capacity { vec_capacity items.old ≤ vec_capacity items.new }
{
    match row_position(items, copy) {
        Some(at) => Some(items.remove(at)),
        None => None,
    }
}

/// Puts a row at its number, and returns the row that stood there, if there was one. Takes no memory.
fn put_row(items: &mut Vec<StampRow>, row: StampRow) -> Option<StampRow>
    requires rising { IsRising 0 items.old.items }
    requires room { vec_len items.old + 1 ≤ vec_capacity items.old }
    ensures rising { IsRising 0 items.new.items }
    ensures rows { row_at items.new.items ≡ placed (Put row) (row_at items.old.items) }
    ensures former { result ≡ row_at items.old.items row.copy }
    ensures len { vec_len items.new + option_len result ≡ vec_len items.old + 1 }
    ensures capacity { vec_capacity items.old ≤ vec_capacity items.new }
{
    match row_position(items, row.copy) {
        Some(at) => Some(mem::replace(&mut items[at], row)),
        None => {
            insert_row(items, row);
            None
        }
    }
}

/// Exchanges the row at one number, and returns the exchange that takes it back. Takes no memory.
fn exchange_one(items: &mut Vec<StampRow>, new: Exchange) -> Exchange
    requires rising { IsRising 0 items.old.items }
    requires room { vec_len items.old + puts (new ∷ []) ≤ vec_capacity items.old }
    ensures rising { IsRising 0 items.new.items }
    ensures rows { row_at items.new.items ≡ placed new (row_at items.old.items) }
    ensures former { result ≡ at_number (number_of new) (row_at items.old.items (number_of new)) }
    ensures size { vec_len items.new + puts (result ∷ []) ≡ vec_len items.old + puts (new ∷ []) }
    ensures capacity { vec_capacity items.old ≤ vec_capacity items.new }
{
    match new {
        Exchange::Put(row) => {
            let number = row.copy;
            at_number(number, put_row(items, row))
        }
        Exchange::Take(number) => at_number(number, take_row(items, number)),
    }
}

/// Makes these exchanges, and leaves in the place of each the one that takes it back. Takes no memory.
fn exchange_all(items: &mut Vec<StampRow>, news: &mut [Exchange])
    requires rising { IsRising 0 items.old.items }
    requires room { vec_len items.old + puts news.old ≤ vec_capacity items.old }
    ensures rising { IsRising 0 items.new.items }
    ensures rows { row_at items.new.items ≡ placed_all news.old (row_at items.old.items) }
    ensures former { news.new ≡ formers news.old (row_at items.old.items) }
    ensures size { vec_len items.new + puts news.new ≡ vec_len items.old + puts news.old }
    ensures capacity { vec_capacity items.old ≤ vec_capacity items.new }
{
    for at in 0..news.len() {
        let new = mem::replace(&mut news[at], Exchange::Take(0));
        news[at] = exchange_one(items, new);
    }
}

/// Makes these exchanges, and leaves those that take them back. Takes no memory.
fn exchange_back(items: &mut Vec<StampRow>, news: &mut [Exchange])
    requires rising { IsRising 0 items.old.items }
    requires room { vec_len items.old + puts news.old ≤ vec_capacity items.old }
    ensures rising { IsRising 0 items.new.items }
    ensures rows { row_at items.new.items ≡ placed_all news.old (row_at items.old.items) }
    ensures back { news.new ≡ reverse (formers news.old (row_at items.old.items)) }
    ensures len { length news.new ≡ length news.old }
    ensures size { vec_len items.new + puts news.new ≡ vec_len items.old + puts news.old }
    ensures capacity { vec_capacity items.old ≤ vec_capacity items.new }
{
    exchange_all(items, news);
    news.reverse();
}

/// Changes rows, and returns the change that takes it back. Takes no memory.
pub fn apply(items: &mut Vec<StampRow>, change: Change) -> Change
    requires rising { IsRising 0 items.old.items }
    requires room { vec_len items.old + room_of change ≤ vec_capacity items.old }
    ensures rising { IsRising 0 items.new.items }
    ensures rows { row_at items.new.items ≡ changed change (row_at items.old.items) }
    ensures back { result ≡ inverse change (row_at items.old.items) }
    ensures size { vec_len items.new + room_of result ≡ vec_len items.old + room_of change }
    ensures capacity { vec_capacity items.old ≤ vec_capacity items.new }
{
    match change {
        Change::Event(copy, event, touch) => match row_position(items, copy) {
            Some(at) => {
                let (event, touch) = renew(&mut items[at], event, touch);
                Change::Event(copy, event, touch)
            }
            None => Change::Event(copy, event, touch),
        },
        Change::Touch(copy, touch) => match row_position(items, copy) {
            Some(at) => Change::Touch(copy, mem::replace(&mut items[at].touch, touch)),
            None => Change::Touch(copy, touch),
        },
        Change::Rows(mut news) => {
            exchange_back(items, news.as_mut_slice());
            Change::Rows(news)
        }
    }
}

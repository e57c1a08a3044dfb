//! The tables of all families of a hall.
ghost use Rattle.std.specs.Prelude.{◌≡◌, map, IfOk, string_bytes};
ghost use Rattle.pana_hall.specs.Board.{board_of};
ghost use Rattle.pana_hall.specs.Living.{living};
ghost use Rattle.pana_hall.specs.Queries.{family_rows};
ghost use Rattle.pana_commands.specs.Tables.{table_of, tables_text};

use crate::boards::print_board;
use pana_calls::{BoardView, Call, FamilyRow, Query};
use pana_copies::DeviceName;
use pana_hall::Hall;
use pana_list::PlainList;
use std::alloc::{AllocError, Global};

/// The device in whose name the program asks; a question has the same answer for each.
const ASKER: &str = "panad";

fn families_of(hall: &mut Hall, by: &DeviceName) -> Result<PlainList<FamilyRow>, AllocError>
    ensures rows { IfOk result (λ rows. rows ≡ family_rows hall.old (living hall.old)) }
    ensures hall { hall.new ≡ hall.old }
{
    let reply = hall.apply(by, Call::Query(Query::Families));
    match reply.into_families() {
        Some(rows) => Ok(rows),
        None => Err(AllocError),
    }
}

fn board_of(hall: &mut Hall, by: &DeviceName, family: u64) -> Result<BoardView, AllocError>
    ensures board { IfOk result (λ board. board ≡ board_of family (living hall.old)) }
    ensures hall { hall.new ≡ hall.old }
{
    let reply = hall.apply(by, Call::Query(Query::Board { family }));
    match reply.into_board() {
        Some(board) => Ok(board),
        None => Err(AllocError),
    }
}

/// The tables of families. The hall stays as it is.
fn each_table(
    alloc: Global,
    terminal: Option<usize>,
    hall: &mut Hall,
    by: &DeviceName,
    rows: &[FamilyRow],
) -> Result<Vec<String>, AllocError>
    ensures tables { IfOk result (λ tables. map string_bytes tables.items ≡ map (table_of terminal hall.old) rows.now) }
    ensures hall { hall.new ≡ hall.old }
{
    let mut tables = Vec::new(alloc);
    for row in rows {
        let board = board_of(hall, by, row.family)?;
        tables.push(print_board(alloc, terminal, board)?)?;
    }
    Ok(tables)
}

/// The tables of the families that have a living copy, by rising number, with an empty line between two, for a terminal of this
/// width where one is given. The hall stays as it is. Fails only where memory runs out.
pub fn tables_of(
    alloc: Global,
    terminal: Option<usize>,
    hall: &mut Hall,
) -> Result<String, AllocError>
    ensures text { IfOk result (λ text. string_bytes text ≡ tables_text terminal hall.old) }
    ensures hall { hall.new ≡ hall.old }
{
    let by = DeviceName::new(ASKER).map_err(|_| AllocError)?;
    let rows = families_of(hall, &by)?;
    let tables = each_table(alloc, terminal, hall, &by, rows.as_slice())?;
    tables.as_slice().join(alloc, "\n")
}

use crate::places::place;
use pana_calls::{BoardRow, BoardView};
use pana_copies::NameFault;
use pana_list::PlainList;
use pana_report::print;
use std::alloc::Global;
use std::test::Fail;

/// A copy's row: its number and place, and how many others are newer, older, equal and in conflict.
fn row(
    alloc: Global,
    copy: u64,
    device: &str,
    path: &str,
    counts: [u64; 4],
) -> Result<BoardRow, NameFault> {
    let [newer, older, equal, conflict] = counts;
    Ok(BoardRow {
        copy,
        place: place(alloc, device, path)?,
        newer,
        older,
        equal,
        conflict,
    })
}

/// A copy that is obsolete and in conflict with others, and a number longer than the head of its column.
#[test]
fn long_numbers(rt: HostRuntime) -> Result<(), Fail> {
    let rows = vec![in rt.alloc();
        row(rt.alloc(), 9, "desk", "a", [0, 1, 2, 0])?,
        row(rt.alloc(), 123456, "usb", "b", [1, 0, 0, 255])?,
    ]?;
    let newest = vec![in rt.alloc(); 9]?;
    let board = BoardView {
        family: 9,
        rows: PlainList::from_vec(rows),
        newest: PlainList::from_vec(newest),
        split: false,
    };
    let text = print(rt.alloc(), None, &board)?;
    let table = "\
family 9: copies 2, newest 1, split no
  COPY  PLACE   STATE     NEWER  OLDER  EQUAL  CONFLICT
     9  desk:a  newest        0      1      2         0
123456  usb:b   obsolete      1      0      0       255
";
    assert_eq!(rt; text.as_str(), table);
    Ok(())
}

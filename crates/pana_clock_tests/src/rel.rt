use pana_event::Rel;
use pana_rel::{Counts, PairTable};
use std::test::Fail;

#[test]
fn conflict(rt: HostRuntime) -> Result<(), Fail> {
    let mut table = PairTable::new(rt.alloc(), 1)?;
    table.reserve()?;
    table.insert_like(1, 2);
    assert_eq!(rt; table.rel(1, 2), Rel::Equal);
    table.edited(1);
    assert_eq!(rt; table.rel(1, 2), Rel::Newer);
    assert_eq!(rt; table.rel(2, 1), Rel::Older);
    assert!(rt; !table.board()?.split);
    table.edited(2);
    assert_eq!(rt; table.rel(1, 2), Rel::Conflict);
    let counts = Counts {
        above: 0,
        below: 0,
        equal: 0,
        conflict: 1,
    };
    let board = table.board()?;
    assert_eq!(rt; board.counts.as_slice(), [counts, counts].as_slice());
    assert_eq!(rt; board.newest.as_slice(), [1, 2].as_slice());
    assert!(rt; board.split);
    Ok(())
}

#[test]
fn puts_in_between(rt: HostRuntime) -> Result<(), Fail> {
    let mut table = PairTable::new(rt.alloc(), 1)?;
    table.reserve()?;
    table.insert_like(1, 3);
    table.reserve()?;
    table.insert_row(2, [Rel::Older, Rel::Conflict].as_slice());
    assert_eq!(rt; table.copies(), [1, 2, 3].as_slice());
    assert_eq!(rt; table.rel(2, 1), Rel::Older);
    assert_eq!(rt; table.rel(3, 2), Rel::Conflict);
    Ok(())
}

#[test]
fn sets_like(rt: HostRuntime) -> Result<(), Fail> {
    let mut table = PairTable::new(rt.alloc(), 1)?;
    table.reserve()?;
    table.insert_like(1, 2);
    table.reserve()?;
    table.insert_row(3, [Rel::Older, Rel::Conflict].as_slice());
    table.edited(1);
    table.set_like(1, 2);
    assert_eq!(rt; table.rel(1, 2), Rel::Equal);
    assert_eq!(rt; table.rel(2, 3), Rel::Newer);
    assert_eq!(rt; table.rel(3, 2), Rel::Older);
    Ok(())
}

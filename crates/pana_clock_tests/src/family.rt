ghost use Rattle.std.specs.Prelude.{IfOk};
ghost use Rattle.pana_family.specs.Change.{after, Fits};
ghost use Rattle.pana_family.specs.Kept.{IsKept};
ghost use Rattle.pana_family.specs.View.{NamesLiving};

use pana_event::Rel;
use pana_family::{Change, Family, FamilyFault, FamilyReport};
use std::alloc::{AllocError, Global};
use std::test::Fail;

/// The copies' stamps, one after another.
fn texts(alloc: Global, family: &Family) -> Result<String, AllocError> {
    let mut all = String::new(alloc);
    let stamps = family.stamps()?;
    for stamp in stamps.as_slice() {
        let line = format!(in alloc; "{}:{} ", stamp.copy, stamp.text.as_str())?;
        all.push_str(line.as_str())?;
    }
    Ok(all)
}

/// Records a report of copies that live, where the entry is new.
fn record(family: &mut Family, entry: u64, report: FamilyReport) -> Result<Change, FamilyFault>
    requires { NamesLiving report family.old.rows }
    ensures kept { IfOk result (λ back. IsKept (after back family.new.rows)) }
    ensures fits { IfOk result (λ back. Fits back family.new.rows family.new.room) }
{
    if family.is_new(entry) {
        return family.report(entry, report);
    }
    Err(FamilyFault::SameCopy)
}

fn duplicate(family: &mut Family, entry: u64, source: u64) -> Result<Change, FamilyFault> {
    if family.has(source) {
        return record(family, entry, FamilyReport::Duplicate(source));
    }
    Err(FamilyFault::SameCopy)
}

fn edit(family: &mut Family, entry: u64, copy: u64) -> Result<Change, FamilyFault> {
    if family.has(copy) {
        return record(family, entry, FamilyReport::Edit(copy));
    }
    Err(FamilyFault::SameCopy)
}

fn reconcile(family: &mut Family, entry: u64, a: u64, b: u64) -> Result<Change, FamilyFault>
    ensures kept { IfOk result (λ back. IsKept (after back family.new.rows)) }
    ensures fits { IfOk result (λ back. Fits back family.new.rows family.new.room) }
{
    if family.has(a) && family.has(b) {
        return record(family, entry, FamilyReport::Reconcile(a, b));
    }
    Err(FamilyFault::SameCopy)
}

fn merge(family: &mut Family, entry: u64, a: u64, b: u64) -> Result<Change, FamilyFault> {
    if family.has(a) && family.has(b) {
        return record(family, entry, FamilyReport::Merge(a, b));
    }
    Err(FamilyFault::SameCopy)
}

fn give(family: &mut Family, entry: u64, copy: u64, heir: u64) -> Result<Change, FamilyFault> {
    if family.has(copy) && family.has(heir) {
        return record(family, entry, FamilyReport::Remove(copy, Some(heir)));
    }
    Err(FamilyFault::SameCopy)
}

fn lose(family: &mut Family, entry: u64, copy: u64) -> Result<Change, FamilyFault> {
    if family.has(copy) {
        return record(family, entry, FamilyReport::Remove(copy, None));
    }
    Err(FamilyFault::SameCopy)
}

fn rel(family: &Family, a: u64, b: u64) -> Option<Rel> {
    if family.has(a) && family.has(b) {
        return Some(family.rel(a, b));
    }
    None
}

/// The family of this one's rows.
fn again(alloc: Global, family: Family) -> Result<Family, AllocError> {
    Family::of_rows(alloc, family.into_rows())
}

#[test]
fn conflict_from_rows(rt: HostRuntime) -> Result<(), Fail> {
    let alloc = rt.alloc();
    let mut family = again(alloc, Family::new(alloc, 1)?.0)?;
    duplicate(&mut family, 2, 1)?;
    family = again(alloc, family)?;
    edit(&mut family, 3, 1)?;
    family = again(alloc, family)?;
    assert!(rt; rel(&family, 1, 2) == Some(Rel::Newer));
    edit(&mut family, 4, 2)?;
    family = again(alloc, family)?;
    let board = family.board()?;
    assert!(rt; board.split);
    assert!(rt; board.newest.as_slice() == [1, 2].as_slice());
    Ok(())
}

#[test]
fn parcel_settles(rt: HostRuntime) -> Result<(), Fail> {
    let alloc = rt.alloc();
    let mut family = Family::new(alloc, 1)?.0;
    duplicate(&mut family, 2, 1)?;
    edit(&mut family, 3, 1)?;
    duplicate(&mut family, 4, 1)?;
    give(&mut family, 5, 1, 2)?;
    assert_eq!(rt; family.held(2), 1);
    duplicate(&mut family, 6, 2)?;
    edit(&mut family, 7, 2)?;
    let before = texts(alloc, &family)?;
    assert_eq!(rt;
        before.as_str(),
        "2:((0,(1,0)),(0,0,(0,1,0))) 4:(((0,1),0),(0,1,0)) 6:((0,(0,1)),0) "
    );
    assert!(rt; rel(&family, 2, 4) == Some(Rel::Conflict));
    let back = reconcile(&mut family, 8, 2, 4)?;
    let after = texts(alloc, &family)?;
    assert_eq!(rt;
        after.as_str(),
        "2:((1,0),(0,1,(0,1,0))) 4:((0,(1,0)),(0,1,(0,1,0))) 6:((0,(0,1)),0) "
    );
    assert_eq!(rt; family.held(2), 0);
    assert!(rt; rel(&family, 6, 2) == Some(Rel::Older));
    family.take_back(back);
    assert_eq!(rt; texts(alloc, &family)?.as_str(), before.as_str());
    assert_eq!(rt; family.held(2), 1);
    Ok(())
}

#[test]
fn boards(rt: HostRuntime) -> Result<(), Fail> {
    let alloc = rt.alloc();
    let mut family = Family::new(alloc, 1)?.0;
    duplicate(&mut family, 2, 1)?;
    duplicate(&mut family, 3, 1)?;
    edit(&mut family, 4, 1)?;
    edit(&mut family, 5, 2)?;
    let board = family.board()?;
    assert!(rt; board.split);
    assert!(rt; board.newest.as_slice() == [1, 2].as_slice());
    assert!(rt; family.living() == [1, 2, 3].as_slice());
    for row in board.rows.as_slice() {
        if row.copy == 3 {
            assert!(rt; row.newer == 2 && row.older == 0 && row.equal == 0 && row.conflict == 0);
        }
    }
    merge(&mut family, 6, 1, 2)?;
    lose(&mut family, 7, 3)?;
    let text = texts(alloc, &family)?;
    assert_eq!(rt;
        text.as_str(),
        "1:(((1,0),0),(0,(0,1,0),2)) 2:((0,1),(0,(0,1,0),2)) "
    );
    Ok(())
}

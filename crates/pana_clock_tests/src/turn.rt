//! What no clause says of a desk: that calls succeed where memory is there, and that others' calls are seen; at the machine
//! that the crate's page shows. Where an allocation fails, the test ends with that error.

use pana_turn::{Desk, Machine};
use std::test::Fail;

/// A number that each call adds to.
#[derive(Drop)]
struct Counter {
    sum: u64,
}

impl Machine for Counter {
    type Call = u64;

    type Reply = u64;

    ghost use Rattle.std.specs.Prelude.{◌≡◌, ◌+◌, ◌%◌, ◌^◌};

    ghost step = { λ old added reply new. (new.sum ≡ (old.sum + added) % 2 ^ 64) × (reply ≡ new.sum) };

    /// Adds a number, and returns the sum.
    fn make(&mut self, added: u64) -> u64 {
        self.sum = self.sum.wrapping_add(added);
        self.sum
    }
}

#[test]
fn shared_desk(rt: HostRuntime) -> Result<(), Fail> {
    let alloc = rt.alloc();
    let (desk, mut passes) = Desk::open(alloc, 2, Counter { sum: 0 })?;
    let (Some(mut second), Some(mut first)) = (passes.pop(), passes.pop()) else {
        return Ok(());
    };

    assert_eq!(rt; desk.call(&rt, &mut first, 3), Ok(3));
    assert_eq!(rt; desk.glance(&mut second), 1);
    assert_eq!(rt; desk.call(&rt, &mut second, 4), Ok(7));
    let note = desk.note(&mut first);
    desk.meet(&mut second, note);
    assert_eq!(rt; desk.glance(&mut first), 2);

    passes.push(first)?;
    let Err(refused) = desk.close(passes) else {
        assert!(rt; false);
        return Ok(());
    };
    let (desk, mut passes) = (refused.desk, refused.passes);
    passes.push(second)?;
    let Ok(closed) = desk.close(passes) else {
        assert!(rt; false);
        return Ok(());
    };
    assert_eq!(rt; (closed.machine.sum, closed.calls), (7, 2));
    Ok(())
}

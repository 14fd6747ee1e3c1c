//! Numbers in rings: the ring that each number is in, and a copy of the rings.

ghost use Rattle.std.specs.Prelude.{◌≡◌};

use smx_queues::Rings;
use std::mem::forget;
use std::process::Abort;

// Numbers 1 and 2 enter ring 3, and number 0 enters ring 2. Number 1 was in ring 2 before.
fn three_enter(rings: &mut Rings)
    requires { rings.old.count ≡ 4 }
    ensures { rings.new.count ≡ 4 }
{
    rings.enter(1, 2);
    rings.enter(1, 3);
    rings.enter(2, 3);
    rings.enter(0, 2);
}

// Takes all numbers out. The number that entered a ring last comes out first.
fn three_come(rt: &impl Abort, rings: &mut Rings)
    requires { rings.old.count ≡ 4 }
{
    assert!(rt; rings.take_one(3) == Some(2));
    assert!(rt; rings.take_one(3) == Some(1));
    assert!(rt; rings.take_one(3).is_none());
    assert!(rt; rings.take_one(2) == Some(0));
    assert!(rt; rings.take_one(2).is_none());
}

#[test]
fn numbers_are_in_one_ring_each(rt: HostRuntime) {
    let mut rings = Rings::new(rt.alloc(), 4).expect(&rt, "memory");
    three_enter(&mut rings);
    let mut same = rings.copy(rt.alloc()).expect(&rt, "memory");
    three_come(&rt, &mut rings);
    three_come(&rt, &mut same);
    forget(same);
    forget(rings);
}

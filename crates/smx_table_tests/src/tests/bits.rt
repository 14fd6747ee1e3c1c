//! Marks by number: which numbers are marked, and in which order they come.

ghost use Rattle.std.specs.Prelude.{◌≡◌};

use smx_queues::Bits;
use std::mem::forget;
use std::process::Abort;

// Four of 200 numbers are marked, one of them twice.
fn mark_four(bits: &mut Bits)
    requires { bits.old.count ≡ 200 }
    ensures { bits.new.count ≡ 200 }
{
    bits.set(199);
    bits.set(64);
    bits.set(63);
    bits.set(63);
    bits.set(5);
}

// Checks which number is the lowest marked one that is at least a given number.
fn come_from(rt: &impl Abort, bits: &Bits)
    requires { bits.now.count ≡ 200 }
{
    assert!(rt; bits.is_set(64) && !bits.is_set(65));
    assert!(rt; bits.first_from(0) == Some(5));
    assert!(rt; bits.first_from(6) == Some(63));
    assert!(rt; bits.first_from(64) == Some(64));
    assert!(rt; bits.first_from(65) == Some(199));
    assert!(rt; bits.first_from(200).is_none());
}

// Checks that `n` is the least marked number, and clears its mark.
fn comes(rt: &impl Abort, bits: &mut Bits, n: usize)
    ensures { bits.new.count ≡ bits.old.count }
{
    assert!(rt; bits.first() == Some(n));
    bits.clear(n);
    assert!(rt; bits.first() != Some(n));
}

// Checks that `first` returns all marked numbers in rising order. Then marks a lower number, and checks that `first`
// returns it.
fn all_come(rt: &impl Abort, bits: &mut Bits)
    requires { bits.old.count ≡ 200 }
{
    comes(rt, bits, 5);
    comes(rt, bits, 63);
    comes(rt, bits, 64);
    comes(rt, bits, 199);
    assert!(rt; bits.first().is_none());
    bits.set(2);
    comes(rt, bits, 2);
    assert!(rt; bits.first().is_none());
}

#[test]
fn bits_come_in_order(rt: HostRuntime) {
    let mut bits = Bits::new(rt.alloc(), 200).expect(&rt, "memory");
    assert!(&rt; bits.first().is_none());
    mark_four(&mut bits);
    come_from(&rt, &bits);
    let mut same = bits.copy(rt.alloc()).expect(&rt, "memory");
    all_come(&rt, &mut same);
    come_from(&rt, &bits);
    all_come(&rt, &mut bits);
    forget(same);
    forget(bits);
}

#[test]
fn no_bits(rt: HostRuntime) {
    let mut bits = Bits::new(rt.alloc(), 0).expect(&rt, "memory");
    assert!(&rt; bits.first().is_none());
    assert!(&rt; bits.first_from(0).is_none());
    forget(bits);
}

//! Seats that each have their own thread, and what they do there.

ghost use Rattle.std.specs.Prelude.{◌≡◌, All};

use super::callers::{closes_with, first_of, opens};
use super::gates::{TURNS, is_reached};
use super::made::{clone_of, front};
use smx_shared::{ApplyFault, Door, Hold, Seat, Shared, TryFault};
use smx_types::Command;
use std::mem::forget;
use std::process::Abort;
use std::sync::Wait;
use std::sync::atomic::{AtomicU64, Ordering};
use std::thread;
use std::thread::{Scope, Threads, join};

/// A seat's part in a test.
#[derive(Clone, Copy)]
pub enum Part {
    /// Nothing.
    Rests,
    /// Looks this many times, and finds nothing.
    Looks(u32),
    /// Holds the turn until the count `held` of the stage has reached `wanted`. Gets the stream with minor 0.
    Holds,
    /// Finds by a look, and then by each of this many tries, that the turn is held and that the history is empty.
    Tries(u32),
    /// Looks until two seats have ended their `OpensAndCloses`. The history never becomes shorter from look to look.
    LooksOn,
    /// Opens a stream after some seat has seen the turn free. Then closes the stream and opens one again, 500 times.
    OpensAndCloses,
    /// Calls this many times.
    Calls(u32),
    /// Gets the stream with this minor.
    Opens(u32),
}

/// The parts of the seats of a test. The first few seats do one part, while the other seats do another part. Then the
/// very first seat does a last part. The counts say what the seats have seen so far.
#[derive(Drop)]
pub struct Stage {
    clone_ip: Command,
    first: (u32, Part),
    others: Part,
    last: Part,
    // The value that `held` has to reach before the turn is given back.
    wanted: u64,
    // Whether the turn is held, or was.
    begun: AtomicU64,
    // How often the turn was seen free.
    free: AtomicU64,
    // How many seats have ended their `Tries`, plus how many looks of `LooksOn` found the turn held.
    held: AtomicU64,
    // How many seats have ended their `OpensAndCloses`.
    ended: AtomicU64,
    // How many tries found the turn held.
    busy: AtomicU64,
    // How many calls succeeded.
    answered: AtomicU64,
    // How many calls found the history full.
    full: AtomicU64,
}

fn add_one(count: &AtomicU64) {
    count.fetch_add(1, Ordering::SeqCst);
}

impl Stage {
    /// Creates a stage on which nothing is done yet. `wanted` is the value that `held` has to reach before the turn is
    /// given back.
    pub fn of(rt: &impl Abort, first: (u32, Part), others: Part, last: Part, wanted: u64) -> Stage {
        Stage {
            clone_ip: clone_of(rt, "ip"),
            first,
            others,
            last,
            wanted,
            begun: AtomicU64::new(0),
            free: AtomicU64::new(0),
            held: AtomicU64::new(0),
            ended: AtomicU64::new(0),
            busy: AtomicU64::new(0),
            answered: AtomicU64::new(0),
            full: AtomicU64::new(0),
        }
    }

    // Returns what the seat of this process does.
    fn part_of(&self, process: u32) -> Part {
        let (count, part) = self.first;
        if process < count { part } else { self.others }
    }
}

impl Hold for Stage {
    fn inside(&self) {
        add_one(&self.begun);
        is_reached(&self.held, self.wanted);
    }
}

// Checks that each of `count` looks finds nothing.
fn finds_nothing(rt: &impl Abort, shared: &Shared, seat: &mut Seat, count: u32)
    requires { seat.old.shared ≡ shared.now.name }
    ensures { seat.new.shared ≡ shared.now.name }
{
    for _ in 0..count {
        assert!(rt; shared.glance(seat) == front(0, 0, false));
    }
}

// Holds the turn until the count `held` of the stage has reached `wanted`. Gets the stream with minor 0.
fn holds<R: AllocGlobal + Abort + Wait>(rt: &R, shared: &Shared, seat: &mut Seat, stage: &Stage)
    requires { seat.old.shared ≡ shared.now.name }
    ensures { seat.new.shared ≡ shared.now.name }
{
    let answer = shared.call_holding(rt, rt.alloc(), seat, &stage.clone_ip, stage);
    let entry = answer.expect(rt, "an answer");
    assert!(rt; opens(&entry, 0));
    forget(entry);
}

// Checks that a try finds that the turn is held and that the history is empty.
fn is_busy(rt: &(impl AllocGlobal + Abort), shared: &Shared, seat: &mut Seat, stage: &Stage)
    requires { seat.old.shared ≡ shared.now.name }
    ensures { seat.new.shared ≡ shared.now.name }
{
    let fault = shared.try_call(rt.alloc(), seat, &stage.clone_ip).err();
    assert!(rt; fault == Some(TryFault::Busy(front(0, 0, true))));
}

// Checks that a look, and then each of this many tries, finds that the turn is held and that the history is empty.
fn tries(
    rt: &(impl AllocGlobal + Abort),
    shared: &Shared,
    seat: &mut Seat,
    stage: &Stage,
    count: u32,
)
    requires { seat.old.shared ≡ shared.now.name }
    ensures { seat.new.shared ≡ shared.now.name }
{
    assert!(rt; is_reached(&stage.begun, 1));
    assert!(rt; shared.glance(seat) == front(0, 0, true));
    for _ in 0..count {
        is_busy(rt, shared, seat, stage);
    }
    stage.busy.fetch_add(u64::from(count), Ordering::SeqCst);
    add_one(&stage.held);
}

// Lets other threads go on. Then returns whether two seats have ended their `OpensAndCloses`.
fn is_ended(stage: &Stage) -> bool {
    thread::yield_now();
    stage.ended.load(Ordering::SeqCst) == 2
}

// Looks until two seats have ended their `OpensAndCloses`. Checks that the history never becomes shorter.
fn looks_on(rt: &impl Abort, shared: &Shared, seat: &mut Seat, stage: &Stage)
    requires { seat.old.shared ≡ shared.now.name }
    ensures { seat.new.shared ≡ shared.now.name }
{
    let mut entries = 0;
    for _ in 0..TURNS {
        let front = shared.glance(seat);
        assert!(rt; entries <= front.entries);
        entries = front.entries;
        add_one(if front.held { &stage.held } else { &stage.free });
        if is_ended(stage) {
            return;
        }
    }
    panic!(rt; "two have not ended");
}

// Checks that a command gets an entry.
fn is_answered<R: AllocGlobal + Abort + Wait>(
    rt: &R,
    shared: &Shared,
    seat: &mut Seat,
    command: &Command,
)
    requires { seat.old.shared ≡ shared.now.name }
    ensures { seat.new.shared ≡ shared.now.name }
{
    let answer = shared.call(rt, rt.alloc(), seat, command);
    assert!(rt; answer.is_ok());
    forget(answer);
}

// Opens a stream after some seat has seen the turn free. Then closes the stream and opens one again, 500 times.
fn opens_and_closes<R: AllocGlobal + Abort + Wait>(
    rt: &R,
    shared: &Shared,
    seat: &mut Seat,
    stage: &Stage,
)
    requires { seat.old.shared ≡ shared.now.name }
    ensures { seat.new.shared ≡ shared.now.name }
{
    is_reached(&stage.free, 1);
    let first = shared.call_holding(rt, rt.alloc(), seat, &stage.clone_ip, stage);
    assert!(rt; first.is_ok());
    forget(first);
    for _ in 0..500 {
        is_answered(rt, shared, seat, &Command::Close { fd: 0 });
        is_answered(rt, shared, seat, &stage.clone_ip);
        thread::yield_now();
    }
    add_one(&stage.ended);
}

// Calls, and counts the result.
fn calls<R: AllocGlobal + Abort + Wait>(rt: &R, shared: &Shared, seat: &mut Seat, stage: &Stage)
    requires { seat.old.shared ≡ shared.now.name }
    ensures { seat.new.shared ≡ shared.now.name }
{
    let answer = shared.call(rt, rt.alloc(), seat, &stage.clone_ip);
    match &answer {
        Ok(_) => add_one(&stage.answered),
        Err(ApplyFault::HistoryFull) => add_one(&stage.full),
        Err(ApplyFault::NoMemory) => {}
    }
    forget(answer);
}

// Calls this many times.
fn calls_often<R: AllocGlobal + Abort + Wait>(
    rt: &R,
    shared: &Shared,
    seat: &mut Seat,
    stage: &Stage,
    count: u32,
)
    requires { seat.old.shared ≡ shared.now.name }
    ensures { seat.new.shared ≡ shared.now.name }
{
    for _ in 0..count {
        calls(rt, shared, seat, stage);
    }
}

// Gets the stream with this minor.
fn gets<R: AllocGlobal + Abort + Wait>(
    rt: &R,
    shared: &Shared,
    seat: &mut Seat,
    stage: &Stage,
    minor: u32,
)
    requires { seat.old.shared ≡ shared.now.name }
    ensures { seat.new.shared ≡ shared.now.name }
{
    let entry = shared.call(rt, rt.alloc(), seat, &stage.clone_ip);
    let entry = entry.expect(rt, "an answer");
    assert!(rt; opens(&entry, minor));
    forget(entry);
}

// Has this seat do this part.
fn plays<R: AllocGlobal + Abort + Wait>(
    rt: &R,
    shared: &Shared,
    seat: &mut Seat,
    stage: &Stage,
    part: Part,
)
    requires { seat.old.shared ≡ shared.now.name }
    ensures { seat.new.shared ≡ shared.now.name }
{
    match part {
        Part::Rests => {}
        Part::Looks(count) => finds_nothing(rt, shared, seat, count),
        Part::Holds => holds(rt, shared, seat, stage),
        Part::Tries(count) => tries(rt, shared, seat, stage, count),
        Part::LooksOn => looks_on(rt, shared, seat, stage),
        Part::OpensAndCloses => opens_and_closes(rt, shared, seat, stage),
        Part::Calls(count) => calls_often(rt, shared, seat, stage, count),
        Part::Opens(minor) => gets(rt, shared, seat, stage, minor),
    }
}

// Has this seat do its part, and returns the seat.
fn comes_back<R: AllocGlobal + Abort + Wait>(
    rt: &R,
    shared: &Shared,
    mut seat: Seat,
    stage: &Stage,
) -> Seat
    requires { seat.shared ≡ shared.now.name }
    ensures { result.shared ≡ shared.now.name }
{
    let part = stage.part_of(<Shared as Door>::process(&seat).get());
    plays(rt, shared, &mut seat, stage, part);
    seat
}

// Makes each of these seats do its part on its own thread, and drops the seat there.
fn start_all<'s, E, R: AllocGlobal + Abort + Threads + Wait + Sync>(
    scope: &'s Scope<'s, E>,
    rt: &'s R,
    shared: &'s Shared,
    seats: Vec<Seat>,
    stage: &'s Stage,
)
    requires { All (λ s. s.shared ≡ shared.now.name) seats.items }
{
    for seat in seats {
        let thread = scope.spawn(
            move ||
                requires { seat.shared ≡ shared.now.name }
            { drop(comes_back(rt, shared, seat, stage)) },
        );
        drop(thread);
    }
}

fn others_play<R: AllocGlobal + Abort + Threads + Wait + Sync>(
    rt: &R,
    shared: &Shared,
    seats: Vec<Seat>,
    stage: &Stage,
)
    requires { All (λ s. s.shared ≡ shared.now.name) seats.items }
{
    thread::scope(
        thread::scope_env(),
        rt,
        |scope|
            requires { All (λ s. s.shared ≡ shared.now.name) seats.items }
        { start_all(scope, rt, shared, seats, stage) },
    );
}

// Makes all of these seats do their parts. Then the first seat does its last part. Returns the first seat.
fn all_play<R: AllocGlobal + Abort + Threads + Wait + Sync>(
    rt: &R,
    shared: &Shared,
    seats: Vec<Seat>,
    stage: &Stage,
) -> Seat
    requires { All (λ s. s.shared ≡ shared.now.name) seats.items }
    ensures { result.shared ≡ shared.now.name }
{
    let (zero, others) = first_of(rt, shared, seats);
    let (mut zero, ()) = join(
        rt,
        || -> Seat
            requires { zero.shared ≡ shared.now.name }
            ensures { result.shared ≡ shared.entry.now.name }
        { comes_back(rt, shared, zero, stage) },
        || -> ()
            requires { All (λ s. s.shared ≡ shared.now.name) others.items }
        { others_play(rt, shared, others, stage) },
    );
    plays(rt, shared, &mut zero, stage, stage.last);
    zero
}

/// The numbers at the end: of entries, of tries that found the turn held, of calls that succeeded, and of calls that
/// found the history full.
pub type End = (usize, u64, u64, u64);

/// Makes all of these seats do their parts, each on its own thread. The first seat then closes the system. Checks the
/// numbers at the end.
pub fn is_played<R: AllocGlobal + Abort + Threads + Wait + Sync>(
    rt: &R,
    stage: &Stage,
    shared: Shared,
    seats: Vec<Seat>,
    end: End,
)
    requires { All (λ s. s.shared ≡ shared.name) seats.items }
{
    let (entries, busy, answered, full) = end;
    let zero = all_play(rt, &shared, seats, stage);
    assert_eq!(rt; stage.busy.load(Ordering::SeqCst), busy);
    assert_eq!(rt; stage.answered.load(Ordering::SeqCst), answered);
    assert_eq!(rt; stage.full.load(Ordering::SeqCst), full);
    closes_with(rt, shared, zero, entries);
}

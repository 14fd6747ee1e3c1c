//! Seats that call, try and look, each on its own thread; all except the first are dropped. Some tests make few calls,
//! and some make many. The last two tests make many looks and tries; `bench/looks` measures how long they take.

ghost use Rattle.std.specs.Prelude.{◌≤◌};
ghost use Rattle.smx_types.specs.declared.limits.TheConstants.{MAX_COMMANDS, MAX_PROCESSES};

use super::callers::start;
use super::made::{ip, system_over};
use super::stage::{End, Part, Stage, is_played};
use std::process::Abort;
use std::sync::Wait;
use std::thread::Threads;

// Makes this number of seats do the parts of this stage, in a system over `driver ip mux 64 8 3 16` with this limit of
// entries. Checks the numbers at the end.
fn comes_to<R: AllocGlobal + Abort + Threads + Wait + Sync>(
    rt: &R,
    stage: Stage,
    limit: usize,
    seats: usize,
    end: End,
)
    requires few { limit ≤ MAX_COMMANDS }
    requires some { (1 ≤ seats) × (seats ≤ MAX_PROCESSES) }
{
    let system = system_over(rt, &[ip(rt, 64)], limit);
    let (shared, seats) = start(rt, system, seats).expect(rt, "a start");
    is_played(rt, &stage, shared, seats, end);
}

// Four seats call twice each at a system with a limit of five entries: five of the eight calls succeed.
#[test]
fn four_seats_reach_the_limit(rt: HostRuntime) {
    let stage = Stage::of(&rt, (4, Part::Calls(2)), Part::Rests, Part::Rests, 0);
    comes_to(&rt, stage, 5, 4, (5, 0, 5, 3));
}

// Fifteen seats try a hundred times each while the first one holds the turn: every try finds it held.
#[test]
fn fifteen_try_while_one_holds_the_turn(rt: HostRuntime) {
    let stage = Stage::of(&rt, (1, Part::Holds), Part::Tries(100), Part::Rests, 15);
    comes_to(&rt, stage, 10, 16, (1, 1_500, 0, 0));
}

// The second of two seats calls once and is dropped on its thread. Then the first one gets the next stream.
#[test]
fn a_thread_that_drops_its_seat(rt: HostRuntime) {
    let stage = Stage::of(&rt, (1, Part::Rests), Part::Calls(1), Part::Opens(1), 0);
    comes_to(&rt, stage, 10, 2, (2, 0, 1, 0));
}

#[test]
fn eight_look_on_while_two_call(rt: HostRuntime) {
    let stage = Stage::of(
        &rt,
        (8, Part::LooksOn),
        Part::OpensAndCloses,
        Part::Opens(2),
        1,
    );
    comes_to(&rt, stage, 10_000, 10, (2_003, 0, 0, 0));
}

#[test]
fn ten_million_glances(rt: HostRuntime) {
    let stage = Stage::of(
        &rt,
        (1, Part::Looks(10_000_000)),
        Part::Rests,
        Part::Opens(0),
        0,
    );
    comes_to(&rt, stage, 10, 2, (1, 0, 0, 0));
}

// The seat that tries finds that another seat has the turn.
#[test]
fn a_million_tries(rt: HostRuntime) {
    let stage = Stage::of(
        &rt,
        (1, Part::Tries(1_000_000)),
        Part::Holds,
        Part::Opens(1),
        1,
    );
    comes_to(&rt, stage, 10, 2, (2, 1_000_000, 0, 0));
}

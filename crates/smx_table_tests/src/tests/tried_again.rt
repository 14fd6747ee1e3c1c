//! A test of queues that also passes if any single allocation fails. tests/refused_growths runs it many times, and each
//! time another allocation fails.

use super::queues::marks_across_a_move;

#[test]
fn marks_across_a_move_of_queues(rt: HostRuntime) {
    marks_across_a_move(&rt);
}

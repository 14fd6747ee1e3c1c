//! A configuration, call by call, and its copy.

use super::made::{clone_of, named, numbered, read};
use smx_config::{Config, Verdict, check_history};
use smx_types::{Command, ConfigView, DescriptorLine, Fault, Reply};
use std::mem::forget;
use std::process::Abort;

// A command of one process with its reply, and the view afterwards.
const OPENED: &[u8] = b"transcript 1
driver ip mux 4 8 3 16
driver eth leaf 2 8 3 16
0 clone ip = fd 0 0
config
next 1 1
fd 0 0 ip 0
end
";

// Checks that the view has one descriptor, and nothing else.
fn has_one_descriptor(rt: &impl Abort, view: &ConfigView) {
    let opened = DescriptorLine {
        process: numbered(rt, 0),
        fd: 0,
        driver: named(rt, "ip"),
        minor: 0,
    };
    assert!(rt; view.next_id == 1 && view.next_serial == 1);
    assert!(rt; view.fds.as_slice() == [opened].as_slice());
    assert!(rt; view.links.as_slice().is_empty() && view.binds.as_slice().is_empty());
    assert!(rt; view.routes.as_slice().is_empty() && view.msgs.as_slice().is_empty());
    assert!(rt; view.fulls.as_slice().is_empty() && view.hungs.as_slice().is_empty());
}

// The same process opens two streams, one by `step` and one by `step_twin`.
fn opens_twice(rt: &impl Abort, config: &mut Config) {
    let clone = clone_of(rt, "ip");
    let reply = config.step(numbered(rt, 0), &clone).expect(rt, "a reply");
    assert!(rt; reply == Reply::Fd { fd: 0, minor: 0 });
    let view = config.show().expect(rt, "a view");
    has_one_descriptor(rt, &view);
    forget(view);
    let replies = config.step_twin(numbered(rt, 0), &clone);
    let (reply, twin) = replies.expect(rt, "replies");
    assert!(rt; reply == Reply::Fd { fd: 1, minor: 1 });
    assert!(rt; twin == Reply::Fd { fd: 1, minor: 1 });
    forget((reply, twin));
}

// Checks that `perform` replaces the previous reply by the new one. The first new reply is a descriptor, and the second
// is the refusal of a `close`.
fn performs_in_place(rt: &impl Abort, config: &mut Config) {
    let mut reply = Reply::Eof;
    let clone = clone_of(rt, "eth");
    assert!(rt; config.perform(numbered(rt, 1), &clone, &mut reply).is_ok());
    assert!(rt; reply == Reply::Fd { fd: 0, minor: 0 });
    let close = Command::Close { fd: 7 };
    assert!(rt; config.perform(numbered(rt, 1), &close, &mut reply).is_ok());
    assert!(rt; reply == Reply::Fault(Fault::BadDescriptor));
    forget(reply);
}

// Checks that a copy has the same drivers and the same view.
fn is_copied(rt: &(impl AllocGlobal + Abort), config: &Config) {
    let again = config.copy(rt.alloc()).expect(rt, "a copy");
    assert!(rt; again.drivers() == config.drivers());
    let view = config.show().expect(rt, "a view");
    let view_again = again.show().expect(rt, "a view");
    assert!(rt; view_again == view);
    forget((again, view, view_again));
}

#[test]
fn a_configuration_call_by_call(rt: HostRuntime) {
    let want = read(&rt, OPENED);
    let drivers = want.drivers.as_slice();
    let mut config = Config::new(rt.alloc(), drivers).expect(&rt, "a configuration");
    opens_twice(&rt, &mut config);
    performs_in_place(&rt, &mut config);
    is_copied(&rt, &config);
    forget(config);
    let verdict = check_history(rt.alloc(), drivers, want.entries.as_slice(), &want.view);
    assert!(rt; verdict.ok() == Some(Verdict::Legal));
    forget(want);
}

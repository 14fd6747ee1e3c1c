//! Sessions through public calls. The expected answers were typed in from the rules.

use smx_session::Session;
use std::mem::forget;
use std::process::Abort;

const TABLE: &[u8] = b"programs 1\ndriver ip mux 4 8 3 16\ndriver eth leaf 2 8 3 16\nend\n";

// Lines with their answers, in order.
const ANSWERED: [(&[u8], &[u8]); 4] = [
    (b"0 clone ip", b"0 clone ip = fd 0 0\n"),
    (b"0 clone eth", b"0 clone eth = fd 1 0\n"),
    (b"0 link 0 1", b"0 link 0 1 = id 1\n"),
    (b"7 write 0 5 c0ffee", b"7 write 0 5 c0ffee = EBADF fd\n"),
];

fn opens(rt: &(impl AllocGlobal + Abort), session: &Session) {
    let opening = session.opening(rt.alloc()).expect(rt, "there is memory");
    assert!(rt;
        opening.as_slice()
            == b"transcript 1\ndriver ip mux 4 8 3 16\ndriver eth leaf 2 8 3 16\n".as_slice()
    );
}

fn answers(rt: &(impl AllocGlobal + Abort), session: &mut Session, line: &[u8], wanted: &[u8]) {
    assert!(rt; session.perform(rt.alloc(), line) == Ok(()));
    let entry = session.entry(rt.alloc()).expect(rt, "there is memory");
    assert!(rt; entry.as_slice() == wanted, "of {} bytes", line.len());
}

fn shows(rt: &(impl AllocGlobal + Abort), session: &Session) {
    let shown = session.shown(rt.alloc()).expect(rt, "there is memory");
    assert!(rt;
        shown.as_slice()
            == b"config\nnext 2 1\nfd 0 0 ip 0\nfd 0 1 eth 0\nlink 1 ip 0 eth 0 link\n".as_slice()
    );
}

#[test]
fn lines_are_answered_and_the_configuration_is_shown(rt: HostRuntime) {
    let mut session = Session::new(rt.alloc(), TABLE).expect(&rt, "the drivers are valid");
    opens(&rt, &session);
    for (line, entry) in &ANSWERED {
        answers(&rt, &mut session, *line, *entry);
    }
    shows(&rt, &session);
    forget(session);
}

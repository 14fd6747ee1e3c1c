//! How a worked history is tested. It is typed in as a transcript, and must be judged legal. Its commands are given to
//! `step`, to `step_twin` (which returns each reply twice) and to a system. They must get the replies of the
//! transcript. At the end the configuration must show the view of the transcript. The same is required of a copy, and
//! of a copy that is consumed. If a call runs out of memory, it is repeated; if the call was a step, the view must be
//! as before. Large values are given to `forget`, because dropping one makes the proof longer.

use super::made::{read, system_over, tells_of_want};
use super::systems::plays;
use smx_config::{Config, Verdict, check_history};
use smx_samples::{Part, text_of};
use smx_types::{ConfigView, DriverSpec, Entry, Reply, Transcript};
use std::mem::forget;
use std::process::Abort;

fn config_over(rt: &(impl AllocGlobal + Abort), drivers: &[DriverSpec]) -> Config {
    match Config::new(rt.alloc(), drivers) {
        Ok(config) => config,
        Err(_) => Config::new(rt.alloc(), drivers).expect(rt, "a configuration"),
    }
}

// Checks that the configuration shows the same view as another one that has performed these entries.
fn is_behind(rt: &(impl AllocGlobal + Abort), config: &Config, entries: &[Entry]) {
    let mut other = config_over(rt, config.drivers());
    for entry in entries {
        let reply = other.step(entry.process, &entry.command);
        forget(reply.expect(rt, "a reply"));
    }
    let (now, want) = (shown(rt, config), shown(rt, &other));
    assert!(rt; now == want, "behind {} entries", entries.len());
    forget((other, now, want));
}

// Returns the reply of `step` to the command of an entry. `others` are the entries before it. Tries again if memory ran
// out.
fn reply_to(
    rt: &(impl AllocGlobal + Abort + Print),
    config: &mut Config,
    entry: &Entry,
    others: &[Entry],
) -> Reply {
    match config.step(entry.process, &entry.command) {
        Ok(reply) => reply,
        Err(_) => {
            tells_of_want(rt, "a step");
            is_behind(rt, config, others);
            let again = config.step(entry.process, &entry.command);
            again.expect(rt, "a reply")
        }
    }
}

// Returns both replies of `step_twin` to the command of an entry. `others` are the entries before it. Tries again if
// memory ran out.
fn replies_to(
    rt: &(impl AllocGlobal + Abort + Print),
    config: &mut Config,
    entry: &Entry,
    others: &[Entry],
) -> (Reply, Reply) {
    match config.step_twin(entry.process, &entry.command) {
        Ok(replies) => replies,
        Err(_) => {
            tells_of_want(rt, "a step");
            is_behind(rt, config, others);
            let again = config.step_twin(entry.process, &entry.command);
            again.expect(rt, "replies")
        }
    }
}

fn steps(rt: &(impl AllocGlobal + Abort + Print), config: &mut Config, entries: &[Entry]) {
    for number in 0..entries.len() {
        let entry = &entries[number];
        let reply = reply_to(rt, config, entry, &entries[..number]);
        assert!(rt; reply == entry.reply, "behind {number} entries");
        forget(reply);
    }
}

fn steps_twice(rt: &(impl AllocGlobal + Abort + Print), config: &mut Config, entries: &[Entry]) {
    for number in 0..entries.len() {
        let entry = &entries[number];
        let (reply, twin) = replies_to(rt, config, entry, &entries[..number]);
        assert!(rt; reply == entry.reply, "behind {number} entries");
        assert!(rt; twin == entry.reply, "behind {number} entries");
        forget((reply, twin));
    }
}

/// Returns the view of the configuration.
pub fn shown(rt: &impl Abort, config: &Config) -> ConfigView {
    match config.show() {
        Ok(view) => view,
        Err(_) => config.show().expect(rt, "a view"),
    }
}

// Checks the drivers and the links of a configuration, and that exactly this view is shown.
fn is_so(rt: &impl Abort, config: &Config, want: &Transcript) {
    assert!(rt; config.drivers() == want.drivers.as_slice());
    assert!(rt; config.link_count() as usize == want.view.links.as_slice().len());
    let view = shown(rt, config);
    assert!(rt; view == want.view);
    forget(view);
}

fn copied(rt: &(impl AllocGlobal + Abort), config: &Config) -> Config {
    match config.copy(rt.alloc()) {
        Ok(again) => again,
        Err(_) => config.copy(rt.alloc()).expect(rt, "a copy"),
    }
}

// Returns the view of a configuration that is consumed. If memory runs out, another copy is consumed.
fn shown_of_copies(rt: &(impl AllocGlobal + Abort), config: &Config) -> ConfigView {
    match copied(rt, config).into_view() {
        Ok(view) => view,
        Err(_) => copied(rt, config).into_view().expect(rt, "a view"),
    }
}

fn copy_is_so(rt: &(impl AllocGlobal + Abort), config: &Config, want: &Transcript) {
    let again = copied(rt, config);
    is_so(rt, &again, want);
    forget(again);
    let view = shown_of_copies(rt, config);
    assert!(rt; view == want.view);
    forget(view);
}

// The call that performs the commands: `step`, or `step_twin`.
#[derive(Clone, Copy)]
enum Way {
    OneByOne,
    Twice,
}

fn by_steps(rt: &(impl AllocGlobal + Abort + Print), want: &Transcript, way: Way) {
    let mut config = config_over(rt, want.drivers.as_slice());
    let entries = want.entries.as_slice();
    match way {
        Way::OneByOne => steps(rt, &mut config, entries),
        Way::Twice => steps_twice(rt, &mut config, entries),
    }
    is_so(rt, &config, want);
    copy_is_so(rt, &config, want);
    forget(config);
}

fn by_a_system(rt: &(impl AllocGlobal + Abort + Print), want: &Transcript) {
    let mut system = system_over(rt, want.drivers.as_slice(), 100_000);
    plays(rt, &mut system, want.entries.as_slice());
    assert!(rt; system.entries() == want.entries.as_slice());
    is_so(rt, system.config(), want);
    forget(system);
}

fn verdict_on(rt: &(impl AllocGlobal + Abort + Print), want: &Transcript) -> Verdict {
    let (drivers, entries) = (want.drivers.as_slice(), want.entries.as_slice());
    match check_history(rt.alloc(), drivers, entries, &want.view) {
        Ok(verdict) => verdict,
        Err(_) => {
            tells_of_want(rt, "a verdict");
            check_history(rt.alloc(), drivers, entries, &want.view).expect(rt, "a verdict")
        }
    }
}

/// Checks that `want` is the verdict on the transcript of this text. If the transcript is legal, also tests it as a
/// worked history.
pub fn is_judged(rt: &(impl AllocGlobal + Abort + Print), text: &[u8], want: Verdict) {
    let all = read(rt, text);
    assert!(rt; verdict_on(rt, &all) == want, "of {} bytes", text.len());
    if want == Verdict::Legal {
        by_steps(rt, &all, Way::OneByOne);
        by_steps(rt, &all, Way::Twice);
        by_a_system(rt, &all);
    }
    forget(all);
}

/// Checks that the transcript of these parts is a worked history.
pub fn is_worked(rt: &(impl AllocGlobal + Abort + Print), parts: &[Part]) {
    let text = text_of(rt.alloc(), parts).expect(rt, "there is memory");
    is_judged(rt, text.as_bytes(), Verdict::Legal);
}

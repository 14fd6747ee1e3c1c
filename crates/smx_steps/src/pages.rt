//! Makes the text of a page from a transcript.

ghost use Rattle.std.specs.Prelude.{◌≡◌, ℕ, ◌+◌, ◌<◌, ◌≤◌, List, [], ◌++◌, length, IfOk, IfErr, OnOk};
ghost use Rattle.std.specs.Bool.{OnFalse, OnTrue};
ghost use Rattle.smx_types.specs.declared.driver.DriverSpec.{DriverSpec as AnyDriver};
ghost use Rattle.smx_config.specs.declared.config_fault.ConfigFault.TheVariants.{NoMemory as OutOfMemory};
ghost use Rattle.smx_trace.specs.Tracing.{IsNow};
ghost use Rattle.smx_steps.specs.Escapes.{escaped, escaped_byte};
ghost use Rattle.smx_steps.specs.Pages.{IsPageOf, RefusesPage};
ghost use Rattle.smx_steps.specs.Stepping.{HasStepped, IsStopped, PerformsStep};
ghost use Rattle.smx_steps.specs.Steps.{step_text};
ghost use Rattle.smx_steps.specs.declared.frame.TheConstants.{FOOT as AnyFoot};
ghost use Rattle.smx_steps.specs.declared.pages.PageFault.TheVariants.{Refused};

use crate::frame::{FOOT, HEAD};
use itoa::Buffer;
use smx_config::{Config, ConfigFault};
use smx_draw::write_svg;
use smx_text::transcript_opening;
use smx_trace::trace_entry;
use smx_types::{ConfigView, Entry, NoMemory, Transcript};
use std::alloc::Global;

/// The largest number of entries of a page.
pub const MAX_STEPS: usize = 1_000;

/// The largest number of bytes of a page.
pub const MAX_PAGE: usize = 33_554_432;

/// Why a transcript has no page.
#[derive(Clone, Copy, Debug, PartialEq, Eq)]
pub enum PageFault {
    /// The drivers are not valid, or memory ran out.
    Refused(ConfigFault),
    /// A page of this number of entries is over the limit of entries, or over the limit of bytes.
    TooLong(usize),
}

impl From<ConfigFault> for PageFault {
    ghost from_gives = { λ f fault. fault ≡ Refused f };

    fn from(fault: ConfigFault) -> PageFault {
        PageFault::Refused(fault)
    }
}

impl From<NoMemory> for PageFault {
    ghost from_gives = { λ _ fault. fault ≡ Refused OutOfMemory };

    fn from(_error: NoMemory) -> PageFault {
        PageFault::Refused(ConfigFault::NoMemory)
    }
}

/// Performs the commands of a transcript, each for its process, in order, starting with the empty configuration.
/// Ignores the replies that the transcript has. Returns a page in HTML: a step for the beginning, and a step for each
/// entry. The step of an entry has its line with the new reply, its changes, the `waits` lines of all queues (why each
/// first message can't move), and a picture of the configuration after it. Keeps two views at a time. The time for an
/// entry grows with the size of the views before and after it. Fails if the page is over a limit, if the drivers are
/// not valid, or if it is out of memory.
pub fn page(alloc: Global, transcript: Transcript) -> Result<Vec<u8>, PageFault>
    ensures written { IfOk result (λ text. IsPageOf transcript text.items) }
    ensures few { OnOk result (length transcript.entries ≤ MAX_STEPS) }
    ensures short { IfOk result (λ text. length text.items ≤ MAX_PAGE) }
    ensures refused { IfErr result (RefusesPage transcript) }
{
    let entries = transcript.entries.as_slice();
    if entries.len() > MAX_STEPS {
        return Err(PageFault::TooLong(MAX_STEPS + 1));
    }
    let drivers = transcript.drivers.as_slice();
    let mut config = Config::new(alloc, drivers)?;
    let opening = transcript_opening(alloc, transcript.version, drivers)?;
    let mut out = Vec::new(alloc);
    put(&mut out, HEAD)?;
    let view = config.show()?;
    let picture = write_svg(alloc, drivers, &view)?;
    put_step(
        &mut out,
        b"beginning",
        opening.as_slice(),
        picture.as_slice(),
    )?;
    write_steps(alloc, &mut config, entries, view, &mut out)?;
    put(&mut out, FOOT)?;
    Ok(out)
}

// Performs the commands of all entries, and appends their steps. Also fails if the page would be too long.
fn write_steps(
    alloc: Global,
    config: &mut Config,
    entries: &[Entry],
    view: ConfigView,
    out: &mut Vec<u8>,
) -> Result<(), PageFault>
    requires { IsNow config.old view }
    ensures stepped { OnOk result ((drivers : List AnyDriver) (begun : List ℕ)
        → HasStepped drivers begun [] config.old out.old.items
        → HasStepped drivers begun entries.now config.new out.new.items) }
    ensures short { OnOk result (length out.new.items + length AnyFoot.now ≤ MAX_PAGE) }
    ensures stopped { IfErr result (λ fault. (drivers : List AnyDriver) (begun : List ℕ)
        → HasStepped drivers begun [] config.old out.old.items → IsStopped drivers begun entries.now fault) }
{
    let mut before = view;
    let mut number = 0usize;
    'steps: loop {
        if !fits(out) {
            return Err(PageFault::TooLong(number));
        }
        if number >= entries.len() {
            return Ok(());
        }
        before = write_step(alloc, config, number + 1, &entries[number], &before, out)?;
        number += 1;
    }
}

// Returns whether `out`, with the foot after it, is within the limit of bytes.
fn fits(out: &Vec<u8>) -> bool
    ensures short { OnTrue result (length out.now.items + length AnyFoot.now ≤ MAX_PAGE) }
    ensures long { OnFalse result (MAX_PAGE < length out.now.items + length AnyFoot.now) }
{
    out.len() <= MAX_PAGE - FOOT.len()
}

// Performs the command of entry `number`, counted from 1, and appends its step. Returns the view after the command.
fn write_step(
    alloc: Global,
    config: &mut Config,
    number: usize,
    entry: &Entry,
    before: &ConfigView,
    out: &mut Vec<u8>,
) -> Result<ConfigView, NoMemory>
    requires { IsNow config.old before.now }
    ensures now { IfOk result (IsNow config.new) }
    ensures performed { OnOk result
        (PerformsStep number entry.now config.old config.new out.old.items out.new.items) }
{
    let mut lines = Vec::new(alloc);
    let after = trace_entry(alloc, config, entry, before, true, &mut lines)?;
    let picture = write_svg(alloc, config.drivers(), &after)?;
    let mut name = Buffer::new();
    put_step(
        out,
        name.format(number).as_bytes(),
        lines.as_slice(),
        picture.as_slice(),
    )?;
    Ok(after)
}

fn put(out: &mut Vec<u8>, text: &[u8]) -> Result<(), NoMemory>
    ensures { OnOk result (out.new.items ≡ out.old.items ++ text.now) }
{
    out.extend_from_slice(text)?;
    Ok(())
}

// Appends a text with `&`, `<` and `>` escaped for HTML. Fails only if out of memory.
fn put_escaped(out: &mut Vec<u8>, text: &[u8]) -> Result<(), NoMemory>
    ensures { OnOk result (out.new.items ≡ out.old.items ++ escaped text.now) }
{
    for byte in text {
        put_escaped_byte(out, *byte)?;
    }
    Ok(())
}

fn put_escaped_byte(out: &mut Vec<u8>, byte: u8) -> Result<(), NoMemory>
    ensures { OnOk result (out.new.items ≡ out.old.items ++ escaped_byte byte) }
{
    match byte {
        b'&' => put(out, b"&amp;"),
        b'<' => put(out, b"&lt;"),
        b'>' => put(out, b"&gt;"),
        _ => put(out, &[byte]),
    }
}

// Appends a step with this name: the lines of a trace, and below them a picture. Fails only if out of memory; `out` may
// then contain a part of the step.
fn put_step(out: &mut Vec<u8>, name: &[u8], lines: &[u8], picture: &[u8]) -> Result<(), NoMemory>
    ensures { OnOk result (out.new.items ≡ out.old.items ++ step_text name.now lines.now picture.now) }
{
    put(out, b"<section id='")?;
    put(out, name)?;
    put(out, b"'>\n<h2>")?;
    put(out, name)?;
    put(out, b"</h2>\n<pre>")?;
    put_escaped(out, lines)?;
    put(out, b"</pre>\n")?;
    put(out, picture)?;
    put(out, b"</section>\n")?;
    Ok(())
}

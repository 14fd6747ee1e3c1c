//! The `waits` lines: each says why the first message of a queue can't move.

ghost use Rattle.std.specs.Prelude.{◌≡◌, ◌++◌, OnOk, Some};
ghost use Rattle.smx_model.specs.Settling.{IsSettled};
ghost use Rattle.smx_model.specs.Waits.{Reason as AnyReason, reason_at, reason_of_end};
ghost use Rattle.smx_model.specs.Waits as reason;
ghost use Rattle.smx_words.specs.Words.{line_of};
ghost use Rattle.smx_trace.specs.TraceWords.{reason_words};
ghost use Rattle.smx_trace.specs.Traces.{trace_lines_text, wait_line};

use crate::pieces::{name_of, put, put_number, put_place};
use smx_config::Config;
use smx_tables::is_mux;
use smx_types::{DriverSpec, NoMemory, Place, Side, StreamId};

fn put_hung(out: &mut Vec<u8>, drivers: &[DriverSpec], stream: StreamId) -> Result<(), NoMemory>
    ensures { OnOk result (out.new.items
        ≡ out.old.items ++ line_of (reason_words drivers.now (reason.HungStream stream))) }
{
    put(out, name_of(drivers, stream.driver))?;
    put(out, b" ")?;
    put_number(out, u32::from(stream.minor))?;
    put(out, b" has hung up")
}

// Appends why a message at this place has no next place.
fn put_reason_of_end(
    out: &mut Vec<u8>,
    config: &Config,
    place: Place,
    addr: u32,
) -> Result<(), NoMemory>
    ensures { OnOk result (out.new.items ≡ out.old.items ++ line_of (reason_words config.now.drivers
        (reason_of_end config.now.drivers config.now.configuration place addr))) }
{
    let drivers = config.drivers();
    let stream = place.stream;
    match place.side {
        Side::Write if is_mux(drivers, stream.driver as usize) => {
            match config.routed_link(stream.driver, addr) {
                Some(link) => put_hung(out, drivers, link.lower),
                None => {
                    put(out, b"no route for ")?;
                    put_number(out, addr)
                }
            }
        }
        Side::Write if config.is_hung(stream) => put_hung(out, drivers, stream),
        Side::Write => put(out, b"for the device"),
        Side::Read => match config.link_above(stream) {
            Some(link) => {
                put(out, b"nobody is bound to ")?;
                put_number(out, addr)?;
                put(out, b" on ")?;
                put(out, name_of(drivers, link.ctl.driver))
            }
            None => put(out, b"for a read"),
        },
    }
}

// If a message with this address can't move from the place, appends why.
fn put_reason(out: &mut Vec<u8>, config: &Config, place: Place, addr: u32) -> Result<(), NoMemory>
    ensures { OnOk result ((why : AnyReason)
        → reason_at config.now.drivers config.now.configuration place addr ≡ Some why
        → out.new.items ≡ out.old.items ++ line_of (reason_words config.now.drivers why)) }
{
    if let Some(next) = config.next_place(place, addr) {
        put_place(out, config.drivers(), next)?;
        return put(out, b" is full");
    }
    put_reason_of_end(out, config, place, addr)
}

/// If the place has messages, appends its `waits` line, indented by two spaces. The configuration must be settled: in
/// no queue can the first message move. So there is a reason why the first message of this place stays. Fails only if
/// out of memory.
pub fn write_wait(out: &mut Vec<u8>, config: &Config, place: Place) -> Result<(), NoMemory>
    requires { IsSettled config.now.drivers config.now.configuration }
    ensures { OnOk result (out.new.items ≡ out.old.items
        ++ trace_lines_text config.now.drivers (wait_line config.now.drivers config.now.configuration place)) }
{
    let Some(message) = config.first_message(place) else {
        return Ok(());
    };
    put(out, b"  waits ")?;
    put_place(out, config.drivers(), place)?;
    put(out, b" ")?;
    put_number(out, message.serial)?;
    put(out, b": ")?;
    put_reason(out, config, place, message.addr)?;
    put(out, b"\n")
}

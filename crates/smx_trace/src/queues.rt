//! The lines of queued messages, and the `waits` lines of their queues.

ghost use Rattle.std.specs.Prelude.{◌≡◌, ◌∷◌, ◌++◌, List, map, OnOk, Some};
ghost use Rattle.smx_model.specs.Configuration.{QueuedMessage as Queued};
ghost use Rattle.smx_model.specs.DriverList.{IsDriverList};
ghost use Rattle.smx_model.specs.KeptConfigurations.{IsKept};
ghost use Rattle.smx_model.specs.KnownStreams.{IsKnown};
ghost use Rattle.smx_model.specs.Views.{view_of_message};
ghost use Rattle.smx_trace.specs.Queues.{AreQueued, begins_with_place, queues_left, wait_below};
ghost use Rattle.smx_trace.specs.Traces.{trace_lines_text};

use crate::reasons::write_wait;
use smx_config::Config;
use smx_tables::{driver_of, same_side};
use smx_types::{DriverSpec, MessageLine, NoMemory, Place, StreamId};
use smx_words::Spell;

// Returns whether the first of `lines` is in the same queue as `line`.
fn begin_with_place(lines: &[MessageLine], line: &MessageLine) -> bool
    ensures { result ≡ begins_with_place lines.now line.now }
{
    match lines.first() {
        Some(next) => {
            next.driver == line.driver
                && next.minor == line.minor
                && same_side(next.side, line.side)
        }
        None => false,
    }
}

fn place_of(drivers: &[DriverSpec], line: &MessageLine) -> Option<Place>
    ensures { (h : Queued) → IsDriverList drivers.now → IsKnown drivers.now h.place.stream
        → line.now ≡ view_of_message drivers.now h → result ≡ Some h.place }
{
    let driver = driver_of(drivers, &line.driver).ok()?;
    if driver > 255 || line.minor > 255 {
        return None;
    }
    let stream = StreamId {
        driver: driver as u8,
        minor: line.minor as u8,
    };
    let side = line.side;
    Some(Place { stream, side })
}

// Appends the `waits` line of the queue of `line`, unless `rest` has more messages of this queue.
fn write_wait_of_last(
    out: &mut Vec<u8>,
    config: &Config,
    line: &MessageLine,
    rest: &[MessageLine],
) -> Result<(), NoMemory>
    requires { IsKept config.now.drivers config.now.configuration }
    ensures { OnOk result ((h : Queued) (hs : List Queued) → line.now ≡ view_of_message config.now.drivers h
        → rest.now ≡ map (view_of_message config.now.drivers) hs → AreQueued config.now.drivers (h ∷ hs)
        → out.new.items ≡ out.old.items ++ trace_lines_text config.now.drivers
        (wait_below config.now.drivers config.now.configuration h hs)) }
{
    let drivers = config.drivers();
    if begin_with_place(rest, line) {
        return Ok(());
    }
    match place_of(drivers, line) {
        Some(place) => write_wait(out, config, place),
        None => Ok(()),
    }
}

/// Appends the `waits` lines of all queues, indented by two spaces. `lines` must be the lines of all queued messages. If
/// `with_messages` is set, appends these lines too: the `waits` line of a queue comes after the last of its lines. Fails
/// only if out of memory.
pub fn write_queues(
    out: &mut Vec<u8>,
    config: &Config,
    lines: &[MessageLine],
    with_messages: bool,
) -> Result<(), NoMemory>
    requires kept { IsKept config.now.drivers config.now.configuration }
    requires lines { lines.now ≡ map (view_of_message config.now.drivers) config.now.configuration.flow }
    ensures { OnOk result (out.new.items ≡ out.old.items ++ queues_left with_messages config.now.drivers
        config.now.configuration config.now.configuration.flow) }
{
    let mut rest = lines;
    'lines: while let Some((line, more)) = rest.split_first() {
        if with_messages {
            line.write_line(out)?;
        }
        write_wait_of_last(out, config, line, more)?;
        rest = more;
    }
    Ok(())
}

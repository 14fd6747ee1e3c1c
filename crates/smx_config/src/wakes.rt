//! The places that a command may wake, as far as this is known before the command is performed.

ghost use Rattle.std.specs.Prelude.{◌≡◌};
ghost use Rattle.std.specs.Result.{result_unwrap_or};
ghost use Rattle.smx_tables.specs.MessageStreams.{message_stream};
ghost use Rattle.smx_config.specs.Wakes.{arrives, wakes_of};
ghost use Rattle.smx_config.specs.declared.wakes.Wakes.TheVariants as wakes;

use smx_tables::Tables;
use smx_types::{Command, Fault, Place, Process, Side, StreamId};

/// The change by which an accepted command may wake places. A command wakes a place if the first message there may
/// become able to move because of the command.
#[derive(Clone, Copy)]
pub enum Wakes {
    // The command makes no message able to move.
    Nothing,
    // A place may get another first message, or its first message may get another next place.
    Turns(Place),
    // The first message leaves a place whose messages have no next place.
    Leaves(Place),
    // On the write sides of a driver's streams, messages with this address may get another next place.
    TurnsWrites { driver: u8, addr: u32 },
    // On the read sides of the streams below a driver, messages with this address may get another next place.
    TurnsReads { driver: u8, addr: u32 },
    // Messages may be dropped on either side of a stream.
    Empties(StreamId),
    // Messages may be dropped at any place, so any full place may be freed.
    Frees,
}

// Returns the place that a message wakes when it arrives at this place. If the place already has messages, the first of
// them stays the first, and the arrival wakes no place.
fn arrives(tables: &Tables, place: Place) -> Wakes
    ensures { result ≡ arrives tables.now.configuration place }
{
    if tables.queues().front(place).is_some() {
        Wakes::Nothing
    } else {
        Wakes::Turns(place)
    }
}

// Returns the change by which the command may wake places, if it is accepted. Fails only if the command is refused for
// one of the streams that it names. Takes no memory.
pub fn wakes_of(
    tables: &Tables,
    process: Process,
    command: &Command,
    named: Result<StreamId, Fault>,
) -> Result<Wakes, Fault>
    requires { named ≡ message_stream tables.now.drivers tables.now.configuration process command.now }
    ensures { result_unwrap_or result wakes.Nothing
        ≡ wakes_of tables.now.drivers tables.now.configuration process command.now }
{
    Ok(match command {
        Command::OpenClone { .. }
        | Command::OpenMinor { .. }
        | Command::Dup { .. }
        | Command::Unbind { .. }
        | Command::Unroute { .. }
        | Command::Hangup { .. } => Wakes::Nothing,
        Command::Close { .. }
        | Command::CloseAll
        | Command::Unlink { .. }
        | Command::Punlink { .. } => Wakes::Frees,
        Command::Link { arg, .. } | Command::Plink { arg, .. } => Wakes::Turns(Place {
            stream: tables.stream_of(process, *arg)?,
            side: Side::Read,
        }),
        Command::Bind { fd, addr } => Wakes::TurnsReads {
            driver: tables.mux_stream(process, *fd)?.driver,
            addr: *addr,
        },
        Command::Route { fd, addr, .. } => Wakes::TurnsWrites {
            driver: tables.mux_stream(process, *fd)?.driver,
            addr: *addr,
        },
        Command::Write { .. } => arrives(
            tables,
            Place {
                stream: named?,
                side: Side::Write,
            },
        ),
        Command::Read { .. } => Wakes::Leaves(Place {
            stream: named?,
            side: Side::Read,
        }),
        Command::Flush { fd, .. } => Wakes::Empties(tables.live_stream(process, *fd)?),
        Command::Inject { .. } => arrives(
            tables,
            Place {
                stream: named?,
                side: Side::Read,
            },
        ),
        Command::Transmit { .. } => Wakes::Leaves(Place {
            stream: named?,
            side: Side::Write,
        }),
    })
}

//! The rows of queues: the messages that wait in them, and their bytes.

ghost use Rattle.std.specs.Prelude.{◌≡◌, ◌++◌, ◌∷◌, [], IfOk, OnOk, option_copied};
ghost use Rattle.smx_draw.specs.Queues.{driver_named, end_rows, goes_on, is_same, message_rows, queue_rows, row};

use crate::pieces::shown_length;
use crate::svg::block::{Row, Seat};
use smx_types::{DriverSpec, MessageLine, Name, NoMemory, Side};
use std::alloc::Global;

/// How many messages of a queue a picture shows at most.
pub const SHOWN: u32 = 8;

/// A row of a queue.
#[derive(Clone, Copy, Debug)]
pub struct QueueRow {
    pub driver: Name,
    pub minor: u32,
    pub side: Side,
    pub item: QueueItem,
}

/// The contents of a row of a queue.
#[derive(Clone, Copy, Debug)]
pub enum QueueItem {
    /// The serial, the address and the length of a message.
    Message(u32, u32, u32),
    /// The number of messages after those that are shown.
    More(u32),
    /// The number of bytes of all messages, and the high and the low water mark of the driver.
    Bytes(u32, u32, u32),
}

impl QueueRow {
    /// Returns where the row belongs.
    pub fn seat(&self) -> Seat {
        let row = match self.item {
            QueueItem::Message(..) => Row::Message,
            QueueItem::More(_) => Row::More,
            QueueItem::Bytes(..) => Row::Queue,
        };
        Seat::of_queue(&self.driver, self.minor, self.side, row)
    }
}

/// Returns the rows of the queues. The caller gives the messages sorted by queue. A queue has a row for each of its
/// first eight messages, one for the number of the other messages, if there are any, and one for the bytes of all its
/// messages. Fails only if it is out of memory.
pub fn queue_rows(
    alloc: Global,
    drivers: &[DriverSpec],
    messages: &[MessageLine],
) -> Result<Vec<QueueRow>, NoMemory>
    ensures { IfOk result (λ v. v.items ≡ queue_rows drivers.now messages.now) }
{
    let mut rows = Vec::new(alloc);
    // The number of messages of this queue up to now, and the number of their bytes.
    let mut count = 0u32;
    let mut bytes = 0u32;
    let mut rest = messages;
    'messages: while let Some((message, others)) = rest.split_first() {
        put_message(&mut rows, message, count)?;
        count = count.saturating_add(1);
        bytes = bytes.saturating_add(shown_length(message.message.bytes.as_slice()));
        if !goes_on(message, others) {
            put_end(&mut rows, drivers, message, count, bytes)?;
            count = 0;
            bytes = 0;
        }
        rest = others;
    }
    Ok(rows)
}

// Appends the row of a message, if it is one of the first eight of its queue. `before` is the number of messages before
// it in this queue.
fn put_message(rows: &mut Vec<QueueRow>, message: &MessageLine, before: u32) -> Result<(), NoMemory>
    ensures { OnOk result (rows.new.items ≡ rows.old.items ++ message_rows before message.now) }
{
    if before < SHOWN {
        let length = shown_length(message.message.bytes.as_slice());
        let item = QueueItem::Message(message.message.serial, message.message.addr, length);
        rows.push(row(message, item))?;
    }
    Ok(())
}

// Appends the rows of a queue that come after those of its messages: one for the number of messages without a row, if
// there are any, and one for the bytes of all messages.
fn put_end(
    rows: &mut Vec<QueueRow>,
    drivers: &[DriverSpec],
    last: &MessageLine,
    count: u32,
    bytes: u32,
) -> Result<(), NoMemory>
    ensures { OnOk result (rows.new.items ≡ rows.old.items ++ end_rows drivers.now last.now count bytes) }
{
    if count > SHOWN {
        rows.push(row(last, QueueItem::More(count - SHOWN)))?;
    }
    let (high, low) = match driver_named(drivers, &last.driver) {
        Some(driver) => (driver.high, driver.low),
        None => (0, 0),
    };
    rows.push(row(last, QueueItem::Bytes(bytes, high, low)))?;
    Ok(())
}

fn row(message: &MessageLine, item: QueueItem) -> QueueRow
    ensures { result ≡ row message.now item }
{
    QueueRow {
        driver: message.driver,
        minor: message.minor,
        side: message.side,
        item,
    }
}

// Returns whether the first of `others` is in the same queue as `message`.
fn goes_on(message: &MessageLine, others: &[MessageLine]) -> bool
    ensures { result ≡ goes_on message.now others.now }
{
    match others.first() {
        Some(other) => {
            message.driver == other.driver
                && message.minor == other.minor
                && is_same(message.side, other.side)
        }
        None => false,
    }
}

fn is_same(one: Side, other: Side) -> bool
    ensures { result ≡ is_same one other }
{
    one == other
}

fn driver_named<'a>(drivers: &'a [DriverSpec], name: &Name) -> Option<&'a DriverSpec>
    ensures { option_copied result ≡ driver_named drivers.now name.now }
{
    drivers.iter().find(|driver| driver.name == *name)
}

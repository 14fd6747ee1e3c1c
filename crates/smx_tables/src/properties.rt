//! Properties of drivers, by their numbers, and of links, and comparisons of streams and sides.

ghost use Rattle.std.specs.Prelude.{◌≡◌, ◌<◌, length, IfOk, position};
ghost use Rattle.std.specs.Str.{bytes_eq};
ghost use Rattle.smx_model.specs.Configuration.{same_side, same_stream};
ghost use Rattle.smx_model.specs.DriverList.{is_mux, max_of};
ghost use Rattle.smx_model.specs.Lookups.{driver_of};
ghost use Rattle.smx_model.specs.Standing.{is_persistent};

use smx_types::{DriverKind, DriverSpec, Fault, Link, LinkKind, Name, Side, StreamId};

fn position_of(drivers: &[DriverSpec], name: &Name) -> Option<usize>
    ensures { result ≡ position (λ d. bytes_eq d.name name.now) drivers.now }
{
    drivers.iter().position(|d| d.name == *name)
}

/// Returns the number of the driver with this name. Fails if there is no such driver.
pub fn driver_of(drivers: &[DriverSpec], name: &Name) -> Result<usize, Fault>
    ensures found { result ≡ driver_of drivers.now name.now }
    ensures in_range { IfOk result (λ n. n < length drivers.now) }
{
    match position_of(drivers, name) {
        Some(n) => Ok(n),
        None => Err(Fault::NoDriver),
    }
}

/// Returns whether the driver with this number is a multiplexing driver.
pub fn is_mux(drivers: &[DriverSpec], driver: usize) -> bool
    ensures { result ≡ is_mux drivers.now driver }
{
    match drivers.get(driver) {
        Some(d) => d.kind == DriverKind::Mux,
        None => false,
    }
}

// Returns the size in bytes of the driver's longest message, or 0 if there is no such driver.
pub fn max_of(drivers: &[DriverSpec], driver: usize) -> u32
    ensures { result ≡ max_of drivers.now driver }
{
    match drivers.get(driver) {
        Some(d) => d.max,
        None => 0,
    }
}

// Returns whether both streams have the same driver and the same minor.
pub fn same_stream(s: StreamId, t: StreamId) -> bool
    ensures { result ≡ same_stream s t }
{
    s.driver == t.driver && s.minor == t.minor
}

/// Returns whether both sides are write sides, or both are read sides.
pub fn same_side(a: Side, b: Side) -> bool
    ensures { result ≡ same_side a b }
{
    a == b
}

// Returns whether the link is persistent: it may outlive its controlling stream.
pub fn is_persistent(link: &Link) -> bool
    ensures { result ≡ is_persistent link.now }
{
    link.kind == LinkKind::Persistent
}

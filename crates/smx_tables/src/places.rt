//! The places to which messages go next, and the move of a message to another place.

ghost use Rattle.std.specs.Prelude.{◌≡◌, ◌≢◌, ◌<◌, false, length, option_copied, slice_get, IsSome, Some};
ghost use Rattle.smx_types.specs.declared.stream.Place.{Place as PlaceValue};
ghost use Rattle.smx_model.specs.Queues.{first_message, is_full};
ghost use Rattle.smx_model.specs.Hangups.{is_hung};
ghost use Rattle.smx_model.specs.Settling.{live_write_side, place_below, place_above, next_place, after_move_between};
ghost use Rattle.smx_model.specs.Waits.{routed_link};
ghost use Rattle.smx_queues.specs.PlaceLists.{places_of};

use crate::properties::is_mux;
use crate::tables::Tables;
use smx_types::{Link, Place, Side, StreamId};

impl Tables {
    /// Returns whether the stream's device has hung up. Does not allocate.
    pub fn is_hung(&self, stream: StreamId) -> bool
        ensures { result ≡ is_hung self.now.configuration.hungs stream }
    {
        self.lists.streams.is_hung(stream)
    }

    /// Returns the link that the driver's route for the address names, if there is one. Does not allocate.
    pub fn routed_link(&self, driver: u8, addr: u32) -> Option<&Link>
        ensures { option_copied result
            ≡ routed_link self.now.configuration.links self.now.configuration.routes driver addr }
    {
        let route = self.lists.routes.at(driver, addr)?;
        self.lists.links.get(route.id)
    }

    // Returns the write side of the stream, unless its device has hung up.
    fn live_write_side(&self, stream: StreamId) -> Option<Place>
        ensures { result ≡ live_write_side self.now.configuration.hungs stream }
    {
        if self.is_hung(stream) {
            return None;
        }
        let side = Side::Write;
        Some(Place { stream, side })
    }

    // Returns the place to which the driver's route for this address leads: the write side of the lower stream of the
    // route's link. Returns `None` if there is no such route, or if this lower stream is hung up.
    fn down(&self, driver: u8, addr: u32) -> Option<Place>
        ensures { result ≡ place_below self.now.configuration.links self.now.configuration.routes
            self.now.configuration.hungs driver addr }
    {
        let route = self.lists.routes.at(driver, addr)?;
        let link = self.lists.links.get(route.id)?;
        self.live_write_side(link.lower)
    }

    // Looks up the link above `stream`. Returns the read side of the stream that is bound to the address on the upper
    // driver of this link. Returns `None` if there is no such link or no such stream.
    fn up(&self, stream: StreamId, addr: u32) -> Option<Place>
        ensures { result ≡ place_above self.now.configuration.links self.now.configuration.binds stream addr }
    {
        let link = self.lists.links.above(stream)?;
        let binding = self.lists.binds.at(link.ctl.driver, addr)?;
        Some(Place {
            stream: StreamId {
                driver: binding.driver,
                minor: binding.minor,
            },
            side: Side::Read,
        })
    }

    /// Returns the place to which a message with this address goes next from `place`, even if that next place is full.
    /// Does not allocate.
    #[inline(always)]
    pub fn next_place(&self, place: Place, addr: u32) -> Option<Place>
        ensures { result ≡ next_place self.now.drivers self.now.configuration place addr }
    {
        let stream = place.stream;
        match place.side {
            Side::Write => {
                if is_mux(&self.drivers, stream.driver as usize) {
                    self.down(stream.driver, addr)
                } else {
                    None
                }
            }
            Side::Read => self.up(stream, addr),
        }
    }

    /// Moves the first message at place number `from` to the end of the queue at place number `to`, which is not full.
    /// Updates the full marks of both places. Does not allocate.
    #[inline(always)]
    pub fn carry(&mut self, from: usize, to: usize)
        requires from { from < length (places_of self.old.drivers) }
        requires to { to < length (places_of self.old.drivers) }
        requires differ { from ≢ to }
        requires some { (p : PlaceValue) → slice_get (places_of self.old.drivers) from ≡ Some p
            → IsSome (first_message self.old.configuration.flow p) }
        requires open { (q : PlaceValue) → slice_get (places_of self.old.drivers) to ≡ Some q
            → is_full self.old.configuration q ≡ false }
        ensures { (p q : PlaceValue) → slice_get (places_of self.old.drivers) from ≡ Some p
            → slice_get (places_of self.old.drivers) to ≡ Some q → self.new
            ≡ record self.old { configuration = after_move_between self.old.drivers self.old.configuration p q } }
    {
        self.lists.queues.move_front_at(from, to);
    }
}

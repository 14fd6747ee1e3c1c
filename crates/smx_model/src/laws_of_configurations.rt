//! Laws of configurations and of the commands that change them. Each law is the contract of a function that does
//! nothing.

ghost use Rattle.std.specs.Prelude.{◌≡◌, ◌≤◌, ◌<◌, ◌==◌, ◌↔◌, ℕ, true, false, List, [], length, filter};
ghost use Rattle.std.specs.Prelude.{Ok, IfOk, IsTrue};
ghost use Rattle.std.specs.List.{All, count_by};
ghost use Rattle.smx_types.specs.Versions.{is_hangup};
ghost use Rattle.smx_types.specs.declared.command.Command.{Command};
ghost use Rattle.smx_types.specs.declared.command.Command.TheVariants as command;
ghost use Rattle.smx_types.specs.declared.command.Entry.{Entry};
ghost use Rattle.smx_types.specs.declared.driver.DriverSpec.{DriverSpec};
ghost use Rattle.smx_types.specs.declared.limits.TheConstants.{MAX_DESCRIPTORS, MAX_LINKS, NUMBER_END};
ghost use Rattle.smx_types.specs.declared.link.Link.{Link};
ghost use Rattle.smx_types.specs.declared.reply.Reply.TheVariants as reply;
ghost use Rattle.smx_types.specs.declared.stream.StreamId.{StreamId};
ghost use Rattle.smx_model.specs.Commands.{done_outcome, outcome, step};
ghost use Rattle.smx_model.specs.Configuration.{Configuration};
ghost use Rattle.smx_model.specs.DriverList.{IsDriverList};
ghost use Rattle.smx_model.specs.Hangups.{is_hung, with_hung};
ghost use Rattle.smx_model.specs.Histories.{after};
ghost use Rattle.smx_model.specs.KeptConfigurations.{IsKept, IsSound};
ghost use Rattle.smx_model.specs.KnownStreams.{AreControllingKnown};
ghost use Rattle.smx_model.specs.Lookups.{leaf_stream};
ghost use Rattle.smx_model.specs.Paths.{Path, reaches};
ghost use Rattle.smx_model.specs.Removal.{after_sweep};
ghost use Rattle.smx_model.specs.Settling.{after_settling, IsSettled};
ghost use Rattle.smx_model.specs.SoundLinks.{AreLinksSound};
ghost use Rattle.smx_model.specs.Standing.{exists, Stands};
ghost use Rattle.smx_model.specs.Swept.{IsSwept};
ghost use Rattle.smx_model.specs.Views.{view};
ghost use Rattle.smx_model.specs.Worked.DriverLists.{as_many_as_may_be, of_one_name, one_too_many, without_minors};

/// A configuration can have 128 drivers, each at its limits.
#[tactic(auto, using(crate::proofs::UnlawfulLemmas::as_many))]
pub fn most_drivers_are_allowed()
    ensures { IsDriverList as_many_as_may_be }
{}

/// No configuration can have 129 drivers, an invalid driver, or two drivers with the same name.
pub fn some_drivers_are_refused()
    ensures many { IsDriverList one_too_many → ⊥ }
    ensures invalid { IsDriverList without_minors → ⊥ }
    ensures one_name { IsDriverList of_one_name → ⊥ }
{}

/// After any commands the invariant holds. Among other things it says: there is no cycle, everything belongs to streams
/// that exist, each list is in order, and no message can move.
#[tactic(auto, using(crate::proofs::KeptLemmas::always_is_kept))]
pub fn configurations_are_kept()
    ensures { (drivers : List DriverSpec) (history : List Entry) → IsKept drivers (after drivers history) }
{}

/// After any commands there are at most 1,024 links, and each process has at most 16 descriptors, with numbers below
/// 16. The next link's id and the next message's serial are at most 4,294,967,295.
pub fn limits_hold()
    ensures links { (drivers : List DriverSpec) (history : List Entry)
        → length (after drivers history).links ≤ MAX_LINKS }
    ensures descriptors { (drivers : List DriverSpec) (history : List Entry) (process : ℕ)
        → count_by (λ d. d.process == process) (after drivers history).fds ≤ MAX_DESCRIPTORS }
    ensures numbers { (drivers : List DriverSpec) (history : List Entry)
        → All (λ d. d.fd < MAX_DESCRIPTORS) (after drivers history).fds }
    ensures ids { (drivers : List DriverSpec) (history : List Entry) → (after drivers history).next_id ≤ NUMBER_END }
    ensures serials { (drivers : List DriverSpec) (history : List Entry)
        → (after drivers history).next_serial ≤ NUMBER_END }
{}

/// After any commands no message can move. Settling makes at most as many moves as there are messages times drivers,
/// and these moves are enough.
pub fn settling_ends()
    ensures { (drivers : List DriverSpec) (history : List Entry) → IsSettled drivers (after drivers history) }
{}

/// Settling a sound configuration makes at most as many moves as there are messages times drivers. Afterwards no
/// message can move, and the configuration is still sound.
#[tactic(auto, using(crate::proofs::KeptLemmas::settled_kept))]
pub fn settling_suffices()
    ensures { (drivers : List DriverSpec) (c : Configuration) → IsSound drivers c
        → IsKept drivers (after_settling drivers c) }
{}

/// If a configuration is sound, another sweep of the outcome of an accepted command changes nothing. (A sweep removes
/// everything that belongs to streams that don't exist.)
pub fn outcomes_are_swept()
    ensures { (drivers : List DriverSpec) (c : Configuration) (process : ℕ) (command : Command) → IsSound drivers c
        → IfOk (outcome drivers c process command) (λ x. after_sweep drivers x.0 ≡ x.0) }
{}

/// If a change leaves nothing to sweep and keeps the flow (all queued messages), its outcome is the changed
/// configuration with the reply `Done`, which names no dropped message.
#[tactic(auto, using(crate::proofs::DropLemmas::done_idle))]
pub fn idle_changes_drop_none()
    ensures { (drivers : List DriverSpec) (c new : Configuration) → IsSwept drivers new → new.flow ≡ c.flow
        → done_outcome drivers c new ≡ Ok (new, reply.Done []) }
{}

/// A hangup drops and moves no message: afterwards the stream is hung up, and everything else is unchanged. A second
/// hangup of the stream changes nothing at all.
pub fn hangups_change_nothing_else()
    ensures first { (drivers : List DriverSpec) (c : Configuration) (process : ℕ) (name : List ℕ) (minor : ℕ)
        (s : StreamId) → IsKept drivers c → leaf_stream drivers c name minor ≡ Ok s
        → step drivers c process (command.Hangup name minor)
        ≡ (record c { hungs = with_hung s c.hungs }, reply.Done []) }
    ensures second { (drivers : List DriverSpec) (c : Configuration) (process : ℕ) (name : List ℕ) (minor : ℕ)
        (s : StreamId) → IsKept drivers c → leaf_stream drivers c name minor ≡ Ok s → is_hung c.hungs s ≡ true
        → step drivers c process (command.Hangup name minor) ≡ (c, reply.Done []) }
{}

/// A command other than `hangup` hangs up no stream. After the command, a stream is hung up exactly if it was hung up
/// before and still exists.
pub fn hung_up_streams_go_with_their_end()
    ensures { (drivers : List DriverSpec) (c : Configuration) (process : ℕ) (k : Command) → IsKept drivers c
        → is_hangup k ≡ false → (step drivers c process k).0.hungs
        ≡ filter (λ s. exists drivers (step drivers c process k).0 s) c.hungs }
{}

/// A climb is one step up, from a stream below an ordinary link to the controlling stream of the link. To find each
/// stream that exists, it is enough to make as many climbs as there are drivers: more climbs find no other stream. This
/// needs two things. Links are sound (no cycle, no stream below two links), and the controlling stream of each link is
/// a stream that the drivers have. The configuration need not be swept: it may still have things that belong to streams
/// that don't exist.
#[tactic(auto, using(crate::proofs::KeptLemmas::exists_is_stands))]
pub fn climbs_suffice()
    ensures { (drivers : List DriverSpec) (c : Configuration) (s : StreamId) → AreLinksSound c.links
        → AreControllingKnown drivers c.links
        → (IsTrue (exists drivers c s) ↔ Stands c s) }
{}

/// After any commands, to find each stream that exists, it is enough to make as many climbs as there are drivers.
#[tactic(auto, using(crate::proofs::KeptLemmas::always_exists_is_stands))]
pub fn climbs_always_suffice()
    ensures { (drivers : List DriverSpec) (history : List Entry) (s : StreamId)
        → (IsTrue (exists drivers (after drivers history) s) ↔ Stands (after drivers history) s) }
{}

/// The test for cycles, `reaches`, is true exactly if a path of links leads from the first driver to the second.
#[tactic(auto, using(crate::proofs::PathLemmas::reaches_path, crate::proofs::PathLemmas::path_reaches))]
pub fn reaches_is_path()
    ensures { (links : List Link) (a b : ℕ) → IsTrue (reaches links a b) ↔ Path links a b }
{}

/// Two sound configurations of the same valid drivers are equal if they have the same view. Sound means: they satisfy
/// the invariant of configurations, except that messages may be movable.
#[tactic(auto, using(crate::proofs::KeptLemmas::view_is_of_one))]
pub fn views_tell_configurations_apart()
    ensures { (drivers : List DriverSpec) (c d : Configuration) → IsDriverList drivers
        → IsSound drivers c → IsSound drivers d
        → view drivers c ≡ view drivers d → c ≡ d }
{}

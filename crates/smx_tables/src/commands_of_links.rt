//! Making and removing links.

ghost use Rattle.std.specs.Prelude.{◌≡◌, map, filter, IfOk, Ok};
ghost use Rattle.std.specs.List.{list_any};
ghost use Rattle.smx_types.specs.declared.command.Which.TheVariants as which;
ghost use Rattle.smx_model.specs.Commands.{link_outcome};
ghost use Rattle.smx_model.specs.KeptConfigurations.{IsSound};
ghost use Rattle.smx_model.specs.SoundLinks.{AreIdsRising};
ghost use Rattle.smx_tables.specs.UnlinkTargets.{may_have_links, may_unlink, is_target, are_there, unlinks};
ghost use Rattle.smx_tables.specs.Refinement.{HasOutcome, answer_of};

use crate::properties::{is_mux, is_persistent, same_stream};
use crate::removal::remove_links;
use crate::step_error::{StepError, refuse};
use crate::sweep::{reserve_for_sweep, sweep_and_reply};
use crate::tables::Tables;
use smx_links::LinkTable;
use smx_types::{Fault, Link, LinkKind, NoMemory, Process, Reply, StreamId, Which};
use std::alloc::Global;

// Returns whether `unlink` (for ordinary links) or `punlink` (for persistent ones) may remove `link` through `stream`.
fn may_unlink(kind: LinkKind, stream: StreamId, link: &Link) -> bool
    ensures { result ≡ may_unlink kind stream link.now }
{
    match kind {
        LinkKind::Ordinary => !is_persistent(link) && same_stream(link.ctl, stream),
        LinkKind::Persistent => is_persistent(link) && link.ctl.driver == stream.driver,
    }
}

// Returns the ids of all links that the command for this kind may remove through `stream`.
fn all_targets(
    alloc: Global,
    links: &LinkTable,
    kind: LinkKind,
    stream: StreamId,
) -> Result<Vec<u32>, NoMemory>
    ensures { IfOk result (λ v. v.items ≡ map (λ l. l.id) (filter (may_unlink kind stream) links.now.links)) }
{
    let all = links.links().iter();
    let goes = all.filter(|link| may_unlink(kind, stream, link));
    Ok(goes.map(|link| link.id).collect(alloc)?)
}

// Returns the ids of the links that the command removes.
fn targets(
    alloc: Global,
    links: &LinkTable,
    which: Which,
    kind: LinkKind,
    stream: StreamId,
) -> Result<Vec<u32>, NoMemory>
    requires rise { AreIdsRising links.now.links links.now.next_id }
    requires there { are_there which kind stream links.now.links ≡ Ok tt }
    ensures { IfOk result (λ v. v.items ≡ map (λ l. l.id) (filter (is_target which kind stream) links.now.links)) }
{
    match which {
        Which::All => all_targets(alloc, links, kind, stream),
        Which::Id(id) => Ok(Vec::from_slice(alloc, &[id])?),
    }
}

// Returns whether there is a link with this id that the command may remove through `stream`.
fn has_target(links: &LinkTable, id: u32, kind: LinkKind, stream: StreamId) -> bool
    ensures { result ≡ list_any (is_target (which.Id id) kind stream) links.now.links }
{
    match links.get(id) {
        Some(link) => may_unlink(kind, stream, link),
        None => false,
    }
}

impl Tables {
    // Checks whether streams may be linked below this one. Fails with the first refusal that applies.
    fn check_upper(&self, upper: StreamId) -> Result<(), Fault>
        ensures { result ≡ may_have_links self.now.drivers self.now.configuration upper }
    {
        refuse(Fault::Below, self.lists.links.is_below(upper))?;
        refuse(Fault::HungUp, self.lists.streams.is_hung(upper))?;
        refuse(Fault::NotMux, !is_mux(&self.drivers, upper.driver as usize))
    }

    // Links the stream of descriptor `arg` below the stream of `fd`, by a link of this kind.
    pub(crate) fn link_as(
        &mut self,
        process: Process,
        fd: u32,
        arg: u32,
        kind: LinkKind,
        reply: &mut Reply,
    ) -> Result<(), StepError>
        requires { IsSound self.old.drivers self.old.configuration }
        ensures { HasOutcome self.old self.new
            (link_outcome self.old.drivers self.old.configuration process fd arg kind) (answer_of result reply.new) }
    {
        let upper = self.stream_of(process, fd)?;
        let lower = self.stream_of(process, arg)?;
        self.check_upper(upper)?;
        let id = self.lists.links.try_link(upper, lower, kind)?;
        self.lists.streams.hold(lower);
        *reply = Reply::Id(id);
        Ok(())
    }

    // If the command names an id, fails unless there is a link with this id that the command may remove. If the command
    // names `all`, there need not be a link.
    pub(crate) fn check_targets(
        &self,
        which: Which,
        kind: LinkKind,
        stream: StreamId,
    ) -> Result<(), Fault>
        ensures { result ≡ are_there which kind stream self.now.configuration.links }
    {
        match which {
            Which::All => Ok(()),
            Which::Id(id) => refuse(
                Fault::NoLink,
                !has_target(&self.lists.links, id, kind, stream),
            ),
        }
    }

    // Removes links of this kind.
    pub(crate) fn unlink_as(
        &mut self,
        process: Process,
        fd: u32,
        which: Which,
        kind: LinkKind,
        reply: &mut Reply,
    ) -> Result<(), StepError>
        requires { IsSound self.old.drivers self.old.configuration }
        ensures { HasOutcome self.old self.new
            (unlinks self.old.drivers self.old.configuration process fd which kind) (answer_of result reply.new) }
    {
        let stream = self.mux_stream(process, fd)?;
        self.check_targets(which, kind, stream)?;
        let gone = targets(self.alloc, &self.lists.links, which, kind, stream)?;
        reserve_for_sweep(&mut self.room, &self.lists, gone.len())?;
        let room = &mut self.room;
        remove_links(&mut self.lists, &gone, &mut room.touched, &mut room.dropped);
        *reply = sweep_and_reply(&self.drivers, &mut self.lists, room);
        Ok(())
    }
}

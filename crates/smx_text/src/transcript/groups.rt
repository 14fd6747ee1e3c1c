//! Adds the lines after `next` to the draft of a transcript. They come in groups, in this order: descriptors, links,
//! bindings, routes, messages, full places, hung-up streams.

ghost use Rattle.std.specs.Prelude.{◌≡◌, ◌≢◌, ◌∷◌, ◌++◌, [], ℕ, true, OnOk, IfErr, if◌then◌else◌};
ghost use Rattle.smx_types.specs.declared.command.Entry.{Entry as AnyEntry};
ghost use Rattle.smx_types.specs.declared.view.MessageLine.{MessageLine as AnyMessage};
ghost use Rattle.smx_words.specs.LineReading.{IsReadAs};
ghost use Rattle.smx_words.specs.Words.{line_of};
ghost use Rattle.smx_words.specs.Spelling.{entry_words, message_words, driver_words, next_words, hung_words};
ghost use Rattle.smx_words.specs.Spellable.{FitsDriver, FitsEntryIn, FitsMessage, FitsNext};
ghost use Rattle.smx_text.specs.TranscriptText.{FitsHungIn};
ghost use Rattle.smx_text.specs.Grammar.{IsBegun, line_text};
ghost use Rattle.smx_text.specs.Reading.{AnswersText};
ghost use Rattle.smx_text.specs.Drafts.{lines, takes_fds, takes_links, takes_binds, takes_routes, takes_msgs};
ghost use Rattle.smx_text.specs.Drafts.{takes_fulls, takes_hungs, grammar_of};
ghost use Rattle.smx_types.specs.declared.driver.DriverSpec.{DriverSpec as AnyDriver};
ghost use Rattle.smx_text.specs.TranscriptLines.{Config as ConfigLine, End};
ghost use Rattle.smx_text.specs.declared.text_fault.Cause.TheVariants.{Form, NoMemory};

use super::{Stage, TranscriptDraft};
use crate::text_fault::Cause;
use smx_types::{HungLine, Items, Version};
use smx_words::{bind_of, descriptor_of, full_of, hung_of, link_of, route_of};

impl TranscriptDraft {
    // Parses the line of a hung-up stream, which only version 2 has.
    fn read_hung(&self, text: &[u8]) -> Option<HungLine>
        ensures { IsReadAs (FitsHungIn self.now.transcript.version) hung_words text.now result }
    {
        match self.transcript.version {
            Version::V1 => None,
            Version::V2 => hung_of(text),
        }
    }

    // Adds a line of one of the groups, except the group of messages.
    pub fn add_to_group(&mut self, text: &[u8]) -> Result<(), Cause>
        requires begun { IsBegun (grammar_of self.old) (lines self.old) }
        requires no_entry { (e : AnyEntry) → FitsEntryIn self.old.transcript.version e
            → text.now ≢ line_of (entry_words e) }
        requires no_message { (m : AnyMessage) → FitsMessage m → text.now ≢ line_of (message_words m) }
        requires no_driver { (d : AnyDriver) → FitsDriver d → text.now ≢ line_of (driver_words d) }
        requires no_config { text.now ≢ line_text (grammar_of self.old) ConfigLine }
        requires no_next { (n : ℕ × ℕ) → FitsNext n → text.now ≢ line_of (next_words n) }
        requires no_end { text.now ≢ line_text (grammar_of self.old) End }
        ensures answers { AnswersText (grammar_of self.old) (lines self.old) text.now (lines self.new) result }
        ensures version { OnOk result (self.new.transcript.version ≡ self.old.transcript.version) }
    {
        if let Some(fd) = descriptor_of(text) {
            return push_if(self.takes_fds(), &mut self.transcript.view.fds, fd);
        }
        if let Some(link) = link_of(text) {
            return push_if(self.takes_links(), &mut self.transcript.view.links, link);
        }
        if let Some(bind) = bind_of(text) {
            return push_if(self.takes_binds(), &mut self.transcript.view.binds, bind);
        }
        if let Some(route) = route_of(text) {
            return push_if(self.takes_routes(), &mut self.transcript.view.routes, route);
        }
        if let Some(full) = full_of(text) {
            return push_if(self.takes_fulls(), &mut self.transcript.view.fulls, full);
        }
        match self.read_hung(text) {
            Some(hung) => push_if(self.takes_hungs(), &mut self.transcript.view.hungs, hung),
            None => Err(Cause::Form),
        }
    }

    // Each of the functions below returns whether a line of a group may follow: `next` was read, and the later groups
    // have no line yet. No group comes after the hung-up streams.
    fn takes_hungs(&self) -> bool
        ensures { result ≡ takes_hungs self.now }
    {
        self.stage == Stage::View
    }

    fn takes_fulls(&self) -> bool
        ensures { result ≡ takes_fulls self.now }
    {
        self.takes_hungs() && self.transcript.view.hungs.as_slice().is_empty()
    }

    pub fn takes_msgs(&self) -> bool
        ensures { result ≡ takes_msgs self.now }
    {
        self.takes_fulls() && self.transcript.view.fulls.as_slice().is_empty()
    }

    fn takes_routes(&self) -> bool
        ensures { result ≡ takes_routes self.now }
    {
        self.takes_msgs() && self.transcript.view.msgs.as_slice().is_empty()
    }

    fn takes_binds(&self) -> bool
        ensures { result ≡ takes_binds self.now }
    {
        self.takes_routes() && self.transcript.view.routes.as_slice().is_empty()
    }

    fn takes_links(&self) -> bool
        ensures { result ≡ takes_links self.now }
    {
        self.takes_binds() && self.transcript.view.binds.as_slice().is_empty()
    }

    fn takes_fds(&self) -> bool
        ensures { result ≡ takes_fds self.now }
    {
        self.takes_links() && self.transcript.view.links.as_slice().is_empty()
    }
}

// Appends a line to its group if `takes` is true. Otherwise fails with `Form`.
pub fn push_if<T: Drop>(takes: bool, group: &mut Items<T>, line: T) -> Result<(), Cause>
    ensures pushed { OnOk result ((takes ≡ true) × (group.new ≡ group.old ++ line ∷ [])) }
    ensures refused { IfErr result (λ why. why ≡ if takes then NoMemory else Form) }
{
    if !takes {
        return Err(Cause::Form);
    }
    group.push(line)?;
    Ok(())
}

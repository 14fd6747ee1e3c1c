//! Binding streams to addresses, and routing addresses to links.

ghost use Rattle.std.specs.Prelude.{◌≡◌, ◌≢◌, ◌==◌, ◌&&◌, Err};
ghost use Rattle.std.specs.List.{list_any};
ghost use Rattle.smx_types.specs.declared.command.Command.TheVariants as command;
ghost use Rattle.smx_model.specs.KeptConfigurations.{IsSound};
ghost use Rattle.smx_tables.specs.declared.step_error.StepError.TheVariants as step_error;
ghost use Rattle.smx_tables.specs.Refinement.{Refines, answer_of};

use crate::step_error::{StepError, done, refuse};
use crate::tables::Tables;
use smx_types::{Fault, Process, Reply};

// None of these commands needs a sweep (the removal of what belongs to streams that no longer exist). The stream of the
// descriptor exists before and after the command, and a route keeps no stream in existence.
impl Tables {
    pub(crate) fn bind(
        &mut self,
        process: Process,
        fd: u32,
        addr: u32,
        reply: &mut Reply,
    ) -> Result<(), StepError>
        requires { IsSound self.old.drivers self.old.configuration }
        ensures { Refines self.old self.new process (command.Bind fd addr) (answer_of result reply.new) }
    {
        let stream = self.mux_stream(process, fd)?;
        refuse(Fault::AddressInUse, self.lists.binds.is_taken(stream, addr))?;
        self.lists.binds.bind(stream, addr)?;
        *reply = done(self.alloc);
        Ok(())
    }

    pub(crate) fn unbind(
        &mut self,
        process: Process,
        fd: u32,
        reply: &mut Reply,
    ) -> Result<(), StepError>
        requires { IsSound self.old.drivers self.old.configuration }
        ensures refines { Refines self.old self.new process (command.Unbind fd) (answer_of result reply.new) }
        ensures in_place { result ≢ Err step_error.NoMemory }
    {
        let stream = self.mux_stream(process, fd)?;
        let Some(_binding) = self.lists.binds.unbind(stream) else {
            return Err(StepError::Refused(Fault::Unbound));
        };
        *reply = done(self.alloc);
        Ok(())
    }

    fn has_link(&self, driver: u8, id: u32) -> bool
        ensures { result ≡ list_any (λ l. (l.id == id) && (l.ctl.driver == driver)) self.now.configuration.links }
    {
        match self.lists.links.get(id) {
            Some(link) => link.ctl.driver == driver,
            None => false,
        }
    }

    pub(crate) fn route(
        &mut self,
        process: Process,
        fd: u32,
        addr: u32,
        id: u32,
        reply: &mut Reply,
    ) -> Result<(), StepError>
        requires { IsSound self.old.drivers self.old.configuration }
        ensures { Refines self.old self.new process (command.Route fd addr id) (answer_of result reply.new) }
    {
        let stream = self.mux_stream(process, fd)?;
        refuse(Fault::NoLink, !self.has_link(stream.driver, id))?;
        self.lists.routes.route(stream.driver, addr, id)?;
        *reply = done(self.alloc);
        Ok(())
    }

    pub(crate) fn unroute(
        &mut self,
        process: Process,
        fd: u32,
        addr: u32,
        reply: &mut Reply,
    ) -> Result<(), StepError>
        requires { IsSound self.old.drivers self.old.configuration }
        ensures refines { Refines self.old self.new process (command.Unroute fd addr) (answer_of result reply.new) }
        ensures in_place { result ≢ Err step_error.NoMemory }
    {
        let stream = self.mux_stream(process, fd)?;
        let Some(_route) = self.lists.routes.unroute(stream.driver, addr) else {
            return Err(StepError::Refused(Fault::Unrouted));
        };
        *reply = done(self.alloc);
        Ok(())
    }
}

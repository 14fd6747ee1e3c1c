//! The reasons why a command is not performed, and two results of commands: a refusal, and `done` without dropped
//! messages.

ghost use Rattle.std.specs.Prelude.{◌≡◌, []};
ghost use Rattle.smx_types.specs.declared.reply.Reply.TheVariants.{Done};
ghost use Rattle.smx_model.specs.Outcomes.{refuse};
ghost use Rattle.smx_tables.specs.StepErrors.{of_link_fault, of_stream_fault};
ghost use Rattle.smx_tables.specs.declared.step_error.StepError.TheVariants as step_error;

use smx_links::LinkFault;
use smx_streams::StreamFault;
use smx_types::{Fault, NoMemory, Reply, Serials};
use std::alloc::Global;

/// The command was refused with this fault, or an allocation failed.
#[derive(Clone, Copy)]
pub enum StepError {
    Refused(Fault),
    NoMemory,
}

// Refuses with this fault if the test is true.
pub fn refuse(fault: Fault, test: bool) -> Result<(), Fault>
    ensures { result ≡ refuse fault test }
{
    if test { Err(fault) } else { Ok(()) }
}

// Returns `Reply::Done` without dropped messages. Does not allocate.
pub fn done(alloc: Global) -> Reply
    ensures { result ≡ Done [] }
{
    let dropped = Serials::new(alloc);
    Reply::Done { dropped }
}

impl From<Fault> for StepError {
    ghost from_gives = { λ f e. e ≡ step_error.Refused f };

    fn from(fault: Fault) -> StepError {
        StepError::Refused(fault)
    }
}

impl From<NoMemory> for StepError {
    ghost from_gives = { λ _ e. e ≡ step_error.NoMemory };

    fn from(_e: NoMemory) -> StepError {
        StepError::NoMemory
    }
}

impl From<LinkFault> for StepError {
    ghost from_gives = { λ f e. e ≡ of_link_fault f };

    fn from(fault: LinkFault) -> StepError {
        match fault {
            LinkFault::Already => StepError::Refused(Fault::AlreadyBelow),
            LinkFault::Cycle => StepError::Refused(Fault::Cycle),
            LinkFault::Full => StepError::Refused(Fault::TooManyLinks),
            LinkFault::NoMemory => StepError::NoMemory,
        }
    }
}

impl From<StreamFault> for StepError {
    ghost from_gives = { λ f e. e ≡ of_stream_fault f };

    fn from(fault: StreamFault) -> StepError {
        match fault {
            StreamFault::NoDriver => StepError::Refused(Fault::NoDriver),
            StreamFault::NoMinor => StepError::Refused(Fault::NoMinor),
            StreamFault::BadDescriptor => StepError::Refused(Fault::BadDescriptor),
            StreamFault::TooManyDescriptors => StepError::Refused(Fault::TooManyDescriptors),
            StreamFault::NoMemory => StepError::NoMemory,
        }
    }
}

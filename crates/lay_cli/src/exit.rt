//! How the program ends.

use crate::status::Status;
use std::io::Eprint;
use std::marker::Model;
use std::process::{ExitCode, Termination};

/// What a program's `main` returns: the exit status is the number of the status. `top` makes one, and memory that runs out before it.
#[derive(Drop)]
pub struct Exit {
    pub(crate) status: Status,
}

impl Model for Exit {
    ghost use Rattle.lay_cli.specs.declared.status.Status.{Status};

    ghost Value = { Status };

    ghost view = { λ e. e.status };
}

impl Exit {
    ghost use Rattle.std.specs.Prelude.{◌≡◌};

    /// That of a program that has no memory for its words.
    pub fn without_memory() -> Exit
        ensures { result ≡ Status.NoMemory }
    {
        Exit {
            status: Status::NoMemory,
        }
    }

    /// How the call ended.
    pub fn status(&self) -> Status
        ensures { result ≡ self.now }
    {
        self.status
    }
}

impl Termination for Exit {
    ghost use Rattle.std.specs.Prelude.{◌≡◌};
    ghost use Rattle.std.specs.Process.{exit_status};
    ghost use Rattle.lay_cli.specs.Statuses.{number_of};

    /// The exit status, which is the number of the status. It writes nothing.
    fn report<R: Eprint>(self, _rt: &R) -> ExitCode
        ensures { exit_status result ≡ number_of self }
    {
        ExitCode::from(self.status.number())
    }
}

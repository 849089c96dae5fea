// What a certificate's text is read for.
ghost use Rattle.std.specs.Prelude.{◌≡◌};
ghost use Rattle.fr_cert.specs.Keys.{names_in};

use fr_instr::Names;
use fr_program::App;
use std::alloc::Global;
use std::marker::Model;

/// The application that a text is read for, with its names.
#[derive(Drop)]
pub(crate) struct Scope<'a> {
    pub(crate) alloc: Global,
    pub(crate) app: &'a App,
    pub(crate) names: &'a Names,
    ghost named: { names.now ≡ names_in app.now },
}

impl<'a> Model for Scope<'a> {
    ghost use Rattle.fr_program.specs.Program.{Program};

    ghost Value = { Program };

    ghost view = { λ s. s.app.now };
}

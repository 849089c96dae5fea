// What a certificate has.
ghost use Rattle.std.specs.Prelude.{◌↔◌, IsTrue};

use crate::ends::Ends;
use fr_notes::Notes;
use fr_program::App;
use std::marker::Model;

/// A note for each point of an application, and guards for the ends of its buffers.
#[derive(Drop)]
pub struct Certificate {
    pub notes: Notes,
    pub ends: Ends,
}

impl Model for Certificate {
    ghost use Rattle.fr_ends.specs.Certificate.{Certificate as CertificateOf};

    ghost Value = { CertificateOf };

    ghost view = { λ c. record { notes = c.notes; ends = c.ends } };
}

impl Certificate {
    ghost use Rattle.fr_ends.specs.Fits.{CertificateFits};

    /// Whether it could have been made for the application: one note for each point, each of which
    /// fits, and guards that fit. Takes no memory.
    pub fn fits(&self, app: &App) -> bool
        ensures { IsTrue result ↔ CertificateFits app.now self.now }
    {
        self.notes.fits(app) && self.ends.fits(app)
    }
}

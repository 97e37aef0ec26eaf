ghost use Rattle.std.specs.Prelude.{◌≡◌, true};
ghost use Rattle.lv_system.specs.Fits.{fits_parts};

use crate::parts::Parts;
use std::marker::Model;

/// A system, which contracts see as its parts. They fit together.
#[derive(Debug, Drop)]
pub struct System {
    parts: Parts,
}

impl Model for System {
    ghost use Rattle.lv_system.specs.declared.parts.Parts.{Parts};
    ghost use Rattle.std.specs.Prelude.{◌≡◌, true};
    ghost use Rattle.lv_system.specs.contracts.parts.Parts.{the_row};
    ghost use Rattle.lv_system.specs.Fits.{fits_parts};

    ghost Value = { Parts };

    ghost coded = { the_row.coded };

    ghost view = { λ s. s.parts };

    ghost invariant = { λ s. fits_parts s.parts ≡ true };
}

impl System {
    /// The system of these parts, which stay where they are. Takes no memory. That the parts fit together
    /// is what `fits` tells.
    pub fn new(parts: Parts) -> System
        requires { fits_parts parts ≡ true }
        ensures { result ≡ parts }
    {
        System { parts }
    }

    /// The parts of the system. Takes no memory.
    pub fn parts(&self) -> &Parts
        ensures value { result.now ≡ self.now }
        // what holds of every system
        ensures fitting { fits_parts self.now ≡ true }
    {
        &self.parts
    }
}

//! What has a name.
ghost use Rattle.std.specs.Prelude.{◌≡◌, ℕ, List};

use crate::parts::{Action, Fair, Invariant, LabelDecl, Sort, Symbol, WitnessDecl};

/// An item of a system that has a name.
pub trait HasName {
    ghost text: { Self → List ℕ };

    /// The bytes of the name. Takes no memory.
    fn name(&self) -> &[u8]
        ensures { result.now ≡ text self.now };
}

impl HasName for Sort {
    ghost text = { λ it. it.name };

    fn name(&self) -> &[u8] {
        self.name.as_slice()
    }
}

impl HasName for Symbol {
    ghost text = { λ it. it.name };

    fn name(&self) -> &[u8] {
        self.name.as_slice()
    }
}

impl HasName for Action {
    ghost text = { λ it. it.name };

    fn name(&self) -> &[u8] {
        self.name.as_slice()
    }
}

impl HasName for Fair {
    ghost text = { λ it. it.name };

    fn name(&self) -> &[u8] {
        self.name.as_slice()
    }
}

impl HasName for LabelDecl {
    ghost text = { λ it. it.name };

    fn name(&self) -> &[u8] {
        self.name.as_slice()
    }
}

impl HasName for WitnessDecl {
    ghost text = { λ it. it.name };

    fn name(&self) -> &[u8] {
        self.name.as_slice()
    }
}

impl HasName for Invariant {
    ghost text = { λ it. it.name };

    fn name(&self) -> &[u8] {
        self.name.as_slice()
    }
}

ghost use Rattle.std.specs.Prelude.{◌≡◌};
ghost use Rattle.lv_cnf.specs.Literals.{negated, positive_literal, negative_literal};

/// A variable or its negation.
#[derive(Clone, Copy, Debug, Default, PartialEq, Eq)]
pub struct Lit {
    /// The number of the variable.
    pub var: u32,
    /// Whether the literal is the variable itself, and not its negation.
    pub positive: bool,
}

impl Lit {
    /// The variable itself.
    pub fn positive(var: u32) -> Lit
        ensures { result ≡ positive_literal var }
    {
        Lit {
            var,
            positive: true,
        }
    }

    /// The negation of the variable.
    pub fn negative(var: u32) -> Lit
        ensures { result ≡ negative_literal var }
    {
        Lit {
            var,
            positive: false,
        }
    }

    /// The literal that is true exactly where this one is false.
    pub fn negated(self) -> Lit
        ensures { result ≡ negated self }
    {
        Lit {
            var: self.var,
            positive: !self.positive,
        }
    }
}

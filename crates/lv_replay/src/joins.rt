ghost use Rattle.std.specs.Prelude.{◌≡◌};
ghost use Rattle.lv_replay.specs.Rows.{join};

/// A connective of two truth values.
#[derive(Debug, Clone, Copy, PartialEq, Eq)]
pub(crate) enum Join {
    And,
    Or,
    Implies,
    Iff,
}

impl Join {
    /// The two values, joined so.
    pub(crate) fn apply(self, a: bool, b: bool) -> bool
        ensures { result ≡ join self a b }
    {
        match self {
            Join::And => a && b,
            Join::Or => a || b,
            Join::Implies => !a || b,
            Join::Iff => a == b,
        }
    }
}

/// What is asked of a text.
#[derive(Clone, Copy, Debug, PartialEq, Eq)]
pub enum TextMode {
    /// Prove the system of the text. The budget is how many clauses the solver may learn at an obligation, from 1 to
    /// 1,000,000.
    Prove { budget: u32 },
    /// Write the system of the text in its layout.
    Show,
    /// Check the structure of the text against one obligation of its system.
    Check,
    /// Replay the lasso of the text on its system.
    Replay,
}

/// What the words ask for.
#[derive(Clone, Copy, Debug, PartialEq, Eq)]
pub enum Mode {
    /// This is asked of the text.
    OnText(TextMode),
    /// Write and prove the chain of so many places, from 2 to 16. There is no text.
    Make { places: u32 },
}

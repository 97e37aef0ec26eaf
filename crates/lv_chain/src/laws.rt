//! What holds of the definitions: each law is the contract of a function that does nothing.
ghost use Rattle.lv_chain.specs.Chain.{ChainsFit};

/// The parts of the chain of 2 to 16 places fit together.
pub fn chains_fit()
    ensures { ChainsFit }
{}

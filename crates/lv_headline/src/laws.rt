//! What follows for the runs of a system that a text spells, or of a chain, where its obligations are valid.
//!
//! Each function here does nothing: it stands for the law that its contract states.
ghost use Rattle.lv_headline.specs.Headline.{ChainsKeepLimits, InvariantsStand, SpelledInvariantsStand, ValidChainsHold, ValidSystemsHold, ValidTextsAreProved, ValidTextsHold};

/// The invariants of a system that keeps the limits on labels stand over the words of the monitored structure. So do
/// those of each system that a tree spells.
pub fn invariants_stand()
    ensures limits { InvariantsStand }
    ensures spelled { SpelledInvariantsStand }
{}

/// Where a tree, or bytes, spell a system whose obligations are all valid, its property holds on each fair lasso run, of
/// structures of any sizes; and no labelled run has, after a first round, more rounds than the elements touched at its
/// end have valuations. Bytes that spell no other system are proved then.
pub fn sound()
    ensures systems { ValidSystemsHold }
    ensures texts { ValidTextsHold }
    ensures proved { ValidTextsAreProved }
{}

/// The chains of 2 to 16 places keep the limits on labels.
pub fn chains_keep_limits()
    ensures { ChainsKeepLimits }
{}

/// Where the obligations of a chain of 2 to 16 places are all valid, the same holds of it as of a system that is spelled.
pub fn chains()
    ensures { ValidChainsHold }
{}

//! Laws on the answers of a check: each is the contract of a function that does nothing.
ghost use Rattle.lv_check.specs.Laws.{AlikeHaveTheSame, HasOneAnswer};

/// A structure has one answer alone: the causes of two answers exclude one another.
pub fn one_answer()
    ensures { HasOneAnswer }
{}

/// Structures that agree on the obligation's vocabulary have the same answer. So a structure that breaks an obligation
/// does so too when its text was written and read again.
pub fn alike_have_the_same()
    ensures { AlikeHaveTheSame }
{}

//! What holds of universes and sizes: each law is the contract of a function that does nothing.

ghost use Rattle.lv_skolem.specs.Laws.{SizesAreLengths, CountsAreUnique};

/// The size is the number of nodes of the ground forms and of equality clauses.
pub fn sizes_are_lengths()
    ensures { SizesAreLengths }
{}

/// With no cycle, the terms of each sort can be counted in one way.
pub fn counts_are_unique()
    ensures { CountsAreUnique }
{}

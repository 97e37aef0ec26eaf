//! The language of systems, as relations between trees and systems: which tree spells which system, and which tree and
//! text is its layout. What holds of a layout, such as that it spells the system again, stands in `laws`.
//!
//! What words name, which trees spell which terms, formulas and items, and what holds of a system that a text spells
//! stand in `specs/`; the reader and the writer of texts meet them. The one thing that both have to find, the word of a
//! symbol, is found by `words`.
#![tactic(auto)]

pub mod laws;
pub mod reading;
pub mod words;

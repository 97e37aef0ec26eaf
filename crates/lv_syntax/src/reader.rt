//! The system that a tree spells, for those who stand above.
ghost use Rattle.std.specs.Prelude.{IfOk, IfErr};
ghost use Rattle.lv_system.specs.declared.parts.Parts.{Parts};
ghost use Rattle.lv_fault.specs.Given.{Fails};
ghost use Rattle.lv_grammar.specs.Spelling.{SpellsSystem};
ghost use Rattle.lv_grammar.specs.Reading.{system_of};
ghost use Rattle.lv_syntax.specs.Reader.{IsSystemOrMemory};

use crate::system::read_parts;
use lv_fault::ReadText;
use lv_system::System;
use lv_tree::Tree;
use std::alloc::Global;

/// The system that the tree spells.
///
/// `Refused` comes exactly where the tree spells no system within the limits. It carries the first fault, going
/// through the items from left to right and depth first. `Memory` is want of memory.
pub fn read_system(alloc: Global, tree: &Tree) -> Result<System, ReadText>
    ensures found { IfOk result (λ system. SpellsSystem system tree.now) }
    ensures only { (p : Parts) → SpellsSystem p tree.now → IsSystemOrMemory p result }
    ensures refused { IfErr result (λ e. Fails e (system_of tree.now)) }
{
    match read_parts(alloc, tree) {
        Ok(parts) => Ok(System::new(parts)),
        Err(error) => Err(error),
    }
}

//! The text of a system, which spells it.
ghost use Rattle.std.specs.Prelude.{◌≡◌, IfOk};
ghost use Rattle.lv_tree.specs.declared.tree.Tree.{Tree};
ghost use Rattle.lv_grammar.specs.Layout.{shown_text};
ghost use Rattle.lv_grammar.specs.Spelling.{SpellsSystem, Spells};

use lv_formula::Memory;
use lv_show::show_system;
use lv_system::System;
use lv_tree::List;
use std::alloc::Global;

/// The text of a system: its name on the first line, then each item on a line of its own behind two
/// spaces, `)` directly behind the last one, and a newline. Variables are `X0`, `X1` and so on, by the
/// number of variables in whose scope they stand. The only error is want of memory.
pub fn show(alloc: Global, system: &System) -> Result<List<u8>, Memory>
    ensures text { IfOk result (λ bytes. bytes ≡ shown_text system.now) }

    // Where some tree spells the system, the text does.
    ensures again { (t : Tree) → SpellsSystem system.now t → IfOk result (λ bytes. Spells bytes system.now) }
{
    show_system(alloc, system)
}

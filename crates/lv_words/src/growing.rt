ghost use Rattle.std.specs.Prelude.{◌≡◌, ◌++◌, ◌∷◌, ◌<◌, ◌^◌, [], OnOk, IfErr, length, slice_get};

use lv_fault::ReadText;
use lv_formula::List;
use std::alloc::Global;
use std::marker::Model;

/// The greatest number of elements, so that the numbers of two lists fit a `u32` together.
const MOST: usize = 0x7fff_ffff;

/// A list that grows at its end, of fewer than 2^31 elements.
#[derive(Debug, Drop)]
pub struct Growing<T> {
    items: Vec<T>,
}

impl<T> Model for Growing<T> {
    ghost use Rattle.std.specs.Prelude.{List, ◌<◌, ◌^◌};
    ghost use Rattle.std.proofs.Common.{length};

    ghost Value = { List T };

    ghost view = { λ it. it.items.items };

    ghost invariant = { λ it. length it.items.items < 2 ^ 31 };
}

impl<T> Growing<T> {
    pub fn new(alloc: Global) -> Growing<T>
        ensures { result ≡ [] }
    {
        Growing {
            items: Vec::new(alloc),
        }
    }

    pub fn as_slice(&self) -> &[T]
        ensures items { result.now ≡ self.now }
        ensures few { length self.now < 2 ^ 31 }
    {
        self.items.as_slice()
    }

    /// The first element, if there is one.
    pub fn into_first(self) -> Option<T>
    where
        T: Drop,
        ensures { result ≡ slice_get self 0 }
    {
        self.items.into_iter().next()
    }

    pub fn into_list(self) -> List<T>
        ensures { result ≡ self }
    {
        List::from_vec(self.items)
    }
}

impl<T: Drop> Growing<T> {
    /// Adds an element. A list that holds the greatest number of elements has no memory for one more.
    pub fn push(&mut self, item: T) -> Result<(), ReadText>
        ensures added { OnOk result (self.new ≡ self.old ++ item ∷ []) }
        ensures memory { IfErr result (λ e. e ≡ ReadText.Memory) }
    {
        if self.items.len() >= MOST {
            return Err(ReadText::Memory);
        }
        self.items.push(item)?;
        Ok(())
    }
}

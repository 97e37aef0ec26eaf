ghost use Rattle.std.specs.Prelude.{◌≡◌, ◌<◌, ℕ, List, get_or, length};

/// A tuple whose elements are told one by one, so that it is looked up without being made.
pub trait Elements {
    /// The tuple that it is.
    ghost elements: { Self → List ℕ };

    /// How many elements it has.
    fn count(&self) -> usize
        ensures { result ≡ length (elements self.now) };

    /// The element at that place.
    fn at(&self, i: usize) -> u32
        requires { i < length (elements self.now) }
        ensures { result ≡ get_or (elements self.now) i 0 };
}

/// A tuple that stands in memory.
#[derive(Clone, Copy, Drop)]
pub(crate) struct Tuple<'a> {
    pub(crate) elements: &'a [u32],
}

impl Elements for Tuple<'_> {
    ghost elements = { λ t. t.elements.now };

    fn count(&self) -> usize {
        self.elements.len()
    }

    fn at(&self, i: usize) -> u32 {
        self.elements[i]
    }
}

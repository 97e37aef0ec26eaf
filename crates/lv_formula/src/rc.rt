ghost use Rattle.std.specs.Prelude.{◌≡◌, IfOk};

use std::alloc::{AllocError, Global};
use std::marker::Model;
use std::ops::Deref;
use std::rc;

/// A counted reference that contracts see as the value behind it.
///
/// A clone is one more reference to the same value, which is not copied.
#[derive(Debug, Drop)]
pub struct Rc<T> {
    inner: rc::Rc<T>,
}

impl<T> Model for Rc<T> {
    ghost Value = { T };

    ghost coded = { T.code };

    ghost view = { λ b. b.inner.value };
}

impl<T: Drop> Rc<T> {
    /// Moves the value to the heap. The error is want of memory.
    pub fn new(alloc: Global, value: T) -> Result<Rc<T>, AllocError>
        ensures { IfOk result (λ b. b ≡ value) }
    {
        Ok(Rc {
            inner: rc::Rc::new(alloc, value)?,
        })
    }
}

impl<T> Deref for Rc<T> {
    type Target = T;

    ghost deref_gives = { λ rc x. x ≡ rc };

    fn deref(&self) -> &T
        ensures { result.now ≡ self.now }
    {
        self.inner.as_ref()
    }
}

impl<T: Drop> Clone for Rc<T> {
    ghost is_clone = { λ rc copy. copy ≡ rc };

    fn clone(&self) -> Result<Rc<T>, AllocError>
        ensures { IfOk result (λ b. b ≡ self.now) }
    {
        Ok(Rc {
            inner: self.inner.clone()?,
        })
    }
}

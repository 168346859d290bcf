//! A box that contracts see as what it holds.

ghost use Rattle.std.specs.Prelude.{◌≡◌, IfOk};

use crate::fault::Memory;
use std::alloc::Global;
use std::marker::Model;

/// One value. A type may hold a box of itself.
#[derive(Debug, Drop)]
pub struct Boxed<T> {
    inner: Box<T>,
}

impl<T> Model for Boxed<T> {
    ghost Value = { T };

    ghost coded = { T.code };

    ghost view = { λ b. b.inner.value };
}

impl<T> Boxed<T> {
    pub fn get(&self) -> &T
        ensures { result.now ≡ self.now }
    {
        &self.inner
    }

    pub fn into_inner(self) -> T
        ensures { result ≡ self }
    {
        let Boxed { inner } = self;
        Box::into_inner(inner)
    }

    /// Puts another value into the box, and gives the one that was there. It takes no memory.
    pub fn replace(&mut self, value: T) -> T
        ensures is { result ≡ self.old }
        ensures new { self.new ≡ value }
    {
        std::mem::replace(&mut self.inner, value)
    }
}

impl<T: Drop> Boxed<T> {
    pub fn new(alloc: Global, value: T) -> Result<Boxed<T>, Memory>
        ensures { IfOk result (λ b. b ≡ value) }
    {
        Ok(Boxed {
            inner: Box::new(alloc, value)?,
        })
    }
}

impl<T: PartialEq> PartialEq for Boxed<T> {
    ghost eq = { T.eq };

    ghost laws = { T.laws };

    fn eq(&self, other: &Boxed<T>) -> bool {
        *self.inner == *other.inner
    }
}

//! Which board a seat is of.
ghost use Rattle.std.specs.Prelude.{◌≡◌};
ghost use base.Fml.{ftrue};

use std::marker::{Model, PhantomData};

/// A value as clauses see it. It has no bytes and owns nothing, so it may go to any thread. `Snapshot` is the same, but
/// that a struct which has one beside a seat may go to another thread is not found.
pub struct Mark<T> {
    marker: PhantomData<T>,
    pub ghost value: { T },
}

impl<T> Model for Mark<T> {
    ghost also_owns = { λ _. ftrue };
}

impl<T> Mark<T> {
    pub fn of(x: &T) -> Mark<T>
        ensures { result.value ≡ x.now }
    {
        let _ = x;
        Mark {
            marker: PhantomData,
        }
    }
}

impl<T> Drop for Mark<T> {
    fn drop(self) {
        let Self { marker: _ } = self;
    }
}

unsafe impl<T> Send for Mark<T> {}

unsafe impl<T> Sync for Mark<T> {}

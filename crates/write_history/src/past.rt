// A list that only proofs read. It takes no memory, and its functions do nothing at run time.
ghost use Rattle.std.specs.Prelude.{◌≡◌, List, [], ◌∷◌};
ghost use Rattle.std.specs.Borrow.{ftrue};

use std::marker::{Model, PhantomData};

/// What happened, newest first. Clauses read it as `items`.
#[derive(Drop)]
pub(crate) struct Past<E> {
    of: PhantomData<E>,
    pub(crate) ghost items: { List E },
}

impl<E> Model for Past<E> {
    ghost also_owns = { λ _. ftrue };
}

impl<E> Past<E> {
    /// A past in which nothing happened.
    pub(crate) fn new() -> Past<E>
        ensures { result.items ≡ [] }
    {
        Past { of: PhantomData }
    }

    /// The past in which this happened too, after all else.
    pub(crate) fn and(&self, item: &E) -> Past<E>
        ensures { result.items ≡ item.now ∷ self.now.items }
    {
        Past { of: PhantomData }
    }
}

//! Vectors that contracts see as lists.
ghost use Rattle.std.specs.Prelude.{◌≡◌};

use std::marker::Model;

/// A vector of elements, which contracts see as the list of the elements.
#[derive(Clone, Drop, Debug)]
pub struct Sequence<T> {
    items: Vec<T>,
}

impl<T> Model for Sequence<T> {
    ghost use Rattle.std.specs.Prelude.{List};

    ghost Value = { List T };

    ghost view = { λ s. s.items.items };
}

impl<T> Sequence<T> {
    /// Makes the sequence of these elements.
    pub fn new(items: Vec<T>) -> Sequence<T>
        ensures { result ≡ items.items }
    {
        Self { items }
    }

    /// Returns the vector of the elements.
    pub fn into_vec(self) -> Vec<T>
        ensures { result.items ≡ self }
    {
        let Sequence { items } = self;
        items
    }

    /// Returns the elements.
    pub fn as_slice(&self) -> &[T]
        ensures { result.now ≡ self.now }
    {
        self.items.as_slice()
    }
}

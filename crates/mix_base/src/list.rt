//! A list whose contracts see the items in their order, and nothing else.
ghost use Rattle.std.specs.Prelude.{◌≡◌};

use std::marker::Model;

/// A list of items in their order. It may hold the type that holds it.
#[derive(Drop)]
pub struct ListOf<T> {
    items: Vec<T>,
}

impl<T> Model for ListOf<T> {
    ghost use Rattle.std.specs.Prelude.{List};
    ghost use Rattle.std.specs.Coded.{coded_list};

    ghost Value = { List T };

    ghost coded = { coded_list T.code };

    ghost view = { λ list. list.items.items };
}

impl<T> ListOf<T> {
    /// Takes over a vector. It takes no memory.
    pub fn from_vec(items: Vec<T>) -> ListOf<T>
        ensures value { result ≡ items.items }
    {
        ListOf { items }
    }

    pub fn as_slice(&self) -> &[T]
        ensures value { result.now ≡ self.now }
    {
        self.items.as_slice()
    }

    /// Gives the vector back.
    pub fn into_vec(self) -> Vec<T>
        ensures value { result.items ≡ self }
    {
        let ListOf { items } = self;
        items
    }
}

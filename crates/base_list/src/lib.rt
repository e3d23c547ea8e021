//! Lists that contracts see as lists.
#![tactic(auto)]

ghost use Rattle.std.specs.Prelude.{◌≡◌};

use std::marker::Model;

/// Values in order. Contracts see the list of them.
#[derive(Drop)]
pub struct Sequence<T> {
    list: Vec<T>,
}

impl<T> Model for Sequence<T> {
    ghost use Rattle.std.specs.Prelude.{List};

    ghost Value = { List T };

    ghost view = { λ s. s.list.items };
}

impl<T> Sequence<T> {
    /// The list as values in order.
    pub fn new(list: Vec<T>) -> Sequence<T>
        ensures { result ≡ list.items }
    {
        Sequence { list }
    }

    /// The list itself.
    pub fn as_slice(&self) -> &[T]
        ensures { result.now ≡ self.now }
    {
        self.list.as_slice()
    }

    /// The list, given back.
    pub fn into_list(self) -> Vec<T>
        ensures { result.items ≡ self }
    {
        self.list
    }
}

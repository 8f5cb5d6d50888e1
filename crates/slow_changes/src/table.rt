// A list of the history while it is changed. Its things are lent by their numbers, which count from 1.
ghost use Rattle.std.specs.Borrow.{sem};
ghost use Rattle.std.specs.Option.{option_copied_mut};
ghost use Rattle.std.specs.Prelude.{◌≡◌, []};
ghost use Rattle.session_actions.specs.Words.{numbered};
ghost use Rattle.slow_changes.specs.Lending.{lends_numbered};

use grpc_base::Items;
use std::alloc::Global;
use std::marker::Model;
use std::mem;

/// A list that was taken out of the history, to be changed in place.
#[derive(Drop)]
pub struct Table<T> {
    list: Vec<T>,
}

impl<T> Model for Table<T> {
    ghost use Rattle.std.specs.Prelude.{List};

    ghost Value = { List T };

    ghost view = { λ t. t.list.items };
}

impl<T> Table<T> {
    /// Takes a list out; the empty list stays in its place.
    pub fn take(alloc: Global, items: &mut Items<T>) -> Table<T>
        ensures table { result ≡ items.old }
        ensures rest { items.new ≡ [] }
    {
        let list = mem::replace(items, Items::new(alloc)).into_vec();
        Table { list }
    }

    /// The thing of a number, to be changed.
    pub fn get_mut(&mut self, number: u64) -> Option<&mut T>
        ensures* writes_back { sem 𝓛 (lends_numbered T.row self.entry number result) }
        ensures thing { option_copied_mut result ≡ numbered self.old number }
    {
        let index = (number as usize).checked_sub(1)?;
        self.list.get_mut(index)
    }

    /// The list, to be put back.
    pub fn into_items(self) -> Items<T>
        ensures { result ≡ self }
    {
        let Table { list } = self;
        Items::of_vec(list)
    }
}

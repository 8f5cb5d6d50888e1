// The members of an object that is being read.
ghost use Rattle.std.specs.Prelude.{◌≡◌, length, IfOk};
ghost use Rattle.std.specs.List.Sorted.{IsSearchInRange, IsBinarySearchResult};
ghost use Rattle.json_text.specs.Order.{name_at, place_cmp, PlacesAreWithin, HaveAll, NamesAreRising, placed};

use crate::json::Json;
use grpc_base::{NoMemory, Text};
use std::alloc::Global;

/// Members in the order of the text.
#[derive(Drop)]
pub struct Members {
    pub list: Vec<(Text, Json)>,
    // their places, in the order of their names
    order: Vec<usize>,
    ghost within: { PlacesAreWithin list.items order.items },
    ghost whole: { HaveAll list.items order.items },
    ghost rising: { NamesAreRising list.items order.items },
}

#[tactic(auto, using(crate::proofs::Order::name_of_item, crate::proofs::Order::no_name_after))]
fn name_at(list: &[(Text, Json)], place: usize) -> &[u8]
    ensures { result.now ≡ name_at list.now place }
{
    match list.get(place) {
        Some((name, _value)) => name.as_slice(),
        None => &[],
    }
}

// Where the name is in the order, or where it would go.
fn search(list: &[(Text, Json)], order: &[usize], name: &[u8]) -> Result<usize, usize>
    ensures bound { IsSearchInRange result (length order.now) }
    ensures position { IsBinarySearchResult (place_cmp list.now name.now) order.now result }
{
    order.binary_search_by(|place| name_at(list, *place).cmp(name))
}

// The places with one more, unless its name is found.
fn with_place(
    order: Vec<usize>,
    found: Result<usize, usize>,
    place: usize,
) -> Result<Vec<usize>, NoMemory>
    requires { IsSearchInRange found (length order.items) }
    ensures { IfOk result (λ o. o.items ≡ placed found order.items place) }
{
    let mut order = order;
    if let Err(at) = found {
        order.insert(at, place)?;
    }
    Ok(order)
}

impl Members {
    ghost use Rattle.json_text.specs.Views.{members_of, tree_of};
    ghost use Rattle.json_text.specs.Tree.{member_after, no_members, is_named};

    /// No members.
    pub fn new(alloc: Global) -> Members
        ensures { members_of result.list.items ≡ no_members }
    {
        Members {
            list: Vec::new(alloc),
            order: Vec::new(alloc),
        }
    }

    /// Whether one of them has this name; it is compared with about log n of n names.
    #[tactic(auto, using(crate::proofs::Growth::named_from_prefix, crate::proofs::Order::search_finds))]
    pub fn has(&self, name: &[u8]) -> bool
        ensures { result ≡ is_named name.now (members_of self.now.list.items) }
    {
        search(self.list.as_slice(), self.order.as_slice(), name).is_ok()
    }

    /// One member more.
    #[tactic(auto, using(crate::proofs::Growth::members_push))]
    pub fn with(self, name: Text, value: Json) -> Result<Members, NoMemory>
        ensures { IfOk result (λ r. members_of r.list.items ≡ member_after (members_of self.list.items) name (tree_of value)) }
    {
        let Members { list, order } = self;
        let found = search(list.as_slice(), order.as_slice(), name.as_slice());
        let order = with_place(order, found, list.len())?;
        let mut list = list;
        list.push((name, value))?;
        Ok(Members { list, order })
    }
}

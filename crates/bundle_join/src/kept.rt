// The items that are kept, and where the first of each name is.
ghost use Rattle.std.specs.Prelude.{◌≡◌, ◌≤◌, [], ◌∷◌, ◌++◌, length, take, slice_get, option_copied, IfOk, OnOk};
ghost use Rattle.std.specs.Option.{option_and_then};
ghost use Rattle.bundle_join.specs.Joined.{compared};
ghost use Rattle.name_scopes.specs.Names.{found};
ghost use Rattle.bundle_join.specs.Firsts.{HasItems, tag, tagged};

use crate::judging::name_of;
use ir_tree::{Bundle, Item};
use name_scopes::Scope;
use std::alloc::{AllocError, Global};
use text_forms::Listing;

/// The items that are kept. The number of an item is found by its name in the time of the logarithm of how many there are, whatever
/// the names.
#[derive(Drop)]
pub struct Kept {
    pub items: Bundle,
    // the number of the first item of each name
    names: Scope<usize>,
    // the number of the first item of each directive with each name
    tagged_names: Scope<usize>,
}

fn tag(item: &Item) -> u8
    ensures { result ≡ tag item.now }
{
    match item {
        Item::Typedef(_) => 0,
        Item::Funcsig(_) => 1,
        Item::Const(_) => 2,
        Item::GlobalCell(_) => 3,
        Item::Funcdecl(_) => 4,
        Item::Funcdef(_) => 5,
    }
}

// The directive of an item with its name.
fn tagged(alloc: Global, item: &Item) -> Result<Vec<u8>, AllocError>
    ensures { IfOk result (λ v. v.items ≡ tagged item.now) }
{
    let mut key = Vec::new(alloc);
    key.push(tag(item))?;
    key.extend_from_slice(name_of(item).text.as_slice())?;
    Ok(key)
}

// The first item with the key, where one is among these.
fn first_of<'a>(items: &'a [Item], numbers: &Scope<usize>, key: &[u8]) -> Option<&'a Item>
    ensures { option_copied result ≡ option_and_then (slice_get items.now) (found numbers.now key.now) }
{
    match numbers.find(key) {
        Some(number) => items.get(*number),
        None => None,
    }
}

impl Kept {
    /// No items. It takes no memory yet.
    pub fn new(alloc: Global) -> Kept
        ensures items { result.items ≡ [] }
        ensures found { HasItems result }
    {
        let items = Listing::new(alloc);
        let names = Scope::new(alloc);
        let tagged_names = Scope::new(alloc);
        Kept {
            items,
            names,
            tagged_names,
        }
    }

    /// The one of the first `earlier` items that an item is compared with, where there is one: the first that has its name and its
    /// directive, or, where there is none, the first that has its name. It fails only where memory runs out.
    pub fn compared(
        &self,
        alloc: Global,
        earlier: usize,
        item: &Item,
    ) -> Result<Option<&Item>, AllocError>
        requires found { HasItems self.now }
        requires within { earlier ≤ length self.now.items }
        ensures { IfOk result (λ o. option_copied o ≡ compared (take earlier self.now.items) item.now) }
    {
        let kept = self.items.as_slice();
        let first = &kept[..earlier];
        let tagged_name = tagged(alloc, item)?;
        let key = tagged_name.as_slice();
        let defined = name_of(item);
        let name = defined.text.as_slice();
        match first_of(first, &self.tagged_names, key) {
            Some(same) => Ok(Some(same)),
            None => {
                let named = first_of(first, &self.names, name);
                Ok(named)
            }
        }
    }

    /// Adds an item at the end. It fails only where memory runs out; what is kept then is of no more use.
    pub fn add(&mut self, alloc: Global, item: Item) -> Result<(), AllocError>
        requires { HasItems self.old }
        ensures items { OnOk result (self.new.items ≡ self.old.items ++ item ∷ []) }
        ensures found { OnOk result (HasItems self.new) }
    {
        let number = self.items.len();
        let tagged_name = tagged(alloc, &item)?;
        let key = tagged_name.as_slice();
        self.tagged_names.define(alloc, key, number)?;
        let defined = name_of(&item);
        let name = defined.text.as_slice();
        self.names.define(alloc, name, number)?;
        self.items.push(item)?;
        Ok(())
    }
}

// The constants of a bundle.
ghost use Rattle.std.specs.Prelude.{◌≡◌, map, IfOk};
ghost use Rattle.ir_tree.specs.declared.items.Item.{Item};
ghost use Rattle.checked_code.specs.Graph.{type_id};
ghost use Rattle.checked_code.specs.Rules.{literal_of};
ghost use Rattle.checked_code.specs.Constants.{constants_of};

use bundle_names::Globals;
use bundle_tables::{literal, type_id};
use checked_code::Constant;
use ir_tree::{Const, Item};
use std::alloc::{AllocError, Global};
use text_forms::Listing;

fn numbered(alloc: Global, globals: &Globals, item: &Const) -> Result<Constant, AllocError>
    ensures { IfOk result (λ made. made ≡ record { of_type = type_id globals.now item.now.of_type; literal = literal_of globals.now item.now.literal }) }
{
    Ok(Constant {
        of_type: type_id(globals, &item.of_type)?,
        literal: literal(alloc, globals, &item.literal)?,
    })
}

/// The constants in text order.
pub(crate) fn constants(
    alloc: Global,
    globals: &Globals,
    items: &[Item],
) -> Result<Listing<Constant>, AllocError>
    ensures { IfOk result (λ all. all ≡ constants_of globals.now items.now) }
{
    let mut all = Listing::new(alloc);
    let mut left = items;
    'each: while let [first, more @ ..] = left {
        if let Item::Const(item) = first {
            all.push(numbered(alloc, globals, item)?)?;
        }
        left = more;
    }
    Ok(all)
}

// Judging the names of a bundle.
ghost use Rattle.demands.specs.Demands.{Judges};
ghost use Rattle.bundle_names.specs.Naming.{name_demands};

use crate::definitions::define_items;
use crate::fault::NameFault;
use crate::items::use_in_items;
use crate::resolved::Resolved;
use ir_tree::Bundle;
use std::alloc::Global;

/// Judges the names of a bundle: Ok where all demands on them are met, else the first that is not. In text order come first all
/// definitions (`Duplicate` at the second definition of a name in its space) and then all uses (`Unknown` where nothing has the
/// name, `WrongKind` where what has it is not what its place asks). It takes a few hashes for each name, and no time more than
/// in proportion to the bundle. Where it refuses, the bundle is let go. A bundle of 2^32 items of one sort answers out of memory.
pub fn resolve(alloc: Global, bundle: Bundle) -> Result<Resolved, NameFault>
    ensures { Judges (name_demands bundle) bundle result }
{
    let globals = define_items(alloc, bundle.as_slice())?;
    use_in_items(alloc, &globals.names, bundle.as_slice())?;
    Ok(Resolved::new(bundle, globals))
}

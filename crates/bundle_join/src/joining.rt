// The items of the bundles are gone through in order, and each is kept, left out, or refused.
ghost use Rattle.std.specs.Prelude.{◌≡◌, ◌+◌, ◌^◌, ◌<◌, ◌≤◌, length, reverse, take, IfOk, OnOk};
ghost use Rattle.bundle_join.specs.Joined.{verdict, with_one, with_bundle, IsJoined};
ghost use Rattle.bundle_join.specs.Firsts.{HasItems};
ghost use Rattle.bundle_join.specs.Steps.{Goes};

use crate::fault::{JoinFault, JoinKind};
use crate::judging::{against, place_of};
use crate::kept::Kept;
use crate::verdict::Verdict;
use ir_tree::{Bundle, Item};
use std::alloc::{AllocError, Global};
use text_forms::Listing;

// The limit of a text, too.
const MOST_ITEMS: usize = 16384;

// The members of a list, the last first, so that the first can be taken off.
fn reversed<T: Drop>(alloc: Global, list: Listing<T>) -> Result<Vec<T>, AllocError>
    ensures { IfOk result (λ v. v.items ≡ reverse list) }
{
    let mut left = list;
    let mut members = Vec::new(alloc);
    'each: while let Some(member) = left.pop() {
        members.push(member)?;
    }
    Ok(members)
}

// What becomes of an item, where the first `earlier` items are those of earlier bundles.
fn judged(alloc: Global, kept: &Kept, earlier: usize, item: &Item) -> Result<Verdict, AllocError>
    requires found { HasItems kept.now }
    requires within { earlier ≤ length kept.now.items }
    ensures { IfOk result (λ v. v ≡ verdict (take earlier kept.now.items) item.now) }
{
    let compared = kept.compared(alloc, earlier, item)?;
    match compared {
        None => Ok(Verdict::Kept),
        Some(first) => Ok(against(first, item)),
    }
}

// With an item of bundle number `bundle`.
fn put(
    alloc: Global,
    kept: &mut Kept,
    bundle: u32,
    item: Item,
    verdict: Verdict,
) -> Result<(), JoinFault>
    requires { HasItems kept.old }
    ensures found { OnOk result (HasItems kept.new) }
    ensures items { Goes (with_one bundle kept.old.items item verdict) result kept.new.items }
{
    match verdict {
        Verdict::LeftOut => Ok(()),
        Verdict::Refused { kind, place } => Err(JoinFault::At {
            kind,
            bundle,
            place,
        }),
        Verdict::Kept => {
            if kept.items.len() >= MOST_ITEMS {
                return Err(JoinFault::At {
                    kind: JoinKind::TooMany,
                    bundle,
                    place: place_of(&item),
                });
            }
            kept.add(alloc, item)?;
            Ok(())
        }
    }
}

// With the items of bundle number `number`, each judged by the earlier ones.
fn put_bundle(alloc: Global, kept: &mut Kept, number: u32, bundle: Bundle) -> Result<(), JoinFault>
    requires { HasItems kept.old }
    ensures found { OnOk result (HasItems kept.new) }
    ensures items { Goes (with_bundle number kept.old.items kept.old.items bundle) result kept.new.items }
{
    let earlier = kept.items.len();
    let mut left = reversed(alloc, bundle)?;
    'each: while let Some(item) = left.pop() {
        let verdict = judged(alloc, kept, earlier, &item)?;
        put(alloc, kept, number, item, verdict)?;
    }
    Ok(())
}

/// The joined bundle of some bundles, in their order: what says the same as an earlier bundle is left out, and all else is kept. The
/// fault is that of the first item that cannot go into it, with the number of its bundle, counted from 0, and the place in its text; it
/// is Memory only where memory runs out. The bundles are used up, and the time grows with n log n of the items of all bundles.
pub fn join(alloc: Global, bundles: Listing<Bundle>) -> Result<Bundle, JoinFault>
    requires { length bundles < 2 ^ 32 }
    ensures { IsJoined bundles result }
{
    let mut kept = Kept::new(alloc);
    let mut left = reversed(alloc, bundles)?;
    let mut number = 0;
    'each: while let Some(bundle) = left.pop() {
        put_bundle(alloc, &mut kept, number, bundle)?;
        number += 1;
    }
    Ok(kept.items)
}

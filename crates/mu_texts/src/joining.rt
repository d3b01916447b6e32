// Joins the bundles of a job.
ghost use Rattle.std.specs.Prelude.{◌≤◌, IfOk, length};
ghost use Rattle.mu_texts.specs.Answer.{for_join};
ghost use Rattle.mu_texts.specs.Comes.{Comes, CanRun};

use crate::judging::refused;
use crate::ready::Ready;
use crate::refusals::join_fault_name;
use crate::stop::Stop;
use crate::what::What;
use bundle_join::{JoinFault, join};
use ir_tree::Bundle;
use std::alloc::Global;
use text_forms::Listing;

/// Makes the job of `mu join`: it prints the bundle that these are joined to, at most 16 of them.
///
/// Where there is none the line is `refused bundle K PLACE FAULT`, with the number of the bundle and the first item that cannot go into it.
pub fn judge_for_join(alloc: Global, bundles: Listing<Bundle>) -> Result<Ready, Stop>
    requires { length bundles ≤ 16 }
    ensures asked { Comes (for_join bundles) result }
    ensures there { IfOk result CanRun }
{
    match join(alloc, bundles) {
        Ok(bundle) => Ok(Ready::Canonical(bundle)),
        Err(JoinFault::Memory) => Err(Stop::Memory),
        Err(
            JoinFault::At {
                kind,
                bundle,
                place,
            },
        ) => Err(refused(alloc, What::Joined(bundle), place, join_fault_name(kind))?),
    }
}

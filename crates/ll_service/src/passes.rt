//! The passes of those who serve connections of a hub.
ghost use Rattle.std.specs.Prelude.{◌≡◌, ◌<◌, ◌++◌, ◌∷◌, [], IfErr, IfOk, length};
ghost use Rattle.std.specs.List.{All};
ghost use Rattle.ll_hub.specs.Passes.{new_pass};

use ll_hub::{Hub, HubFault, Ledgers, Pass};
use std::alloc::Global;
use std::sync::Wait;

/// Takes `count` passes of `hub`. If it fails, returns those that were taken, and why there is no other.
pub fn seats<L: Ledgers, R: Wait>(
    rt: &R,
    alloc: Global,
    count: usize,
    hub: &Hub<L>,
) -> Result<Vec<Pass<L>>, (Vec<Pass<L>>, HubFault)>
    ensures all { IfOk result (λ passes. length passes.items ≡ count) }
    ensures fewer { IfErr result (λ e. length e.0.items < count) }
    ensures untouched { IfErr result (λ e. All (λ p. p ≡ new_pass (length hub.now)) e.0.items) }
{
    let mut passes = Vec::new(alloc);
    for _ in 0..count {
        match one_more(rt, passes, hub) {
            Ok(more) => passes = more,
            Err(failed) => return Err(failed),
        }
    }
    Ok(passes)
}

/// Takes a pass of `hub`, and puts it after `passes`. If it fails, returns `passes` as they were, and the reason.
fn one_more<L: Ledgers, R: Wait>(
    rt: &R,
    passes: Vec<Pass<L>>,
    hub: &Hub<L>,
) -> Result<Vec<Pass<L>>, (Vec<Pass<L>>, HubFault)>
    ensures taken { IfOk result (λ more. more.items ≡ passes.items ++ new_pass (length hub.now) ∷ []) }
    ensures same { IfErr result (λ e. e.0.items ≡ passes.items) }
{
    let mut passes = passes;
    if passes.reserve(1).is_err() {
        return Err((passes, HubFault::Memory));
    }
    match hub.seat(rt) {
        Ok(pass) => {
            passes.push_reserved(pass);
            Ok(passes)
        }
        Err(fault) => Err((passes, fault)),
    }
}

//! The words that the program was called with.
ghost use Rattle.std.specs.Prelude.{◌≡◌, IfOk, map, string_bytes};
ghost use Rattle.std.specs.Vec.Iter.{into_iter_items};

use ll_attr::Text;
use ll_command::{Fault, fault_of};
use ll_reasons::Failure;
use std::alloc::{AllocError, Global};
use std::env;

/// Returns the program's words. A word that isn't UTF-8 is wrong usage.
pub(crate) fn words(rt: &HostRuntime) -> Result<Vec<Text>, Failure> {
    match env::args(rt) {
        Ok(args) => match texts(rt.alloc(), args) {
            Ok(words) => Ok(words),
            Err(AllocError) => Err(Failure::from(Fault::Memory)),
        },
        Err(error) => Err(Failure::new(
            rt.alloc(),
            fault_of(error.kind(), Fault::Usage),
            "a word isn't UTF-8",
        )),
    }
}

/// Returns `args` as texts.
fn texts(alloc: Global, args: env::Args) -> Result<Vec<Text>, AllocError>
    ensures { IfOk result (λ words. words.items ≡ map string_bytes (into_iter_items args)) }
{
    let mut words = Vec::new(alloc);
    for arg in args {
        words.push(Text::from_string(arg))?;
    }
    Ok(words)
}

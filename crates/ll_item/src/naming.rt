//! The renditions that items name.
ghost use Rattle.std.specs.Prelude.{◌≡◌, ◌≢◌, IfErr};
ghost use Rattle.ll_item.specs.Items as spec;

use crate::item::ItemFault;
use ll_settings::{Settings, is_name};

/// Returns the index of the rendition called `name`.
///
/// # Errors
///
/// `BadLine` if `name` is no name; `NoRendition` if no rendition has it.
pub fn named(settings: &Settings, name: &str) -> Result<usize, ItemFault>
    ensures value { result ≡ spec.named settings.now name.now }
    ensures not_memory { IfErr result (λ fault. fault ≢ ItemFault.Memory) }
{
    if !is_name(name) {
        return Err(ItemFault::BadLine);
    }
    settings.rendition(name).ok_or(ItemFault::NoRendition)
}

//! The sizes of slab blocks.

ghost use Rattle.std.specs.Prelude.{◌≡◌, ◌/◌, ◌<◌, ◌≤◌};
ghost use Rattle.km_base.specs.declared.sizes.TheConstants.{PAGE};
ghost use Rattle.km_model.specs.Placement.{class_of, kmalloc_span, pages_for};

use km_base::sizes::CLASSES;

/// The least class that isn't smaller than a size of at most 4096 bytes.
pub fn class_for(size: u32) -> u32
    requires { size ≤ PAGE }
    ensures class { result ≡ class_of size }
    ensures small { result ≤ PAGE }
    ensures some { 8 ≤ result }
{
    for class in CLASSES {
        if size <= class {
            return class;
        }
    }
    4096
}

/// The pages that so many bytes need.
pub fn pages_needed(size: u32) -> u32
    requires { size ≤ 32768 }
    ensures pages { result ≡ pages_for size }
    ensures some { 0 < size → 0 < result }
{
    (size + 4095) / 4096
}

/// The words of a block that a request of so many bytes is given, none where there is no such block.
pub fn words_for(size: u64) -> u64
    ensures words { size ≤ 32768 → result ≡ kmalloc_span size / 8 }
    ensures few { result ≤ PAGE }
{
    if size <= 4096 {
        class_for(size as u32) as u64 / 8
    } else if size <= 32768 {
        4096 * ((size + 4095) / 4096) / 8
    } else {
        0
    }
}

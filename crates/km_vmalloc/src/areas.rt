//! Live areas by their vmap slots.

ghost use Rattle.std.specs.Prelude.{◌≡◌, ◌<◌, ◌≤◌, ℕ, List, length, Some, None, IfSome, true, false};
ghost use Rattle.km_vmalloc.specs.Areas.{IsFreeFrom, area_at};
ghost use Rattle.km_vmalloc.specs.declared.areas.VmArea.{VmArea};

use km_base::{Addr, Span};

/// An area, its head and its vmap slot.
#[derive(Clone, Copy, Debug, PartialEq)]
pub struct VmArea {
    pub head: Span,
    pub area: Span,
    pub slot: u32,
}

/// The lowest vmap slot whose area isn't live. From slot `reach` on none is.
pub fn free_slot(areas: &[Option<VmArea>], reach: usize) -> Option<usize>
    requires within { reach ≤ length areas.now }
    requires above { IsFreeFrom areas.now reach }
    ensures free { IfSome result (λ s. area_at areas.now s ≡ None) }
    ensures within { IfSome result (λ s. s < length areas.now) }
    ensures lowest { IfSome result (λ s. (t : ℕ) → t < s → area_at areas.now t ≡ None → ⊥) }
    ensures none { result ≡ None → (t : ℕ) → t < length areas.now → area_at areas.now t ≡ None → ⊥ }
{
    for s in 0..reach {
        if areas[s].is_none() {
            return Some(s);
        }
    }
    if reach < areas.len() {
        Some(reach)
    } else {
        None
    }
}

/// The live area of a slot, if it begins at an address.
fn area_of(areas: &[Option<VmArea>], slot: usize, start: Addr) -> Option<VmArea>
    ensures live { IfSome result (λ v. area_at areas.now slot ≡ Some v) }
    ensures start { IfSome result (λ v. v.area.start ≡ start) }
{
    if slot >= areas.len() {
        return None;
    }
    match areas[slot] {
        Some(area) if area.area.start == start => Some(area),
        _ => None,
    }
}

/// The live area that begins at an address, which is looked for in one slot first. From slot `reach` on none is live.
pub fn area_beginning(
    areas: &[Option<VmArea>],
    reach: usize,
    slot: usize,
    start: Addr,
) -> Option<VmArea>
    requires within { reach ≤ length areas.now }
    requires above { IsFreeFrom areas.now reach }
    ensures live { IfSome result (λ v. (s : ℕ) × (area_at areas.now s ≡ Some v)) }
    ensures start { IfSome result (λ v. v.area.start ≡ start) }
    ensures none { result ≡ None → (s : ℕ) (v : VmArea) → area_at areas.now s ≡ Some v → v.area.start ≡ start → ⊥ }
{
    match area_of(areas, slot, start) {
        Some(area) => Some(area),
        None => search(areas, reach, start),
    }
}

/// The live area that begins at an address, looked for in each slot. From slot `reach` on none is live.
fn search(areas: &[Option<VmArea>], reach: usize, start: Addr) -> Option<VmArea>
    requires within { reach ≤ length areas.now }
    requires above { IsFreeFrom areas.now reach }
    ensures live { IfSome result (λ v. (s : ℕ) × (area_at areas.now s ≡ Some v)) }
    ensures start { IfSome result (λ v. v.area.start ≡ start) }
    ensures none { result ≡ None → (s : ℕ) (v : VmArea) → area_at areas.now s ≡ Some v → v.area.start ≡ start → ⊥ }
{
    for s in 0..reach {
        if let Some(area) = areas[s] {
            if area.area.start == start {
                return Some(area);
            }
        }
    }
    None
}

/// Whether the head of a live area begins at an address. From slot `reach` on no area is live.
pub fn has_head(areas: &[Option<VmArea>], reach: usize, start: Addr) -> bool
    requires within { reach ≤ length areas.now }
    requires above { IsFreeFrom areas.now reach }
    ensures live { result ≡ true → (s : ℕ) × (v : VmArea) × (area_at areas.now s ≡ Some v) × (v.head.start ≡ start) }
    ensures none { result ≡ false → (s : ℕ) (v : VmArea) → area_at areas.now s ≡ Some v → v.head.start ≡ start → ⊥ }
{
    for s in 0..reach {
        if let Some(area) = areas[s] {
            if area.head.start == start {
                return true;
            }
        }
    }
    false
}

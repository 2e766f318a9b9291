ghost use Rattle.std.specs.Prelude.{◌≡◌, ℕ, ◌<◌, ◌≤◌, ◌⊎◌, length, map, IfOk};
ghost use Rattle.wdf_law.specs.Network.{absorbing_numbers, elements};
ghost use Rattle.wdf_loop.specs.Advances.{root_of};
ghost use Rattle.wdf_loop.specs.Layouts.{IsLayout, mark_at};
ghost use Rattle.wdf_loop.specs.Parts.{AreParts, HasParts, IsPart, part_at, sent_slot};

use crate::layout::Layout;
use crate::mark::Mark;
use crate::part::Part;
use std::alloc::{AllocError, Global};
use wdf_law::Net;
use wdf_sched::Schedule;

/// Where the waves stand that elements are sent.
#[derive(Drop)]
pub(crate) struct Parts {
    /// Of all, by their numbers.
    pub(crate) every: Vec<Part>,
    /// Of the resistors and the sources, in netlist order.
    pub(crate) absorbing: Vec<Part>,
}

// The part that is sent the wave of this slot.
fn part_sent(marks: &[Mark], slot: u16) -> Part
    requires few { length marks.now ≤ 1024 }
    requires some { (j : ℕ) × ((j < length marks.now) × (((mark_at marks.now j).down ≡ slot) ⊎ ((mark_at marks.now j).onward ≡ slot))) }
    ensures inside { result.stage < length marks.now }
    ensures slot { sent_slot result (mark_at marks.now result.stage) ≡ slot }
{
    for i in 0..marks.len() {
        let stage = i as u16;
        if marks[i].down == slot {
            return Part {
                stage,
                beside: true,
            };
        }
        if marks[i].onward == slot {
            return Part {
                stage,
                beside: false,
            };
        }
    }
    unreachable!()
}

// The part that is the element with this number.
fn part_with(schedule: &Schedule, layout: &Layout, number: u32) -> Part
    requires layout { IsLayout schedule.now layout.now.shares.items layout.now.marks.items layout.now.chains.items layout.now.feeds.items }
    requires below { number < length (elements schedule.now.net) }
    ensures { IsPart schedule.now (root_of layout.now.shares.items) layout.now.marks.items result number }
{
    let slot = schedule.leaf_slots(number).down;
    part_sent(&layout.marks, slot)
}

// The parts that are elements, by their numbers.
fn every_part(alloc: Global, schedule: &Schedule, layout: &Layout) -> Result<Vec<Part>, AllocError>
    requires { IsLayout schedule.now layout.now.shares.items layout.now.marks.items layout.now.chains.items layout.now.feeds.items }
    ensures { IfOk result (λ v. AreParts schedule.now (root_of layout.now.shares.items) layout.now.marks.items (length (elements schedule.now.net)) (λ i. i) v.items) }
{
    let mut parts = Vec::new(alloc);
    for number in 0..schedule.net().element_count() as u32 {
        parts.push(part_with(schedule, layout, number))?;
    }
    Ok(parts)
}

// Those of the elements that absorb.
fn absorbing_parts(alloc: Global, net: &Net, every: &[Part]) -> Result<Vec<Part>, AllocError>
    requires { length every.now ≡ length (elements net.now) }
    ensures { IfOk result (λ v. v.items ≡ map (part_at every.now) (absorbing_numbers net.now)) }
{
    let mut parts = Vec::new(alloc);
    for number in 0..net.element_count() as u32 {
        if net.has_absorbing(number) {
            parts.push(every[number as usize])?;
        }
    }
    Ok(parts)
}

/// The parts of a schedule's stages that are elements.
///
/// # Errors
///
/// Where no memory is left.
pub(crate) fn parts_of(
    alloc: Global,
    schedule: &Schedule,
    layout: &Layout,
) -> Result<Parts, AllocError>
    requires { IsLayout schedule.now layout.now.shares.items layout.now.marks.items layout.now.chains.items layout.now.feeds.items }
    ensures { IfOk result (λ p. HasParts schedule.now (root_of layout.now.shares.items) layout.now.marks.items p.every.items p.absorbing.items) }
{
    wdf_law::laws::numbers(schedule.net());
    let every = every_part(alloc, schedule, layout)?;
    let absorbing = absorbing_parts(alloc, schedule.net(), &every)?;
    Ok(Parts { every, absorbing })
}

ghost use Rattle.std.specs.Prelude.{◌≡◌, ◌<◌, ◌≤◌, length};
ghost use Rattle.wdf_law.specs.Network.{elements};
ghost use Rattle.wdf_sched.specs.Meaning.{slot_at};
ghost use Rattle.wdf_sched.specs.Schedules.{IsSchedule};

use crate::{LeafSlots, Op};
use std::marker::Model;
use wdf_law::Net;

/// The step of a network as operations on numbered slots.
///
/// The first slots are the up slots of the network's elements, by the elements' numbers. Carried out
/// in their order on what the elements reflect there, the operations leave in each element's down
/// slot the wave that the reference step sends it.
///
/// It keeps that each further slot is written once, in the order of the slots' numbers, and read
/// only after that; that there are at most 1,024 slots; that each multiplier is in `1..=2^k - 1`; that
/// the way down goes through the junctions in exactly the reverse order of the way up; that each
/// element and each junction is a part of one junction or of the root; and that the operations
/// compute the network's step.
#[derive(Drop)]
pub struct Schedule {
    pub(crate) net: Net,
    pub(crate) ops: Vec<Op>,
    // By the elements' numbers.
    pub(crate) down_slots: Vec<u16>,
    pub(crate) slot_count: u16,
}

impl Model for Schedule {
    ghost use Rattle.wdf_sched.specs.Schedules.{ScheduleValue};
    ghost use Rattle.wdf_sched.specs.ScheduleCode.{schedule_code};

    ghost Value = { ScheduleValue };

    ghost coded = { schedule_code };

    ghost use Rattle.wdf_sched.specs.Schedules.{IsSchedule};

    ghost view = { λ s. record { net = s.net; ops = s.ops.items; down_slots = s.down_slots.items; slot_count = s.slot_count } };

    ghost invariant = { λ s. IsSchedule (record { net = s.net; ops = s.ops.items; down_slots = s.down_slots.items; slot_count = s.slot_count }) };
}

impl Schedule {
    /// The network whose step it is.
    pub fn net(&self) -> &Net
        ensures { result.now ≡ self.now.net }
    {
        &self.net
    }

    /// The operations, in the order in which they are carried out.
    pub fn ops(&self) -> &[Op]
        ensures { result.now ≡ self.now.ops }
    {
        &self.ops
    }

    /// How many slots there are: every slot's number is below this.
    pub fn slot_count(&self) -> usize
        ensures count { result ≡ self.now.slot_count }
        ensures few { result ≤ 1024 }
    {
        usize::from(self.slot_count)
    }

    /// The slots of the port of the element with this number, which is below the count of the
    /// network's elements.
    pub fn leaf_slots(&self, elem: u32) -> LeafSlots
        requires { elem < length (elements self.now.net) }
        ensures up { result.up ≡ elem }
        ensures down { result.down ≡ slot_at self.now.down_slots elem }
        ensures in_range { (result.up < self.now.slot_count) × (result.down < self.now.slot_count) }
    {
        self.rules();
        let down = self.down_slot(elem);
        LeafSlots {
            up: elem as u16,
            down,
        }
    }

    fn down_slot(&self, elem: u32) -> u16
        requires { elem < length (elements self.now.net) }
        ensures { result ≡ slot_at self.now.down_slots elem }
    {
        self.down_slots[elem as usize]
    }

    /// What the type of every schedule keeps.
    pub fn rules(&self)
        ensures { IsSchedule self.now }
    {
        let _ = &self.slot_count;
    }
}

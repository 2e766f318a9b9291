//! What the definitions of `specs/` imply: each function is a law, whose contract is proved and
//! whose body is empty.
ghost use Rattle.wdf_sched.specs.Carrying.{HasValues};
ghost use Rattle.wdf_sched.specs.Sums.{HasSmallSums};

use crate::Schedule;

/// For every state and every input there are values of the up slots to begin with. Carried out in
/// their order, the operations keep these and leave values that they all hold of; and with these in
/// the up slots no other values do.
pub fn values(schedule: &Schedule)
    ensures { HasValues schedule.now }
{
    schedule.rules();
    wdf_law::laws::numbers(schedule.net());
}

/// Where no wave in the slots of the operations is above a limit, and no raw one above q times it, no
/// value that an operation forms before truncation is above four times q times the limit.
pub fn sums(schedule: &Schedule)
    ensures { HasSmallSums schedule.now }
{
    schedule.rules();
}

//! Where in a scene file a refusal lies.
ghost use Rattle.std.specs.Prelude.{◌≡◌, ◌+◌};
ghost use Rattle.rail_scene.specs.Order.{item_number, fault_at};

use rail_base::{Fault, Part, Refusal};
use rail_track::NetFault;

/// The number of the item at the index, as a refusal tells it: up to the greatest that it has room for.
pub(crate) fn item_number(index: usize) -> u32
    ensures { result ≡ item_number (index + 1) }
{
    if index < u32::MAX as usize {
        index as u32 + 1
    } else {
        u32::MAX
    }
}

/// The fault of a table at its part and number.
pub(crate) fn located(part: Part, item: u32, fault: NetFault) -> Fault
    ensures { result ≡ fault_at part item fault }
{
    match fault {
        NetFault::Refused { reason, step } => Fault::Refused(Refusal {
            reason,
            part,
            item,
            step,
        }),
        NetFault::OutOfMemory => Fault::OutOfMemory,
    }
}

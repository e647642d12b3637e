ghost use Rattle.std.specs.Prelude.{◌≡◌, ◌<◌, ◌^◌, ◌+◌};
ghost use Rattle.st_base.specs.Faults.{unless};
ghost use Rattle.st_base.specs.declared.fault.TheConstants as numbers;
ghost use Rattle.aout_object.specs.Decoding.{fault_or};
ghost use Rattle.aout_link.specs.Refusals as spec;
ghost use Rattle.aout_link.specs.Answering.{AreSmall};

use crate::checked::Checked;
use crate::moves::Totals;
use st_base::{EMPTY, Fault, GREATEST_ADDRESS, MACHINE_MIX, ORDER_MIX, Order, TOO_LARGE};

/// The fault with this number at a part of an object: an entry or a relocation by its number.
pub fn fault_in(number: u16, object: usize, part: usize) -> Fault
    ensures { result ≡ spec.fault_in number object part }
{
    Fault {
        number,
        place: object as u64,
        within: part as u64,
    }
}

// Whether an object's byte order is not that of the first.
fn has_other_order(first: &Checked, object: &Checked) -> bool
    ensures { result ≡ spec.has_other_order first.now object.now }
{
    match (first.parts().order, object.parts().order) {
        (Order::Little, Order::Little) => false,
        (Order::Little, Order::Big) => true,
        (Order::Big, Order::Little) => true,
        (Order::Big, Order::Big) => false,
    }
}

fn check_orders(objects: &[Checked], first: &Checked) -> Result<(), Fault>
    ensures { result ≡ unless (spec.first_that (spec.has_other_order first.now) numbers.ORDER_MIX 0 objects.now) tt }
{
    for (at, object) in objects.iter().enumerate() {
        if has_other_order(first, object) {
            return Err(Fault::at(ORDER_MIX, at as u64));
        }
    }
    Ok(())
}

// Whether an object's machine word is not that of the first.
fn has_other_machine(first: &Checked, object: &Checked) -> bool
    ensures { result ≡ spec.has_other_machine first.now object.now }
{
    object.parts().machine != first.parts().machine
}

fn check_machines(objects: &[Checked], first: &Checked) -> Result<(), Fault>
    ensures { result ≡ unless (spec.first_that (spec.has_other_machine first.now) numbers.MACHINE_MIX 0 objects.now) tt }
{
    for (at, object) in objects.iter().enumerate() {
        if has_other_machine(first, object) {
            return Err(Fault::at(MACHINE_MIX, at as u64));
        }
    }
    Ok(())
}

/// Checks that there are objects, of one byte order and one machine word. Refused with `EMPTY`, and with `ORDER_MIX` and then
/// `MACHINE_MIX` at the first object that is not as the first. Takes no memory.
pub fn check_alike(objects: &[Checked]) -> Result<(), Fault>
    ensures { result ≡ unless (fault_or (spec.empty_fault objects.now) (fault_or (spec.order_fault objects.now) (spec.machine_fault objects.now))) tt }
{
    match objects {
        [] => Err(Fault::at(EMPTY, 0)),
        [first, ..] => {
            check_orders(objects, first)?;
            check_machines(objects, first)
        }
    }
}

/// The size of bss in the image, where the end of bss is an address; `commons` are the bytes of the commons. Refused with `TOO_LARGE`
/// and the greatest address as place. Takes no memory.
pub fn check_end(base: u32, totals: &Totals, commons: u128) -> Result<u32, Fault>
    requires small { AreSmall totals.now }
    requires commons { commons < 2 ^ 120 }
    ensures { result ≡ unless (spec.end_fault base totals.now commons) (totals.now.bss + commons) }
{
    let bss = totals.bss + commons;
    if base as u128 + totals.text + totals.datum + bss > GREATEST_ADDRESS as u128 {
        return Err(Fault::at(TOO_LARGE, GREATEST_ADDRESS));
    }
    Ok(bss as u32)
}

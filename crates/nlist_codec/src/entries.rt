ghost use Rattle.std.specs.Prelude.{◌≡◌, ◌%◌, length, IfOk};
ghost use Rattle.st_base.specs.ByteOrder.{is_big};
ghost use Rattle.st_base.specs.declared.sizes.TheConstants.{ENTRY_SIZE};
ghost use Rattle.nlist_codec.specs.Entries.{entries_in};

use crate::entry::{Entry, read_entry};
use st_base::{ENTRY_SIZE, List, Memory, Order};
use std::alloc::Global;

fn read_each<const BIG: bool>(alloc: Global, bytes: &[u8]) -> Result<List<Entry>, Memory>
    requires { length bytes.now % ENTRY_SIZE ≡ 0 }
    ensures { IfOk result (λ entries. entries ≡ entries_in BIG bytes.now) }
{
    let mut entries = List::new(alloc);
    let (pieces, _) = bytes.as_chunks::<ENTRY_SIZE>();
    for piece in pieces {
        entries.push(read_entry::<BIG>(piece))?;
    }
    Ok(entries)
}

/// Reads the entries of bytes that hold one in each twelve, in order. Out of memory is its only refusal.
pub fn read_entries(alloc: Global, order: Order, bytes: &[u8]) -> Result<List<Entry>, Memory>
    requires { length bytes.now % ENTRY_SIZE ≡ 0 }
    ensures { IfOk result (λ entries. entries ≡ entries_in (is_big order) bytes.now) }
{
    match order {
        Order::Little => read_each::<false>(alloc, bytes),
        Order::Big => read_each::<true>(alloc, bytes),
    }
}

ghost use Rattle.std.specs.Prelude.{◌≡◌, ◌++◌, IfOk, OnOk};
ghost use Rattle.std.specs.List.{AllByRecursion};
ghost use Rattle.st_base.specs.ByteOrder.{is_big};
ghost use Rattle.aout_layout.specs.Headers.{HeaderFits};
ghost use Rattle.nlist_codec.specs.Entries.{entry_bytes};
ghost use Rattle.aout_object.specs.Objects as spec;
ghost use Rattle.aout_object.specs.Objects.{IsReloc, ObjectFits, ObjectSpells};

use crate::object::Object;
use aout_layout::{Header, write_header};
use nlist_codec::{Entry, write_entry};
use reloc::{Reloc, write_reloc};
use st_base::{ENTRY_SIZE, Memory, Order, RELOC_SIZE, Text};
use std::alloc::Global;

// The header of an object's file.
fn header_for(object: &Object) -> Header
    ensures header { result ≡ spec.header_for object.now }
    ensures lawful { ObjectFits object.now }
{
    let parts = &object.parts;
    Header {
        order: parts.order,
        machine: parts.machine,
        text: parts.text.bytes().len() as u32,
        data_part: parts.data_part.bytes().len() as u32,
        bss: parts.bss,
        symbols: (object.entries.len() * ENTRY_SIZE) as u32,
        entry: parts.entry,
        text_relocs: (parts.text_relocs.len() * RELOC_SIZE) as u32,
        data_relocs: (parts.data_relocs.len() * RELOC_SIZE) as u32,
    }
}

fn put_relocs<const BIG: bool>(out: &mut Text, relocs: &[Reloc]) -> Result<(), Memory>
    requires { AllByRecursion IsReloc relocs.now }
    ensures { OnOk result (out.new ≡ out.old ++ spec.relocs_bytes BIG relocs.now) }
{
    for reloc in relocs {
        out.extend(&write_reloc::<BIG>(reloc))?;
    }
    Ok(())
}

fn put_entry<const BIG: bool>(out: &mut Text, entry: &Entry) -> Result<(), Memory>
    ensures { OnOk result (out.new ≡ out.old ++ entry_bytes BIG entry.now) }
{
    out.extend(&write_entry::<BIG>(entry))
}

fn put_entries<const BIG: bool>(out: &mut Text, entries: &[Entry]) -> Result<(), Memory>
    ensures { OnOk result (out.new ≡ out.old ++ spec.entries_bytes BIG entries.now) }
{
    for entry in entries {
        put_entry::<BIG>(out, entry)?;
    }
    Ok(())
}

// What stands after the header.
fn put_parts<const BIG: bool>(out: &mut Text, object: &Object) -> Result<(), Memory>
    requires { ObjectFits object.now }
    ensures { OnOk result (out.new ≡ out.old ++ spec.behind_header BIG object.now) }
{
    let parts = object.parts();
    out.extend(parts.text.bytes())?;
    out.extend(parts.data_part.bytes())?;
    put_relocs::<BIG>(out, parts.text_relocs.items())?;
    put_relocs::<BIG>(out, parts.data_relocs.items())?;
    put_entries::<BIG>(out, object.entries().items())?;
    out.extend(object.strings().bytes())
}

// The same in the object's byte order.
fn put_behind(out: &mut Text, object: &Object) -> Result<(), Memory>
    requires { ObjectFits object.now }
    ensures { OnOk result (out.new ≡ out.old ++ spec.behind_header (is_big object.now.parts.order) object.now) }
{
    match object.parts().order {
        Order::Little => put_parts::<false>(out, object),
        Order::Big => put_parts::<true>(out, object),
    }
}

/// Encodes an object: the one file that spells it, so that decoding the file gives the object. Out of memory is its only refusal.
pub fn encode(alloc: Global, object: &Object) -> Result<Text, Memory>
    ensures { IfOk result (λ file. ObjectSpells object.now file) }
{
    let header = header_for(object);
    let mut out = Text::new(alloc);
    out.extend(&write_header(&header))?;
    put_behind(&mut out, object)?;
    Ok(out)
}

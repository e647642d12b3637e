//! `link MODE ADDR OUT OBJ...`: each file is decoded, then the units of each are read, and then the objects are linked.

ghost use Rattle.std.specs.Prelude.{◌≡◌, ◌++◌, IfOk, OnOk, length, codes, decimal};
ghost use Rattle.file_commands.specs.Inputs as inputs;
ghost use Rattle.file_commands.specs.LinkOutcomes as spec;

use crate::objects::{check_objects, read_objects};
use crate::outcome::{Outcome, kept_with, limit, list_refused, list_refused_at, refused};
use aout_link::{Checked, Image, Mode, link};
use aout_object::{Object, encode};
use nlist_codec::Named;
use st_base::{Fault, List, Memory, Refused, Steps, TOO_LARGE, TWICE, Text, UNDEFINED, put_number};
use std::alloc::Global;
use std::marker::Brand;
use std::sync::ledger::{Blank, Ledger};

// ---- an image

fn put_ranges(image: &Image, out: &mut Text) -> Result<(), Memory>
    ensures { OnOk result (out.new ≡ out.old ++ codes "ranges " ++ decimal image.now.ranges ++ codes " kept " ++ decimal image.now.kept) }
{
    out.extend(b"ranges ")?;
    put_number(u64::from(image.ranges), out)?;
    out.extend(b" kept ")?;
    put_number(u64::from(image.kept), out)
}

/// `ranges R kept K entries E`.
pub(crate) fn image_text(alloc: Global, image: &Image) -> Result<Text, Memory>
    ensures { IfOk result (λ text. text ≡ spec.image_text image.now) }
{
    let mut text = Text::new(alloc);
    put_ranges(image, &mut text)?;
    text.extend(b" entries ")?;
    put_number(image.object.entries().len() as u64, &mut text)?;
    text.push(b'\n')?;
    Ok(text)
}

/// The file of an image is to be stored.
fn keep_image(alloc: Global, out: &[u8], image: &Image) -> Result<Outcome, Memory>
    ensures { IfOk result (λ o. o ≡ spec.kept_image out.now image.now) }
{
    let text = image_text(alloc, image)?;
    let file = encode(alloc, &image.object)?;
    kept_with(alloc, out, file, text)
}

// ---- refusals of a list

fn name_in(named: &List<Named>, at: u64) -> &[u8]
    ensures { result.now ≡ spec.name_in named.now at }
{
    match named.get(at as usize) {
        Some(entry) => entry.name.bytes(),
        None => &[],
    }
}

fn entry_name(sources: &List<Checked>, fault: Fault) -> &[u8]
    ensures { result.now ≡ spec.entry_name sources.now fault }
{
    match sources.get(fault.place as usize) {
        Some(source) => name_in(source.named(), fault.within),
        None => &[],
    }
}

/// The line of a fault of a list.
pub(crate) fn refuse_list(
    alloc: Global,
    sources: &List<Checked>,
    fault: Fault,
) -> Result<Outcome, Memory>
    ensures { IfOk result (λ o. o ≡ spec.list_outcome sources.now fault) }
{
    if fault.number == TOO_LARGE {
        limit(alloc, fault.place)
    } else if fault.number == UNDEFINED || fault.number == TWICE {
        list_refused_at(alloc, fault, entry_name(sources, fault))
    } else {
        list_refused(alloc, fault)
    }
}

// ---- linking

fn link_counted<L: Ledger>(
    alloc: Global,
    mode: Mode,
    base: u32,
    out: &[u8],
    sources: &List<Checked>,
    blank: Blank,
) -> Result<Outcome, Memory>
    requires name { blank.name ≡ L.name }
    requires parts { blank.parts ≡ L.parts }
    requires whole { blank.parts ≡ 1 }
    ensures { IfOk result (spec.LinksSources mode base out.now sources.now) }
{
    let mut steps = Steps::<L>::new(blank);
    match link(alloc, sources, base, mode, &mut steps) {
        Ok(image) => keep_image(alloc, out, &image),
        Err(Refused::At(fault)) => refuse_list(alloc, sources, fault),
        Err(Refused::Memory) => Err(Memory),
    }
}

/// The image of sources is to be stored.
fn link_sources(
    alloc: Global,
    mode: Mode,
    base: u32,
    out: &[u8],
    sources: &List<Checked>,
) -> Result<Outcome, Memory>
    ensures { IfOk result (spec.LinksSources mode base out.now sources.now) }
{
    link_counted::<Brand>(alloc, mode, base, out, sources, Blank::new(1))
}

/// The name at a place; empty where there is none.
pub(crate) fn name_at(names: &[Text], place: usize) -> &[u8]
    ensures { result.now ≡ inputs.name_at names.now place }
{
    match names.get(place) {
        Some(name) => name.bytes(),
        None => &[],
    }
}

/// The image of objects is to be stored.
fn link_objects(
    alloc: Global,
    mode: Mode,
    base: u32,
    out: &[u8],
    names: &[Text],
    objects: List<Object>,
) -> Result<Outcome, Memory>
    ensures { IfOk result (spec.LinksObjects mode base out.now names.now objects) }
{
    match check_objects(alloc, objects)? {
        Ok(sources) => link_sources(alloc, mode, base, out, &sources),
        Err(misfit) => refused(alloc, name_at(names, misfit.place), misfit.fault),
    }
}

/// The image of the objects that files with these names and texts spell is to be stored.
pub(crate) fn link_files(
    alloc: Global,
    mode: Mode,
    base: u32,
    out: &[u8],
    names: &[Text],
    texts: List<Text>,
) -> Result<Outcome, Memory>
    ensures { IfOk result (spec.LinksFiles mode base out.now names.now texts) }
{
    match read_objects(alloc, texts)? {
        Ok(objects) => link_objects(alloc, mode, base, out, names, objects),
        Err(misfit) => refused(alloc, name_at(names, misfit.place), misfit.fault),
    }
}

//! `ask OBJ... -- QUERY...`: objects are linked in memory, each header that several units share being kept once, and the query is answered on the
//! world of their image.

ghost use Rattle.std.specs.Prelude.{◌≡◌, IfOk};
ghost use Rattle.type_graph.specs.declared.world.World.{World as WorldValue};
ghost use Rattle.file_commands.specs.Asking as spec;
ghost use Rattle.file_commands.specs.QueryOutcomes.{IsWorld};

use crate::link::{image_text, name_at, refuse_list};
use crate::objects::{check_objects, read_objects};
use crate::outcome::{DONE, Outcome, printed, refused};
use crate::reading::read_world;
use aout_link::{Checked, Image, Mode, link};
use aout_object::Object;
use query_text::{Query, reply_text};
use st_base::{List, Memory, Refused, Steps, Text};
use std::alloc::Global;
use std::marker::Brand;
use std::sync::ledger::{Blank, Ledger};
use unit_index::one_expansion;

/// The line of an image, and the reply on its world.
fn ask_image(alloc: Global, query: &Query, image: Image) -> Result<Outcome, Memory>
    requires { (world : WorldValue) × IsWorld image.object world }
    ensures { IfOk result (spec.RepliesOnImage query.now image) }
{
    one_expansion();
    let mut text = image_text(alloc, &image)?;
    match read_world(alloc, image.object) {
        Ok(world) => {
            let reply = reply_text(alloc, &world, query)?;
            text.extend(reply.bytes())?;
            Ok(printed(DONE, text))
        }
        // the image of objects has a world
        Err(Refused::At(_)) => unreachable!(),
        Err(Refused::Memory) => Err(Memory),
    }
}

fn ask_counted<L: Ledger>(
    alloc: Global,
    query: &Query,
    sources: &List<Checked>,
    blank: Blank,
) -> Result<Outcome, Memory>
    requires name { blank.name ≡ L.name }
    requires parts { blank.parts ≡ L.parts }
    requires whole { blank.parts ≡ 1 }
    ensures { IfOk result (spec.AsksSources query.now sources.now) }
{
    let mut steps = Steps::<L>::new(blank);
    match link(alloc, sources, 0, Mode::Merge, &mut steps) {
        Ok(image) => ask_image(alloc, query, image),
        Err(Refused::At(fault)) => refuse_list(alloc, sources, fault),
        Err(Refused::Memory) => Err(Memory),
    }
}

/// The reply on the image of sources.
fn ask_sources(alloc: Global, query: &Query, sources: &List<Checked>) -> Result<Outcome, Memory>
    ensures { IfOk result (spec.AsksSources query.now sources.now) }
{
    ask_counted::<Brand>(alloc, query, sources, Blank::new(1))
}

/// The reply on the image of objects.
fn ask_objects(
    alloc: Global,
    query: &Query,
    names: &[Text],
    objects: List<Object>,
) -> Result<Outcome, Memory>
    ensures { IfOk result (spec.AsksObjects query.now names.now objects) }
{
    match check_objects(alloc, objects)? {
        Ok(sources) => ask_sources(alloc, query, &sources),
        Err(misfit) => refused(alloc, name_at(names, misfit.place), misfit.fault),
    }
}

/// The reply on the image of the objects that files with these names and texts spell. Nothing is stored.
pub(crate) fn ask_files(
    alloc: Global,
    query: &Query,
    names: &[Text],
    texts: List<Text>,
) -> Result<Outcome, Memory>
    ensures { IfOk result (spec.AsksFiles query.now names.now texts) }
{
    match read_objects(alloc, texts)? {
        Ok(objects) => ask_objects(alloc, query, names, objects),
        Err(misfit) => refused(alloc, name_at(names, misfit.place), misfit.fault),
    }
}

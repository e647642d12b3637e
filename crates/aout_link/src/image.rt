ghost use Rattle.std.specs.Prelude.{◌≡◌, IfOk};
ghost use Rattle.aout_object.specs.Objects.{named_of};
ghost use Rattle.aout_object.specs.Decoding.{Answers};
ghost use Rattle.aout_link.specs.ImageMaking.{CanBeMade, image_of, size_fault};

use crate::placed::Placed;
use aout_object::{Object, Parts};
use st_base::{List, Refused};
use std::alloc::Global;

/// What is placed of a list of objects, with the entries of its image: header ranges are merged.
#[derive(Debug, Drop)]
pub(crate) struct Merged {
    pub(crate) image: Placed,
}

/// The object of what is placed and merged: its segments without relocations, its entries in order, and each distinct name once in the string
/// table. Refused with `TOO_LARGE` and place 134,217,728 where its file would have more bytes; out of memory is an answer of its own.
/// The condition is one that `place_objects` ensures, and that holds while names, kinds and segments stay as they are.
pub(crate) fn make_image(alloc: Global, merged: Merged) -> Result<Object, Refused>
    requires { CanBeMade merged.image }
    ensures made { Answers result (size_fault merged.image) (image_of merged.image) }
    ensures named { IfOk result (λ o. named_of o ≡ merged.image.named) }
{
    let Placed {
        order,
        machine,
        entry,
        text,
        data_part,
        bss,
        named,
    } = merged.image;
    let parts = Parts {
        order,
        machine,
        bss,
        entry,
        text,
        data_part,
        text_relocs: List::new(alloc),
        data_relocs: List::new(alloc),
    };
    match Object::make(alloc, parts, &named) {
        Ok(object) => Ok(object),
        Err(why) => Err(why),
    }
}

//! That the text of an object is read back: a law is a function without a body, whose clause states it. For an `Object`, whose
//! invariant has what the law asks for, the law is one call.

ghost use Rattle.st_base.specs.Number.{IsBytes};
ghost use Rattle.aout_object.specs.Objects.{Contents, ObjectFits};
ghost use Rattle.stabs_asm.specs.Listing.{HoldsBytes, IsAssembledAgain, IsListed};

use aout_object::Object;

/// The text of an object is read as statements without a fault, and they give its parts and its entries again. So it assembles to the
/// object of these, or is refused where the file of that one would pass the limit of a file, and nowhere else. Text, data and string
/// table are to hold bytes; those of an `Object` do, as `object_holds_bytes` says.
pub fn listing_laws()
    ensures read { (o : Contents) → ObjectFits o → HoldsBytes o → IsListed o }
    ensures again { (o : Contents) → ObjectFits o → HoldsBytes o → IsAssembledAgain o }
{}

// The items of a slice are bytes, as its type says.
fn are_bytes(bytes: &[u8])
    ensures { IsBytes bytes.now }
{}

/// Text, data and string table of an object hold bytes. Takes no memory.
pub fn object_holds_bytes(object: &Object)
    ensures { HoldsBytes object.now }
{
    let parts = object.parts();
    are_bytes(parts.text.bytes());
    are_bytes(parts.data_part.bytes());
    are_bytes(object.strings().bytes());
}

/// What `listing_laws` says, of this object. Takes no memory.
pub fn object_is_listed(object: &Object)
    ensures read { IsListed object.now }
    ensures again { IsAssembledAgain object.now }
{
    object_holds_bytes(object);
    // its clause `lawful` is that the object fits
    object.parts();
    listing_laws();
}

ghost use Rattle.std.specs.Prelude.{◌≡◌, ◌++◌, ◌<◌, OnOk, OnErr, flat_map};
ghost use Rattle.st_base.specs.Shown as spec;

use crate::fault::Memory;
use crate::numerals::hex_digit;
use crate::text::Text;

fn show_escaped(out: &mut Text, byte: u8) -> Result<(), Memory>
    ensures ok { OnOk result (out.new ≡ out.old ++ spec.escaped byte) }
    ensures err { OnErr result (out.new ≡ out.old) }
{
    let escape = [b'\\', b'x', hex_digit(byte / 16), hex_digit(byte % 16)];
    out.extend(&escape)
}

fn show_byte(out: &mut Text, byte: u8) -> Result<(), Memory>
    ensures ok { OnOk result (out.new ≡ out.old ++ spec.shown_byte byte) }
    ensures err { OnErr result (out.new ≡ out.old) }
{
    if b'!' <= byte && byte <= b'~' && byte != b'\\' {
        out.push(byte)
    } else {
        show_escaped(out, byte)
    }
}

fn show_each(out: &mut Text, bytes: &[u8]) -> Result<(), Memory>
    ensures ok { OnOk result (out.new ≡ out.old ++ flat_map spec.shown_byte bytes.now) }
    ensures err { OnErr result (out.new ≡ out.old) }
{
    let before = out.bytes().len();
    for byte in bytes {
        if show_byte(out, *byte).is_err() {
            out.cut(before);
            return Err(Memory);
        }
    }
    Ok(())
}

/// Appends the shown form of a text, or changes nothing: a byte from `!` to `~` other than the backslash
/// is itself, any other byte is `\x` and two lower-case digits; an empty text is `-`, and the text `-` is
/// `\x2d`.
pub fn show(out: &mut Text, bytes: &[u8]) -> Result<(), Memory>
    ensures ok { OnOk result (out.new ≡ out.old ++ spec.shown bytes.now) }
    ensures err { OnErr result (out.new ≡ out.old) }
{
    match bytes {
        [] => out.push(b'-'),
        [b'-'] => show_escaped(out, b'-'),
        _ => show_each(out, bytes),
    }
}

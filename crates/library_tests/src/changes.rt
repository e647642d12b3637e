use st_base::{Order, Text, set_first_word};
use test_tables::{Answer, Odd, cut, number_of};

// Changes of a file, for rows that say what it answers then. `16:25` sets the word at place 16 to 25, in the order of the file;
// `47=0x06/0x60` sets the byte at place 47 in a little-endian file to 0x06, and in a big-endian one to 0x60.

fn set_word(order: Order, file: &mut [u8], place: &[u8], word: &[u8]) -> Result<(), Odd> {
    let at = number_of(0xff, place)? as usize;
    let word = number_of(0xffff_ffff, word)? as u32;
    if file.len() < at + 4 {
        return Err(Odd::Row);
    }
    set_first_word(order, &mut file[at..], word);
    Ok(())
}

fn set_byte(order: Order, file: &mut [u8], place: &[u8], choice: &[u8]) -> Result<(), Odd> {
    let at = number_of(0xff, place)? as usize;
    let Some((little, big)) = cut(choice, b'/') else {
        return Err(Odd::Row);
    };
    let spelled = match order {
        Order::Little => little,
        Order::Big => big,
    };
    let byte = number_of(0xff, spelled)? as u8;
    if file.len() <= at {
        return Err(Odd::Row);
    }
    file[at] = byte;
    Ok(())
}

fn change(order: Order, file: &mut [u8], change: &[u8]) -> Result<(), Odd> {
    if let Some((place, word)) = cut(change, b':') {
        return set_word(order, file, place, word);
    }
    match cut(change, b'=') {
        Some((place, choice)) => set_byte(order, file, place, choice),
        None => Err(Odd::Row),
    }
}

/// The file that is spelled so, with changes.
pub fn changed(order: Order, changes: &[u8], spelled: &[u8], out: &mut Answer) -> Text {
    let mut file = out.bytes_in(spelled);
    if !changes.is_empty() {
        for one in changes.split(|b| *b == b' ') {
            if let Err(odd) = change(order, file.bytes_mut(), one) {
                out.fail(odd);
            }
        }
    }
    file
}

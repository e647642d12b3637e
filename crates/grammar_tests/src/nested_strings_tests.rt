use crate::holds::none_fails;
use crate::stab_strings::{reads, refuses};
use st_base::{Memory, Text};
use std::alloc::Global;
use test_tables::Told;

// Every form of a type in every other, and behind every descriptor: read, and printed as it stood.

/// The forms with types inside, and each descriptor before a type with which it may begin a symbol; `_` stands where the inner type goes.
const OUTER: &[u8] = b"
x:t_
x:t7=_
x:t(1,2)=_
x:t*_
x:tf_
x:tk_
x:tB_
x:tr_;-1;J;
x:tar_;0;9;8
x:tar7;0;9;_
x:ts8a:_,0,32;b:7,32,32;;
x:ts8a:7,0,32;b:_,32,32;;
x:tu4a:_,0,32;;
x:t@s16;_
x:f_
x:F_
x:G_
x:S_
x:V_
x:p_
x:P_
x:r_
x:a_
x:v_
x:t_
x:T_
x:Tt_
x:7=_
";

/// Every form, and those whose parts may be absent without them too.
const INNER: &[u8] = b"
7
(1,2)
7=8
(1,2)=8
*8
f8
k8
B8
r8;0;037;
ar8;J;-9;7
s8c:7,0,32;d:8,32,32;;
s0;
u4c:7,0,8;;
ea:0,b:-1,;
e;
xsa:
xua:
xea:
@s16;8
-7;
R1;8;0;
";

/// A text with what stands in it for `_`.
fn filled(alloc: Global, outer: &[u8], inner: &[u8]) -> Result<Text, Memory> {
    let mut text = Text::new(alloc);
    for byte in outer {
        if *byte == b'_' {
            text.extend(inner)?;
        } else {
            text.push(*byte)?;
        }
    }
    Ok(text)
}

/// Tells a string that is not read, or not printed as it stood, whose front without the last byte does not begin a symbol, or behind which
/// a `!` may stand.
fn is_whole(told: &mut Told, alloc: Global, text: &[u8]) {
    reads(told, alloc, text);
    if let [front @ .., _] = text {
        refuses(told, alloc, front, 41, front.len());
    }
    match filled(alloc, b"_!", text) {
        Ok(longer) => refuses(told, alloc, longer.bytes(), 40, text.len()),
        Err(_) => told.lose(),
    }
}

/// Each inner form in this outer one.
fn is_whole_with_each(told: &mut Told, alloc: Global, outer: &[u8]) {
    for inner in INNER.split(|b| *b == b'\n') {
        if !inner.is_empty() {
            match filled(alloc, outer, inner) {
                Ok(text) => is_whole(told, alloc, text.bytes()),
                Err(_) => told.lose(),
            }
        }
    }
}

#[test]
fn each_form_stands_in_each_other_and_behind_each_descriptor(rt: HostRuntime) {
    let mut told = Told::new(rt.alloc());
    for outer in OUTER.split(|b| *b == b'\n') {
        if !outer.is_empty() {
            is_whole_with_each(&mut told, rt.alloc(), outer);
        }
    }
    none_fails(&rt, &told);
}

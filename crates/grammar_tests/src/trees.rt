use stab_grammar::{Choice, Descriptor, Field, Num, Numeral, Tag, TypeTree};
use test_tables::Answer;

// A tree in words, so that a row says which tree a string spells. Each form is a word and what it holds, in the order of the
// tree's fields: `pointer plain 7`, `struct 4 field a plain 7 0 8 end`.

pub fn put_descriptor(descriptor: Descriptor, out: &mut Answer) {
    let name = match descriptor {
        Descriptor::Stack => b"stack".as_slice(),
        Descriptor::StaticFun => b"static-function",
        Descriptor::GlobalFun => b"global-function",
        Descriptor::Global => b"global",
        Descriptor::FileStatic => b"file-static",
        Descriptor::ProcStatic => b"function-static",
        Descriptor::Param => b"parameter",
        Descriptor::RegParam => b"register-parameter",
        Descriptor::Register => b"register",
        Descriptor::RefRegParam => b"register-reference",
        Descriptor::RefParam => b"reference",
        Descriptor::Typedef => b"typedef",
        Descriptor::Tag => b"tag",
        Descriptor::TagTypedef => b"tag-typedef",
    };
    out.put(name);
}

fn put_num(num: &Num, out: &mut Answer) {
    match num {
        Num::Plain(number) => {
            out.put(b"plain");
            out.put_number(u64::from(*number));
        }
        Num::Pair(file, number) => {
            out.put(b"pair");
            out.put_number(u64::from(*file));
            out.put_number(u64::from(*number));
        }
    }
}

fn put_numeral(numeral: &Numeral, out: &mut Answer) {
    match numeral {
        Numeral::Unbounded => out.put(b"unbounded"),
        Numeral::Digits(negative, digits) => {
            out.put(if *negative { b"minus" } else { b"plus" });
            out.put(digits.bytes());
        }
    }
}

fn put_tag(tag: Tag, out: &mut Answer) {
    match tag {
        Tag::Struct => out.put(b"struct"),
        Tag::Union => out.put(b"union"),
        Tag::Enum => out.put(b"enum"),
    }
}

fn put_choices(choices: &[Choice], out: &mut Answer) {
    for choice in choices {
        out.put(b"choice");
        out.put_name(choice.name.bytes());
        put_numeral(&choice.number, out);
    }
    out.put(b"end");
}

#[cycle(trees)]
fn put_field(field: &Field, out: &mut Answer) {
    out.put(b"field");
    out.put_name(field.name.bytes());
    put_tree(&field.tree, out);
    out.put_number(u64::from(field.bit));
    out.put_number(u64::from(field.bits));
}

#[cycle(trees)]
fn put_fields(form: &[u8], size: u32, fields: &[Field], out: &mut Answer) {
    out.put(form);
    out.put_number(u64::from(size));
    for field in fields {
        put_field(field, out);
    }
    out.put(b"end");
}

#[cycle(trees)]
fn put_form(form: &[u8], inner: &TypeTree, out: &mut Answer) {
    out.put(form);
    put_tree(inner, out);
}

#[cycle(trees)]
pub fn put_tree(tree: &TypeTree, out: &mut Answer) {
    match tree {
        TypeTree::Ref(num) => put_num(num, out),
        TypeTree::Def(num, inner) => {
            put_num(num, out);
            put_form(b"is", inner.get(), out);
        }
        TypeTree::Pointer(inner) => put_form(b"pointer", inner.get(), out),
        TypeTree::Function(inner) => put_form(b"function", inner.get(), out),
        TypeTree::Const(inner) => put_form(b"const", inner.get(), out),
        TypeTree::Volatile(inner) => put_form(b"volatile", inner.get(), out),
        TypeTree::Range(inner, low, high) => {
            put_form(b"range", inner.get(), out);
            put_numeral(low, out);
            put_numeral(high, out);
        }
        TypeTree::Array(index, low, high, item) => {
            put_form(b"array", index.get(), out);
            put_numeral(low, out);
            put_numeral(high, out);
            put_form(b"of", item.get(), out);
        }
        TypeTree::Struct(size, fields) => put_fields(b"struct", *size, fields.items(), out),
        TypeTree::Union(size, fields) => put_fields(b"union", *size, fields.items(), out),
        TypeTree::Enum(choices) => {
            out.put(b"enum");
            put_choices(choices.items(), out);
        }
        TypeTree::Cross(tag, name) => {
            out.put(b"cross");
            put_tag(*tag, out);
            out.put_name(name.bytes());
        }
        TypeTree::Sized(bits, inner) => {
            out.put(b"sized");
            out.put_number(u64::from(*bits));
            put_tree(inner.get(), out);
        }
        TypeTree::Builtin(number) => {
            out.put(b"builtin");
            out.put_number(u64::from(*number));
        }
        TypeTree::Real(first, second, third) => {
            out.put(b"real");
            out.put_number(u64::from(*first));
            out.put_number(u64::from(*second));
            out.put_number(u64::from(*third));
        }
    }
}

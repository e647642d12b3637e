//! What words ask: a command with its operands, or the place of the wrong word.

ghost use Rattle.std.specs.Prelude.{◌≡◌, ◌≤◌, ◌<◌, ◌+◌, ◌++◌, IfOk, OnOk, Ok, length, take, drop};
ghost use Rattle.command_line.specs.Commands as spec;

use crate::limits::OBJECT_LIMIT;
use crate::words::{
    Keyword, Operand, Want, base_of, first_no_text, mode_of, objects_end, order_of, text_of,
    word_of, wrong_front,
};
use bincl_match::Mode;
use query_text::{Query, read_query};
use st_base::{FILE_LIMIT, List, Memory, Order, Refused, SOURCE_LIMIT, Text};
use std::alloc::Global;

/// A command with its operands.
#[derive(Debug, Drop)]
pub enum Command {
    /// `query FILE QUERY...`
    Query {
        file: Text,
        query: Query,
    },
    /// `check FILE`
    Check {
        file: Text,
    },
    /// `dump FILE`
    Dump {
        file: Text,
    },
    /// `list FILE`
    List {
        file: Text,
    },
    /// `as ORDER IN OUT`
    As {
        order: Order,
        file: Text,
        out: Text,
    },
    /// `link MODE ADDR OUT OBJ...`
    Link {
        mode: Mode,
        base: u32,
        out: Text,
        objects: List<Text>,
    },
    /// `ask OBJ... -- QUERY...`
    Ask {
        objects: List<Text>,
        query: Query,
    },
}

/// What the words of a line ask.
#[derive(Debug, Drop)]
pub enum Asked {
    Command(Command),
    /// No command: the place of the first wrong word, of the first one too many, or the number of words where one is missing.
    Wrong(usize),
}

/// The forms of command lines; each is a list of places, and what may follow them.
#[derive(Clone, Copy, Debug, Drop, PartialEq, Eq)]
enum Form {
    /// `query FILE`, and the words of a query.
    Query,
    /// `check FILE`
    Check,
    /// `dump FILE`
    Dump,
    /// `list FILE`
    List,
    /// `as ORDER IN OUT`
    As,
    /// `link MODE ADDR OUT OBJ`, and more words that are OBJ.
    Link,
    /// `ask OBJ`, more words that are OBJ, `--`, and the words of a query.
    Ask,
}

const FORMS: [Form; 7] = [
    Form::Query,
    Form::Check,
    Form::Dump,
    Form::List,
    Form::As,
    Form::Link,
    Form::Ask,
];

/// What the places of a form want.
fn places_of(form: Form) -> &'static [Want]
    ensures { result.now ≡ spec.places_of form }
{
    match form {
        Form::Query => &[Want::This(Keyword::Query), Want::Any(Operand::File)],
        Form::Check => &[Want::This(Keyword::Check), Want::Any(Operand::File)],
        Form::Dump => &[Want::This(Keyword::Dump), Want::Any(Operand::File)],
        Form::List => &[Want::This(Keyword::List), Want::Any(Operand::File)],
        Form::As => &[
            Want::This(Keyword::As),
            Want::Order,
            Want::Any(Operand::File),
            Want::Any(Operand::Out),
        ],
        Form::Link => &[
            Want::This(Keyword::Link),
            Want::Mode,
            Want::Base,
            Want::Any(Operand::Out),
            Want::Any(Operand::File),
        ],
        Form::Ask => &[Want::This(Keyword::Ask), Want::Object],
    }
}

/// A copy of the word that is FILE.
fn file_of(alloc: Global, form: Form, words: &List<Text>) -> Result<Text, Memory>
    ensures { IfOk result (λ file. file ≡ spec.file_of form words.now) }
{
    text_of(alloc, places_of(form), words.items(), Operand::File)
}

/// A copy of the word that is OUT.
fn out_of(alloc: Global, form: Form, words: &List<Text>) -> Result<Text, Memory>
    ensures { IfOk result (λ out. out ≡ spec.out_of form words.now) }
{
    text_of(alloc, places_of(form), words.items(), Operand::Out)
}

/// The byte order that ORDER names.
fn order_in(form: Form, words: &List<Text>) -> Order
    ensures { result ≡ spec.order_in form words.now }
{
    match order_of(word_of(places_of(form), words.items(), Operand::Order)) {
        Some(order) => order,
        None => Order::Little,
    }
}

/// The address that ADDR spells.
fn base_in(form: Form, words: &List<Text>) -> u32
    ensures { result ≡ spec.base_in form words.now }
{
    match base_of(word_of(places_of(form), words.items(), Operand::Base)) {
        Some(base) => base,
        None => 0,
    }
}

/// The mode that MODE names.
fn mode_in(form: Form, words: &List<Text>) -> Mode
    ensures { result ≡ spec.mode_in form words.now }
{
    match mode_of(word_of(places_of(form), words.items(), Operand::Mode)) {
        Some(mode) => mode,
        None => Mode::Keep,
    }
}

/// Appends copies of the words from a place on.
fn put_words(alloc: Global, from: usize, words: &[Text], out: &mut List<Text>) -> Result<(), Memory>
    requires { from ≤ length words.now }
    ensures { OnOk result (out.new ≡ out.old ++ drop from words.now) }
{
    for at in from..words.len() {
        out.push(words[at].copy(alloc)?)?;
    }
    Ok(())
}

/// Copies of the words that are OBJ.
fn objects_in(alloc: Global, form: Form, words: &List<Text>) -> Result<List<Text>, Memory>
    requires { length (spec.places_of form) ≤ length words.now }
    ensures { IfOk result (λ objects. objects ≡ spec.objects_in form words.now) }
{
    let mut objects = List::new(alloc);
    objects.push(file_of(alloc, form, words)?)?;
    put_words(alloc, places_of(form).len(), words.items(), &mut objects)?;
    Ok(objects)
}

/// The place of the first word too many, where nothing may follow the words of a form's places.
fn too_many(form: Form, words: &List<Text>) -> Option<usize>
    requires { length (spec.places_of form) ≤ length words.now }
    ensures { result ≡ spec.too_many (length (spec.places_of form)) (spec.rest_of form words.now) }
{
    let places = places_of(form).len();
    if places < words.len() {
        Some(places)
    } else {
        None
    }
}

/// The question on a file, or the place of the first wrong word behind the places.
fn asked_query(alloc: Global, words: &List<Text>) -> Result<Asked, Memory>
    requires { length (spec.places_of Form.Query) ≤ length words.now }
    ensures { IfOk result (λ asked. asked ≡ spec.command_of Form.Query words.now) }
{
    match read_query(alloc, words, places_of(Form::Query).len()) {
        Ok(query) => {
            let file = file_of(alloc, Form::Query, words)?;
            Ok(Asked::Command(Command::Query { file, query }))
        }
        Err(Refused::At(fault)) => Ok(Asked::Wrong(fault.place as usize)),
        Err(Refused::Memory) => Err(Memory),
    }
}

/// The place behind one of a list.
fn behind(words: &[Text], place: usize) -> usize
    requires { place < length words.now }
    ensures { result ≡ place + 1 }
{
    place + 1
}

/// Copies of the words behind the first that stand before a place.
fn objects_before(alloc: Global, words: &List<Text>, end: usize) -> Result<List<Text>, Memory>
    requires { (1 ≤ end) × (end < length words.now) }
    ensures { IfOk result (λ objects. objects ≡ drop 1 (take end words.now)) }
{
    let mut objects = List::new(alloc);
    put_words(alloc, 1, &words.items()[..end], &mut objects)?;
    Ok(objects)
}

/// What words ask whose objects end at the place of a `--`.
fn asked_behind(alloc: Global, words: &List<Text>, end: usize) -> Result<Asked, Memory>
    requires { (1 ≤ end) × (end < length words.now) }
    ensures { IfOk result (λ asked. asked ≡ spec.asked_behind words.now (Ok end)) }
{
    match read_query(alloc, words, behind(words.items(), end)) {
        Ok(query) => {
            let objects = objects_before(alloc, words, end)?;
            Ok(Asked::Command(Command::Ask { objects, query }))
        }
        Err(Refused::At(fault)) => Ok(Asked::Wrong(fault.place as usize)),
        Err(Refused::Memory) => Err(Memory),
    }
}

/// The question on the image of objects, or the place of the first wrong word behind the places.
fn asked_image(alloc: Global, words: &List<Text>) -> Result<Asked, Memory>
    requires { length (spec.places_of Form.Ask) ≤ length words.now }
    ensures { IfOk result (λ asked. asked ≡ spec.command_of Form.Ask words.now) }
{
    match objects_end(places_of(Form::Ask).len(), words.items()) {
        Ok(end) => asked_behind(alloc, words, end),
        Err(at) => Ok(Asked::Wrong(at)),
    }
}

/// The command, where no word follows those of the places of its form.
fn alone(form: Form, words: &List<Text>, command: Command) -> Asked
    requires { length (spec.places_of form) ≤ length words.now }
    ensures { result ≡ spec.alone form words.now command }
{
    match too_many(form, words) {
        Some(at) => Asked::Wrong(at),
        None => Asked::Command(command),
    }
}

/// The command, where each word behind those of the places is UTF-8.
fn with_texts(form: Form, words: &List<Text>, command: Command) -> Asked
    requires { length (spec.places_of form) ≤ length words.now }
    ensures { result ≡ spec.with_texts form words.now command }
{
    match first_no_text(places_of(form).len(), words.items()) {
        Some(at) => Asked::Wrong(at),
        None => Asked::Command(command),
    }
}

/// What words ask whose front is what the places of a form want.
fn command_of(alloc: Global, form: Form, words: &List<Text>) -> Result<Asked, Memory>
    requires { length (spec.places_of form) ≤ length words.now }
    ensures { IfOk result (λ asked. asked ≡ spec.command_of form words.now) }
{
    match form {
        Form::Query => asked_query(alloc, words),
        Form::Check => {
            let file = file_of(alloc, form, words)?;
            Ok(alone(form, words, Command::Check { file }))
        }
        Form::Dump => {
            let file = file_of(alloc, form, words)?;
            Ok(alone(form, words, Command::Dump { file }))
        }
        Form::List => {
            let file = file_of(alloc, form, words)?;
            Ok(alone(form, words, Command::List { file }))
        }
        Form::As => {
            let order = order_in(form, words);
            let file = file_of(alloc, form, words)?;
            let out = out_of(alloc, form, words)?;
            Ok(alone(form, words, Command::As { order, file, out }))
        }
        Form::Link => {
            let mode = mode_in(form, words);
            let base = base_in(form, words);
            let out = out_of(alloc, form, words)?;
            let objects = objects_in(alloc, form, words)?;
            let command = Command::Link {
                mode,
                base,
                out,
                objects,
            };
            Ok(with_texts(form, words, command))
        }
        Form::Ask => asked_image(alloc, words),
    }
}

/// What the words ask in a form.
fn asked_in(alloc: Global, form: Form, words: &List<Text>) -> Result<Asked, Memory>
    ensures { IfOk result (λ asked. asked ≡ spec.asked_in form words.now) }
{
    match wrong_front(places_of(form), words.items()) {
        Some(at) => Ok(Asked::Wrong(at)),
        None => command_of(alloc, form, words),
    }
}

/// What the words ask in these forms.
fn asked_of(alloc: Global, forms: &[Form], words: &List<Text>) -> Result<Asked, Memory>
    ensures { IfOk result (λ asked. asked ≡ spec.asked_from forms.now words.now 0) }
{
    let mut furthest = 0;
    for form in forms {
        match asked_in(alloc, *form, words)? {
            Asked::Command(command) => return Ok(Asked::Command(command)),
            Asked::Wrong(at) => furthest = furthest.max(at),
        }
    }
    Ok(Asked::Wrong(furthest))
}

/// What the words ask: the command of the form that they are of, else the place up to which some form goes along with them. Takes memory for
/// copies of the words.
pub fn read_words(alloc: Global, words: &List<Text>) -> Result<Asked, Memory>
    ensures { IfOk result (λ asked. asked ≡ spec.asked words.now) }
{
    asked_of(alloc, &FORMS, words)
}

/// The names of the files that a command reads, in order.
pub fn inputs_of(alloc: Global, command: &Command) -> Result<List<Text>, Memory>
    ensures { IfOk result (λ names. names ≡ spec.inputs_of command.now) }
{
    let mut names = List::new(alloc);
    match command {
        Command::Query { file, query: _ } => names.push(file.copy(alloc)?)?,
        Command::Check { file } => names.push(file.copy(alloc)?)?,
        Command::Dump { file } => names.push(file.copy(alloc)?)?,
        Command::List { file } => names.push(file.copy(alloc)?)?,
        Command::As {
            order: _,
            file,
            out: _,
        } => names.push(file.copy(alloc)?)?,
        Command::Link {
            mode: _,
            base: _,
            out: _,
            objects,
        } => put_words(alloc, 0, objects.items(), &mut names)?,
        Command::Ask { objects, query: _ } => put_words(alloc, 0, objects.items(), &mut names)?,
    }
    Ok(names)
}

/// The most bytes of each file that a command reads. Takes no memory.
pub fn most_of(command: &Command) -> u64
    ensures { result ≡ spec.most_of command.now }
{
    match command {
        Command::Query { file: _, query: _ } => FILE_LIMIT,
        Command::Check { file: _ } => FILE_LIMIT,
        Command::Dump { file: _ } => FILE_LIMIT,
        Command::List { file: _ } => FILE_LIMIT,
        Command::As {
            order: _,
            file: _,
            out: _,
        } => SOURCE_LIMIT,
        Command::Link {
            mode: _,
            base: _,
            out: _,
            objects: _,
        } => OBJECT_LIMIT,
        Command::Ask {
            objects: _,
            query: _,
        } => OBJECT_LIMIT,
    }
}

ghost use Rattle.std.specs.Prelude.{◌≡◌, ◌∷◌, [], length, IfOk, IfSome};
ghost use Rattle.asm_statements.specs.Expressions.{sum_in, sum_with};

use crate::statement::{Name, Sum};
use st_base::{Boxed, List, Memory};
use std::alloc::Global;
use std::marker::Model;

/// One added name, and numbers.
#[derive(Drop)]
pub struct Single {
    pub added: [Name; 1],
    pub more: u64,
    pub less: u64,
}

/// A name less another, and numbers.
#[derive(Drop)]
pub struct Pair {
    pub added: [Name; 1],
    pub taken: [Name; 1],
    pub more: u64,
    pub less: u64,
}

/// How an expression is kept: as the number that is added or subtracted, with one name or two in one piece of memory, else whole.
#[derive(Drop)]
pub enum Form {
    More(u64),
    Less(u64),
    Single(Boxed<Single>),
    Pair(Boxed<Pair>),
    Whole(Boxed<Sum>),
}

/// An expression of a statement. Most are one number, which takes no memory of its own. Contracts see its `Sum`.
#[derive(Drop)]
pub struct Expression {
    form: Form,
}

impl Model for Expression {
    ghost use Rattle.asm_statements.specs.declared.statement.Sum.{Sum};
    ghost use Rattle.asm_statements.specs.Expressions.{sum_in};

    ghost Value = { Sum };

    ghost view = { λ e. sum_in e.form };
}

// The form without memory of its own, where one of the numbers is zero.
fn number_form(more: u64, less: u64) -> Option<Form>
    ensures { IfSome result (λ f. sum_in f ≡ sum_with [] [] more less) }
{
    if less == 0 {
        Some(Form::More(more))
    } else if more == 0 {
        Some(Form::Less(less))
    } else {
        None
    }
}

// The one name of a list.
fn only(names: List<Name>) -> Name
    requires { length names ≡ 1 }
    ensures { names ≡ result ∷ [] }
{
    let mut names = names;
    names.replace(0, Name::Here)
}

fn single_form(alloc: Global, added: List<Name>, more: u64, less: u64) -> Result<Form, Memory>
    requires { length added ≡ 1 }
    ensures { IfOk result (λ f. sum_in f ≡ sum_with added [] more less) }
{
    let added = [only(added)];
    let single = Single { added, more, less };
    Ok(Form::Single(Boxed::new(alloc, single)?))
}

fn pair_form(
    alloc: Global,
    added: List<Name>,
    taken: List<Name>,
    more: u64,
    less: u64,
) -> Result<Form, Memory>
    requires added { length added ≡ 1 }
    requires taken { length taken ≡ 1 }
    ensures { IfOk result (λ f. sum_in f ≡ sum_with added taken more less) }
{
    let added = [only(added)];
    let taken = [only(taken)];
    let pair = Pair {
        added,
        taken,
        more,
        less,
    };
    Ok(Form::Pair(Boxed::new(alloc, pair)?))
}

fn whole_form(alloc: Global, sum: Sum) -> Result<Form, Memory>
    ensures { IfOk result (λ f. sum_in f ≡ sum) }
{
    Ok(Form::Whole(Boxed::new(alloc, sum)?))
}

fn form_of(alloc: Global, sum: Sum) -> Result<Form, Memory>
    ensures { IfOk result (λ f. sum_in f ≡ sum) }
{
    let most = u128::from(u64::MAX);
    if sum.over || sum.more > most || sum.less > most {
        return whole_form(alloc, sum);
    }
    let more = sum.more as u64;
    let less = sum.less as u64;
    match (sum.added.len(), sum.taken.len()) {
        (0, 0) => match number_form(more, less) {
            Some(form) => Ok(form),
            None => whole_form(alloc, sum),
        },
        (1, 0) => single_form(alloc, sum.added, more, less),
        (1, 1) => pair_form(alloc, sum.added, sum.taken, more, less),
        _ => whole_form(alloc, sum),
    }
}

impl Expression {
    /// An expression as a statement keeps it. Takes memory where it is more than one number.
    pub fn of(alloc: Global, sum: Sum) -> Result<Expression, Memory>
        ensures { IfOk result (λ e. e ≡ sum) }
    {
        let form = form_of(alloc, sum)?;
        Ok(Expression { form })
    }

    /// The names that are added. Takes no memory.
    pub fn added(&self) -> &[Name]
        ensures { result.now ≡ self.now.added }
    {
        match &self.form {
            Form::More(_) => &[],
            Form::Less(_) => &[],
            Form::Single(single) => &single.get().added,
            Form::Pair(pair) => &pair.get().added,
            Form::Whole(sum) => sum.get().added.items(),
        }
    }

    /// The names that are subtracted. Takes no memory.
    pub fn taken(&self) -> &[Name]
        ensures { result.now ≡ self.now.taken }
    {
        match &self.form {
            Form::More(_) => &[],
            Form::Less(_) => &[],
            Form::Single(_) => &[],
            Form::Pair(pair) => &pair.get().taken,
            Form::Whole(sum) => sum.get().taken.items(),
        }
    }

    /// The sum of the added numbers. Takes no memory.
    pub fn more(&self) -> u128
        ensures { result ≡ self.now.more }
    {
        match &self.form {
            Form::More(number) => u128::from(*number),
            Form::Less(_) => 0,
            Form::Single(single) => u128::from(single.get().more),
            Form::Pair(pair) => u128::from(pair.get().more),
            Form::Whole(sum) => sum.get().more,
        }
    }

    /// The sum of the subtracted numbers. Takes no memory.
    pub fn less(&self) -> u128
        ensures { result ≡ self.now.less }
    {
        match &self.form {
            Form::More(_) => 0,
            Form::Less(number) => u128::from(*number),
            Form::Single(single) => u128::from(single.get().less),
            Form::Pair(pair) => u128::from(pair.get().less),
            Form::Whole(sum) => sum.get().less,
        }
    }

    /// Whether one of its numbers is over 4,294,967,295. Takes no memory.
    pub fn over(&self) -> bool
        ensures { result ≡ self.now.over }
    {
        match &self.form {
            Form::More(_) => false,
            Form::Less(_) => false,
            Form::Single(_) => false,
            Form::Pair(_) => false,
            Form::Whole(sum) => sum.get().over,
        }
    }
}

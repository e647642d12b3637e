//! The walk over the tokens of an item, as what carries them out.

ghost use Rattle.std.specs.Prelude.{◌≡◌, [], OnOk};
ghost use Rattle.c_items.specs.Acting.{Did};
ghost use Rattle.c_meaning.specs.Walking as spec;
ghost use Rattle.c_meaning.specs.Meaning as meaning;

use crate::part::VOID;
use crate::walk::Walk;
use c_items::{Actor, Role};
use c_tokens::Token;
use c_units::{CType, Draft, Whole, Word};
use st_base::{Memory, Refused};
use std::alloc::Global;
use std::marker::Model;

/// The walk, and where it has its memory from. Contracts see the walk.
#[derive(Drop)]
pub(crate) struct Carrier {
    alloc: Global,
    walk: Walk,
}

impl Model for Carrier {
    ghost use Rattle.c_meaning.specs.declared.walk.Walk.{Walk as WalkValue};

    ghost Value = { WalkValue };

    ghost view = { λ c. c.walk };
}

// The word of a `struct`, whose number is 0, or of a `union`, whose number is 1.
#[tactic(auto, unfolding(crate::specs::Meaning::word_of))]
fn word_of(number: u32) -> Word
    ensures { result ≡ meaning.word_of number }
{
    if number == 1 {
        Word::Union
    } else {
        Word::Struct
    }
}

impl Walk {
    // What the token does that ends a part of an item, and what a statement does.
    fn end_act(&mut self, alloc: Global, role: Role, token: &Token<'_>) -> Result<(), Refused>
        ensures { Did (spec.end_act role token.now.1 self.old) self.new result }
    {
        let line = token.line;
        match role {
            Role::TypedefEnd => self.add_typedef(alloc, line),
            Role::VariableEnd => self.add_variable(alloc, line),
            Role::StaticEnd => self.add_static(alloc, line),
            Role::ExternEnd => self.add_extern(alloc, line),
            Role::ParameterEnd => self.add_param(alloc, line),
            Role::LocalEnd => self.add_local(alloc, line),
            Role::NoParameters | Role::Alone => {
                self.end(alloc);
                Ok(())
            }
            Role::Function => self.begin_function(alloc, false),
            Role::StaticFunction => self.begin_function(alloc, true),
            Role::BlockBegin => self.begin_block(alloc),
            Role::Empty => self.add_statement(alloc, line),
            Role::BlockEnd | Role::FunctionEnd => self.end_block(alloc),
            _ => Ok(()),
        }
    }

    // What a token of a body or of choices does.
    fn body_act(&mut self, alloc: Global, role: Role, token: &Token<'_>) -> Result<(), Refused>
        ensures { Did (spec.body_act role token.now.1 self.old) self.new result }
    {
        match role {
            Role::Body => self.open_body(alloc),
            Role::Nameless => Ok(self.open(alloc)?),
            Role::FieldEnd => self.end_field(alloc, token),
            Role::BodyEnd => self.end_body(alloc, token),
            Role::Choices => self.begin_body(),
            Role::Choice => Ok(self.part.set_choice(token)?),
            Role::Minus => {
                self.part.below = true;
                Ok(())
            }
            Role::Number => {
                self.part.value = Some(Whole {
                    below: self.part.below,
                    size: token.number,
                });
                Ok(())
            }
            Role::ChoiceEnd => self.end_choice(token),
            Role::ChoicesEnd => self.end_choices(alloc, token),
            _ => self.end_act(alloc, role, token),
        }
    }

    // A star behind a base.
    fn star(&mut self, alloc: Global) -> Result<(), Memory>
        ensures { OnOk result (self.new ≡ spec.changed (spec.settled self.old) (spec.starred (spec.settled self.old).part)) }
    {
        self.settle(alloc)?;
        self.part.add_star()
    }

    // What a token does.
    fn act(&mut self, alloc: Global, role: Role, token: &Token<'_>) -> Result<(), Refused>
        ensures { Did (spec.act role token.now.1 self.old) self.new result }
    {
        match role {
            Role::Const => self.part.declared.qualifiers.constant = true,
            Role::Volatile => self.part.declared.qualifiers.volatile = true,
            Role::Basic => self.part.declared.base = CType::basic(token.number),
            Role::Void => self.part.declared.base = CType::basic(VOID),
            Role::Named => return self.find_typedef(token),
            Role::Struct => self.part.word = word_of(token.number),
            Role::Enum => self.part.word = Word::Enum,
            Role::Tag | Role::EnumTag => return self.mention(token),
            Role::Star => self.star(alloc)?,
            Role::Length => self.part.declared.lengths.push(token.number)?,
            Role::Declared => return self.name_field(alloc, token),
            Role::GivenName => return self.name_unit(alloc, token),
            Role::ParameterName => return self.name_param(alloc, token),
            Role::LocalName => return self.name_local(alloc, token),
            _ => return self.body_act(alloc, role, token),
        }
        Ok(())
    }
}

impl Actor for Carrier {
    ghost use Rattle.c_meaning.specs.Walking as spec;

    ghost acts = { spec.act };

    fn act(&mut self, role: Role, token: &Token<'_>) -> Result<(), Refused> {
        self.walk.act(self.alloc, role, token)
    }
}

impl Carrier {
    /// In front of an item. Takes no memory.
    pub(crate) fn new(alloc: Global, draft: Draft) -> Carrier
        ensures { result ≡ spec.ready draft [] }
    {
        Carrier {
            alloc,
            walk: Walk::new(alloc, draft),
        }
    }

    /// The draft. Takes no memory.
    pub(crate) fn into_draft(self) -> Draft
        ensures { result ≡ self.draft }
    {
        self.walk.draft
    }
}

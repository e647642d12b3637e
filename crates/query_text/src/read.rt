//! What words ask: a query, or the place of the wrong word.

ghost use Rattle.std.specs.Prelude.{◌≡◌, ◌≤◌, length, drop, max, IfOk, IfErr};
ghost use Rattle.query_text.specs.QueryWords as words_spec;
ghost use Rattle.query_text.specs.Queries as spec;
ghost use Rattle.query_text.specs.declared.query.Query.{Query as AnyQuery};

use crate::address::address_of;
use crate::places::wrong_place;
use crate::query::Query;
use crate::want::{Keyword, Want, line_of, number_of};
use st_base::{Fault, List, Memory, QUERY, Refused, Text};
use std::alloc::Global;

const KEYWORDS: [Keyword; 8] = [
    Keyword::Units,
    Keyword::Files,
    Keyword::Tag,
    Keyword::Type,
    Keyword::Number,
    Keyword::Scope,
    Keyword::Line,
    Keyword::Addresses,
];

// What the places of a query with this keyword want.
fn places_of(keyword: Keyword) -> &'static [Want]
    ensures { result.now ≡ spec.places_of keyword }
{
    match keyword {
        Keyword::Units => &[Want::This(Keyword::Units)],
        Keyword::Files => &[Want::This(Keyword::Files), Want::Number],
        Keyword::Tag => &[Want::This(Keyword::Tag), Want::Number, Want::Any],
        Keyword::Type => &[Want::This(Keyword::Type), Want::Number, Want::Any],
        Keyword::Number => &[
            Want::This(Keyword::Number),
            Want::Number,
            Want::Number,
            Want::Number,
        ],
        Keyword::Scope => &[Want::This(Keyword::Scope), Want::Address],
        Keyword::Line => &[Want::This(Keyword::Line), Want::Address],
        Keyword::Addresses => &[Want::This(Keyword::Addresses), Want::Any, Want::Line],
    }
}

// The word at a place; empty where there is none.
fn word_at(words: &[Text], at: usize) -> &[u8]
    ensures { result.now ≡ words_spec.word_at words.now at }
{
    match words.get(at) {
        Some(word) => word.bytes(),
        None => &[],
    }
}

fn number_at(words: &[Text], at: usize) -> u32
    ensures { result ≡ words_spec.number_of (words_spec.word_at words.now at) }
{
    number_of(word_at(words, at))
}

fn address_at(words: &[Text], at: usize) -> u32
    ensures { result ≡ words_spec.address_of (words_spec.word_at words.now at) }
{
    address_of(word_at(words, at)).unwrap_or(0)
}

// The query of words that are what the places of its form want.
fn query_of(alloc: Global, keyword: Keyword, words: &[Text]) -> Result<Query, Memory>
    ensures { IfOk result (λ query. query ≡ spec.query_of keyword words.now) }
{
    match keyword {
        Keyword::Units => Ok(Query::Units),
        Keyword::Files => Ok(Query::Files(number_at(words, 1))),
        Keyword::Tag => {
            let name = Text::of(alloc, word_at(words, 2))?;
            Ok(Query::TagNamed(number_at(words, 1), name))
        }
        Keyword::Type => {
            let name = Text::of(alloc, word_at(words, 2))?;
            Ok(Query::TypeNamed(number_at(words, 1), name))
        }
        Keyword::Number => Ok(Query::Number(
            number_at(words, 1),
            number_at(words, 2),
            number_at(words, 3),
        )),
        Keyword::Scope => Ok(Query::Scope(address_at(words, 1))),
        Keyword::Line => Ok(Query::Line(address_at(words, 1))),
        Keyword::Addresses => {
            let file = Text::of(alloc, word_at(words, 1))?;
            Ok(Query::Addresses(file, line_of(word_at(words, 2))))
        }
    }
}

fn later(place: usize, other: usize) -> usize
    ensures { result ≡ max place other }
{
    place.max(other)
}

// Which of these forms the words are of, by its keyword; else the furthest place up to which one goes along with them.
fn form_of(keywords: &[Keyword], words: &[Text]) -> Result<Keyword, usize>
    ensures form { result ≡ spec.form_from keywords.now words.now 0 }
    ensures within { IfErr result (λ at. at ≤ length words.now) }
{
    let mut furthest = 0;
    for keyword in keywords {
        match wrong_place(places_of(*keyword), words) {
            None => return Ok(*keyword),
            Some(at) => furthest = later(furthest, at),
        }
    }
    Err(furthest)
}

fn read_from(alloc: Global, words: &List<Text>, from: usize) -> Result<Query, Refused>
    requires { from ≤ length words.now }
    ensures { spec.Reads from result (spec.asked (drop from words.now)) }
{
    let asking = &words.items()[from..];
    match form_of(&KEYWORDS, asking) {
        Ok(keyword) => Ok(query_of(alloc, keyword, asking)?),
        Err(at) => Err(Refused::At(Fault::at(QUERY, (from + at) as u64))),
    }
}

/// The query that the words from place `from` on are: that which they spell, and they spell one at most (`asking_law`).
///
/// Refused with `QUERY` where they are none; the place is that of the first wrong word, the number of all words where one is
/// missing, or that of the first word too many, counted from 0 in the whole list. A word that is not UTF-8 is wrong wherever it
/// stands. The words are this project's own.
pub fn read_query(alloc: Global, words: &List<Text>, from: usize) -> Result<Query, Refused>
    requires { from ≤ length words.now }
    ensures reads { spec.Reads from result (spec.asked (drop from words.now)) }
    ensures spelled { IfOk result (λ query. spec.Spell (drop from words.now) query) }
    ensures read { (query : AnyQuery) → spec.Spell (drop from words.now) query → spec.IsRead result query }
{
    read_from(alloc, words, from)
}

ghost use Rattle.std.specs.Prelude.{◌≡◌};
ghost use Rattle.promise_grammar.specs.Outcome.{Reads};
ghost use Rattle.promise_grammar.specs.Count.{count_of, count_from};
ghost use Rattle.promise_grammar.specs.Reading as read;

use crate::error::PromiseError;
use crate::names::name;
use crate::pieces::Pieces;
use crate::word::is_name;
use desk_base::Name;
use std::alloc::Global;

/// A member's name: that of a method, or `new`.
#[derive(Debug, PartialEq, Eq, Drop)]
pub enum MemberName {
    Named(Name),
    New,
}

/// The member of another class that an assumption is about: `name/count in class`, the count being
/// that of its parameters.
#[derive(Debug, PartialEq, Eq, Drop)]
pub struct MemberContent {
    pub name: MemberName,
    pub count: u32,
    pub class: Name,
}

/// One more than the greatest count.
const COUNT_LIMIT: u64 = 1 << 31;

/// The number that decimals stand for, none of them being a leading zero, if it is below 2^31.
fn count(word: &[u8]) -> Option<u32>
    ensures { result ≡ count_of word.now }
{
    match word {
        [] => None,
        [b'0', _, ..] => None,
        _ => digits(word),
    }
}

fn digits(mut word: &[u8]) -> Option<u32>
    ensures { result ≡ count_from 0 word.entry.now }
{
    let mut number: u64 = 0;
    while let [digit, rest @ ..] = word {
        if !digit.is_ascii_digit() {
            return None;
        }
        number = number * 10 + u64::from(*digit - b'0');
        if number >= COUNT_LIMIT {
            return None;
        }
        word = rest;
    }
    Some(number as u32)
}

#[tactic(auto, unfolding(crate::specs::Reading::member_name))]
fn member_name(alloc: Global, pieces: &mut Pieces<'_>) -> Result<MemberName, PromiseError>
    ensures { Reads (read.member_name pieces.old) result pieces.new }
{
    let word = pieces.word()?;
    if word == b"new".as_slice() {
        return Ok(MemberName::New);
    }
    if !is_name(word) {
        return Err(PromiseError::Grammar);
    }
    Ok(MemberName::Named(Name::from_slice(alloc, word)?))
}

#[tactic(auto, unfolding(crate::specs::Reading::member_count))]
fn member_count(pieces: &mut Pieces<'_>) -> Result<u32, PromiseError>
    ensures { Reads (read.member_count pieces.old) result pieces.new }
{
    let word = pieces.word()?;
    match count(word) {
        Some(number) => Ok(number),
        None => Err(PromiseError::Grammar),
    }
}

/// Reads the member that an assumption is about.
#[tactic(auto, unfolding(crate::specs::Reading::member))]
pub fn member(alloc: Global, pieces: &mut Pieces<'_>) -> Result<MemberContent, PromiseError>
    ensures { Reads (read.member pieces.old) result pieces.new }
{
    let member = member_name(alloc, pieces)?;
    pieces.expect_sign(b'/')?;
    let count = member_count(pieces)?;
    pieces.expect_word(b"in")?;
    let class = name(alloc, pieces)?;
    Ok(MemberContent {
        name: member,
        count,
        class,
    })
}

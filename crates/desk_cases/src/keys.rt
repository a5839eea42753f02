//! Cases of `result_records`, and the keys that other cases name. A promise is written as `Program` or as
//! its target, name and detail, a finding as `UnguardedRead 1 Account.get/0 > Account RegionLock L`.

use crate::table::first_word;
use anyhow::{Context, Result, bail};
use desk_base::{Items, Name, PromiseKey, PromiseName, Text};
use result_records::{
    Alternative, Finding, FindingCode, FindingKey, FindingLink, VouchKey, key_text, promise_text,
};
use std::alloc::Global;

const NAMES: [PromiseName; 12] = [
    PromiseName::Assume,
    PromiseName::Borrowed,
    PromiseName::InRegion,
    PromiseName::Program,
    PromiseName::Promise,
    PromiseName::Region,
    PromiseName::RegionEffects,
    PromiseName::RegionLock,
    PromiseName::RequiresLock,
    PromiseName::Starts,
    PromiseName::Unique,
    PromiseName::Vouch,
];

const CODES: [FindingCode; 48] = [
    FindingCode::UnknownType,
    FindingCode::RepeatedMember,
    FindingCode::BadImplements,
    FindingCode::UnboundName,
    FindingCode::UnknownMember,
    FindingCode::WrongType,
    FindingCode::StaticUse,
    FindingCode::FinalWrite,
    FindingCode::BadReturn,
    FindingCode::BadStart,
    FindingCode::RepeatedLocal,
    FindingCode::BadAssume,
    FindingCode::ReadOutsideEffects,
    FindingCode::WriteOutsideEffects,
    FindingCode::CallOutsideEffects,
    FindingCode::MoreEffectsThanInterface,
    FindingCode::UnguardedRead,
    FindingCode::UnguardedWrite,
    FindingCode::UnlockedCall,
    FindingCode::MoreLocksThanInterface,
    FindingCode::LockedMain,
    FindingCode::GuardedUnique,
    FindingCode::AbsentName,
    FindingCode::Standing,
    FindingCode::BadContent,
    FindingCode::BadPlace,
    FindingCode::NameUsedTwice,
    FindingCode::UnknownRegion,
    FindingCode::RegionCycle,
    FindingCode::MixedKinds,
    FindingCode::BadLockField,
    FindingCode::OverlappingRegions,
    FindingCode::UnknownLock,
    FindingCode::RepeatedPromise,
    FindingCode::AssignedParameter,
    FindingCode::ThreadStart,
    FindingCode::StartingCall,
    FindingCode::StartsUnlikeInterface,
    FindingCode::ValueNotUnique,
    FindingCode::ArgumentNotUnique,
    FindingCode::ResultNotUnique,
    FindingCode::LentFurther,
    FindingCode::UniqueTakenOut,
    FindingCode::UniqueHoldsUnique,
    FindingCode::UniqueLent,
    FindingCode::NotKeptByClass,
    FindingCode::AsksMoreThanInterface,
    FindingCode::NotOfClassType,
];

fn promise_name(alloc: Global, word: &str) -> Result<PromiseName> {
    for name in NAMES {
        if format!(in alloc; "{name:?}")?.as_str() == word {
            return Ok(name);
        }
    }
    bail!("no promise {word}")
}

fn finding_code(alloc: Global, word: &str) -> Result<FindingCode> {
    for code in CODES {
        if format!(in alloc; "{code:?}")?.as_str() == word {
            return Ok(code);
        }
    }
    bail!("no finding {word}")
}

/// The promise that is written so.
pub(crate) fn promise_of(alloc: Global, written: &str) -> Result<PromiseKey> {
    let (target, rest) = match written {
        "Program" => ("", "Program"),
        _ => first_word(written),
    };
    let (name, detail) = first_word(rest);
    let name = promise_name(alloc, name)?;
    Ok(PromiseKey {
        target: Text::from_text(alloc, target)?,
        name,
        detail: Text::from_text(alloc, detail)?,
    })
}

/// The finding that is written so.
pub(crate) fn finding_of(alloc: Global, written: &str) -> Result<FindingKey> {
    let (code, rest) = first_word(written);
    let (number, rest) = first_word(rest);
    let (unit, on) = rest.split_once(" > ").context("no promise")?;
    let code = finding_code(alloc, code)?;
    let number = number.parse::<u32>()?;
    Ok(FindingKey {
        code,
        number,
        unit: Text::from_text(alloc, unit)?,
        on: promise_of(alloc, on)?,
    })
}

fn assumed(alloc: Global, written: &str) -> Result<FindingLink> {
    let (class, promise) = first_word(written);
    Ok(FindingLink::Assumed {
        class: Name::from_slice(alloc, class.as_bytes())?,
        promise: promise_of(alloc, promise)?,
    })
}

/// What a finding or a promise may rest on: `vouch-in UNIT`, `vouch-desk` with a finding as it is printed,
/// `assume-in CLASS PROMISE` or `promise PROMISE`.
pub(crate) fn link_of(alloc: Global, written: &str) -> Result<FindingLink> {
    let (sort, rest) = first_word(written);
    match sort {
        "vouch-in" => Ok(FindingLink::Vouched(VouchKey::Source {
            unit: Text::from_text(alloc, rest)?,
        })),
        "vouch-desk" => Ok(FindingLink::Vouched(VouchKey::Desk {
            finding: Text::from_text(alloc, rest)?,
        })),
        "assume-in" => assumed(alloc, rest),
        "promise" => Ok(FindingLink::Promise(promise_of(alloc, rest)?)),
        _ => bail!("no link {sort}"),
    }
}

fn alternative_of(alloc: Global, written: &str) -> Result<Alternative> {
    let mut links = Items::new(alloc);
    for link in written.split(", ") {
        links.push(link_of(alloc, link)?)?;
    }
    Ok(links)
}

fn put_fails(alloc: Global, out: &mut String, written: &str) -> Result<()> {
    let mut ways = written.split(" or ");
    let key = finding_of(alloc, ways.next().unwrap_or(""))?;
    let mut alternatives = Items::new(alloc);
    for way in ways {
        alternatives.push(alternative_of(alloc, way)?)?;
    }
    let finding = Finding {
        key,
        place: 5,
        subject: Text::new(alloc),
        alternatives,
    };
    out.push_str(if finding.fails() { "fails" } else { "holds" })?;
    Ok(())
}

fn put_copy(alloc: Global, out: &mut String, written: &str) -> Result<()> {
    let key = finding_of(alloc, written)?;
    let copy = key.clone()?;
    out.push_str(if copy == key { "the same" } else { "another" })?;
    Ok(())
}

/// What is written for the key of the line, or what is told of it.
pub(crate) fn put_case(alloc: Global, out: &mut String, words: &str, line: &str) -> Result<()> {
    match words {
        "of a promise" => out.push_str(promise_text(alloc, &promise_of(alloc, line)?)?.as_str())?,
        "of a finding" => out.push_str(key_text(alloc, &finding_of(alloc, line)?)?.as_str())?,
        "copied" => put_copy(alloc, out, line)?,
        "of a finding with what it rests on" => put_fails(alloc, out, line)?,
        "by its code" => {
            let code = finding_code(alloc, line)?;
            write!(out, "{} {}", code.code(), code.text())?;
        }
        _ => bail!("no cases of key {words}"),
    }
    Ok(())
}

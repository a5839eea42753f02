use super::*;
use desk_base::{Items, OutOfMemory, PromiseKey, PromiseName, Text};
use result_records::{Finding, FindingCode, FindingKey, Put, put_key};
use std::alloc::Global;
use std::test::Fail;

fn lock(alloc: Global, detail: &str) -> Result<PromiseKey, OutOfMemory> {
    Ok(PromiseKey {
        target: Text::from_text(alloc, "A")?,
        name: PromiseName::RegionLock,
        detail: Text::from_text(alloc, detail)?,
    })
}

fn promise(
    alloc: Global,
    detail: &str,
    place: u32,
    fault: Option<FindingCode>,
) -> Result<UnitPromise, OutOfMemory> {
    let key = lock(alloc, detail)?;
    Ok(UnitPromise { key, place, fault })
}

fn promises(alloc: Global) -> Result<Vec<UnitPromise>, OutOfMemory> {
    let mut promises = Vec::new(alloc);
    promises.push(promise(alloc, "L", 1, None)?)?;
    promises.push(promise(alloc, "#2", 5, Some(FindingCode::BadLockField))?)?;
    Ok(promises)
}

fn access(alloc: Global, code: FindingCode, place: u32) -> Result<Finding, OutOfMemory> {
    let unit = Text::from_text(alloc, "A")?;
    let on = lock(alloc, "L")?;
    let key = FindingKey {
        code,
        number: 0,
        unit,
        on,
    };
    Ok(Finding {
        key,
        place,
        subject: Text::new(alloc),
        alternatives: Items::new(alloc),
    })
}

fn found(alloc: Global) -> Result<Items<Finding>, OutOfMemory> {
    let mut found = Items::new(alloc);
    found.push(access(alloc, FindingCode::UnguardedWrite, 9)?)?;
    found.push(access(alloc, FindingCode::UnguardedRead, 9)?)?;
    found.push(access(alloc, FindingCode::UnguardedWrite, 3)?)?;
    Ok(found)
}

fn written(alloc: Global, findings: &[Finding]) -> Result<Text, OutOfMemory> {
    let mut text = Text::new(alloc);
    for finding in findings {
        put_key(&mut text, &finding.key)?;
        text.put(if finding.fails() { " fails\n" } else { "\n" })?;
    }
    Ok(text)
}

fn judged(alloc: Global, vouch: Option<&Text>) -> Result<Text, OutOfMemory> {
    let unit = Text::from_text(alloc, "A")?;
    let promises = promises(alloc)?;
    let list = unit_findings(alloc, &unit, vouch, promises.as_slice(), found(alloc)?)?;
    written(alloc, list.as_slice())
}

#[test]
fn by_place_and_code(rt: HostRuntime) -> Result<(), Fail> {
    let text = judged(rt.alloc(), None)?;
    assert_eq!(rt;
        text.as_str(),
        "P00#1 A > A RegionLock #2\nP00#1 A > A RegionLock L\nL02#1 A > A RegionLock L fails\nS07#1 A > A RegionLock #2 fails\nL01#1 A > A RegionLock L fails\nL02#2 A > A RegionLock L fails\n"
    );
    Ok(())
}

#[test]
fn with_a_vouch(rt: HostRuntime) -> Result<(), Fail> {
    let unit = Text::from_text(rt.alloc(), "A")?;
    let text = judged(rt.alloc(), source_vouch(&unit, false, &unit, true))?;
    assert_eq!(rt;
        text.as_str(),
        "P00#1 A > A RegionLock #2\nP00#1 A > A RegionLock L\nL02#1 A > A RegionLock L\nS07#1 A > A RegionLock #2\nL01#1 A > A RegionLock L\nL02#2 A > A RegionLock L\n"
    );
    Ok(())
}

ghost use Rattle.std.specs.Prelude.{◌≡◌, IfOk};
ghost use Rattle.std.specs.Option.{option_copied};
ghost use Rattle.unit_findings.specs.Vouches as spec;

use crate::making::only;
use desk_base::{OutOfMemory, PromiseName, Text};
use result_records::{Finding, FindingLink, VouchKey};
use std::alloc::Global;

/// The unit where the vouch is written that counts in a unit: the unit itself, or else the header of its
/// class.
pub fn source_vouch<'a>(
    unit: &'a Text,
    unit_is_vouched: bool,
    header: &'a Text,
    header_is_vouched: bool,
) -> Option<&'a Text>
    ensures { option_copied result ≡ spec.source_vouch unit.now unit_is_vouched header.now header_is_vouched }
{
    if unit_is_vouched {
        Some(unit)
    } else if header_is_vouched {
        Some(header)
    } else {
        None
    }
}

fn takes_vouch(finding: &Finding) -> bool
    ensures { result ≡ spec.takes_vouch finding.now }
{
    finding.fails() && finding.key.on.name != PromiseName::Program
}

/// The finding where the vouch of a unit counts, if there is one: where it fails, on another promise than
/// `Program`, it holds by the vouch alone; any other is as it was.
pub fn vouched(
    alloc: Global,
    vouch: Option<&Text>,
    finding: Finding,
) -> Result<Finding, OutOfMemory>
    ensures { IfOk result (λ found. found ≡ spec.vouched (option_copied vouch.entry) finding) }
{
    let Some(unit) = vouch else {
        return Ok(finding);
    };
    if !takes_vouch(&finding) {
        return Ok(finding);
    }
    let key = VouchKey::Source {
        unit: unit.clone()?,
    };
    let alternatives = only(alloc, FindingLink::Vouched(key))?;
    Ok(Finding {
        alternatives,
        ..finding
    })
}

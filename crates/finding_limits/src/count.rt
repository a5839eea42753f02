ghost use Rattle.std.specs.Prelude.{◌≡◌, ◌-◌, ◌^◌, min, length};
ghost use Rattle.std.specs.List.{sum_by};
ghost use Rattle.finding_limits.specs.Quantities as spec;

use result_records::{Alternative, Finding, FindingCode};

/// Whether the finding is one of those that are counted: it says more than that a promise stands.
fn is_counted(finding: &Finding) -> bool
    ensures { result ≡ spec.is_counted finding.now }
{
    finding.key.code != FindingCode::Standing
}

/// How many of these are counted.
pub(crate) fn finding_count(findings: &[Finding]) -> u64
    ensures { result ≡ spec.finding_count findings.now }
{
    let mut count = 0;
    for finding in findings {
        if is_counted(finding) {
            count += 1;
        }
    }
    count
}

fn links_of(ways: &[Alternative]) -> u64
    ensures { result ≡ min (sum_by length ways.now) (2 ^ 64 - 1) }
{
    let mut count = 0u64;
    for way in ways {
        count = count.saturating_add(way.len() as u64);
    }
    count
}

fn counted_links(finding: &Finding) -> u64
    ensures { result ≡ min (spec.counted_links finding.now) (2 ^ 64 - 1) }
{
    if is_counted(finding) {
        links_of(finding.alternatives.as_slice())
    } else {
        0
    }
}

/// How many links the counted ones have, or the greatest number where there are more.
pub(crate) fn link_count(findings: &[Finding]) -> u64
    ensures { result ≡ min (spec.link_count findings.now) (2 ^ 64 - 1) }
{
    let mut count = 0u64;
    for finding in findings {
        count = count.saturating_add(counted_links(finding));
    }
    count
}

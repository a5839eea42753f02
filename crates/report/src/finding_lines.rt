ghost use Rattle.std.specs.Prelude.{◌≡◌, ◌++◌, OnOk};
ghost use Rattle.report.specs.Rows.{finding_bytes};

use crate::answers::FindingRow;
use desk_base::{Bytes, OutOfMemory};
use result_records::{Put, put_key};

/// Puts the line of a failing finding at the end, with its line feed.
pub(crate) fn put_finding(out: &mut Bytes, row: &FindingRow) -> Result<(), OutOfMemory>
    ensures { OnOk result (out.new ≡ out.old ++ finding_bytes row.now) }
{
    out.put("finding ")?;
    put_key(out, &row.finding.key)?;
    out.put(" at ")?;
    out.append(row.path.as_slice())?;
    out.put(":")?;
    out.put_number(u64::from(row.line))?;
    out.put(" ")?;
    out.put(row.finding.key.code.text())?;
    out.put(": ")?;
    out.put(row.finding.subject.as_str())?;
    out.put("\n")
}

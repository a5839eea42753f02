//! What follows from the definitions alone: the calls do nothing, and their contracts are laws.

ghost use Rattle.std.specs.Prelude.{ℕ, All, Contains, List, Option, map};
ghost use Rattle.desk_base.specs.declared.key.PromiseKey.{PromiseKey as Key};
ghost use Rattle.result_records.specs.declared.finding.Finding.{Finding as Found};
ghost use Rattle.consistency.specs.Among.{FindingsAmong};
ghost use Rattle.report.specs.declared.answers.Answers.{Answers as Whole};
ghost use Rattle.unit_findings.specs.Findings.{unit_findings};
ghost use Rattle.unit_findings.specs.Promises.{program_key};
ghost use Rattle.unit_findings.specs.declared.promise.UnitPromise.{UnitPromise as Promise};
ghost use Rattle.project_answers.specs.declared.answers.Sizes.{Sizes as Counts};
ghost use Rattle.project_answers.specs.declared.gather.UnitFound.{UnitFound as FoundUnit};
ghost use Rattle.project_answers.specs.declared.sited.Sited.{Sited as Placed};
ghost use Rattle.project_answers.specs.Answered.{AreAnswers};
ghost use Rattle.project_answers.specs.Gathered.{finding_of, project_findings};
ghost use Rattle.project_answers.specs.Laws.{FindingHasWay, HasWay, IsBlamedByRow, IsFaulted, PromiseAmong, UnitAmong, UnitHasWays};

/// Each inconsistent verdict of answers is blamed on a finding that has a row there, and fails.
pub fn blames_are_rows()
    ensures { (sizes : Counts) (paths : List (List ℕ)) (ps : List Key) (found : List Placed) (answers : Whole) → AreAnswers sizes paths ps found answers → All HasWay found → All (IsBlamedByRow answers.findings) answers.verdicts }
{}

/// The findings of a unit speak of promises of a project alone, where its promises are among them, and
/// what was found in it speaks of them alone.
pub fn unit_findings_are_among()
    ensures { (ps : List Key) (unit : List ℕ) (vouch : Option (List ℕ)) (promises : List Promise) (found : List Found) → Contains ps program_key → All (PromiseAmong ps) promises → FindingsAmong ps found → FindingsAmong ps (unit_findings unit vouch promises found) }
{}

/// The findings of a project speak of its promises alone, where those of its units do.
pub fn project_findings_are_among()
    ensures { (ps : List Key) (units : List FoundUnit) → All (UnitAmong ps) units → FindingsAmong ps (map finding_of (project_findings units)) }
{}

/// That a promise of a unit is one of the project is no failure by itself, where nothing that was found
/// in the unit says it.
pub fn unit_findings_have_ways()
    ensures { (unit : List ℕ) (vouch : Option (List ℕ)) (promises : List Promise) (found : List Found) → All IsFaulted promises → All FindingHasWay found → All FindingHasWay (unit_findings unit vouch promises found) }
{}

/// Nor is it in a project, where it is in no unit.
pub fn project_findings_have_ways()
    ensures { (units : List FoundUnit) → All UnitHasWays units → All HasWay (project_findings units) }
{}

ghost use Rattle.std.specs.Prelude.{◌≡◌, ◌++◌, ◌∷◌, [], ℕ, All, IfOk, IsSome, List, OnOk, map};
ghost use Rattle.std.specs.Option.{option_copied};
ghost use Rattle.promise_scrub.specs.declared.surface.Surface.{Surface as Face};
ghost use Rattle.views.specs.Face.{surface_named};
ghost use Rattle.project_files.specs.Kept.{tree_file};
ghost use Rattle.project_judge.specs.Judged.{AreJudged, IsAt};
ghost use Rattle.project_judge.specs.Surfaced.{AreSurfaced, IsSurfaced};
ghost use Rattle.project_judge.specs.Units as spec;

use crate::sizes::counted;
use crate::units::{ClassAt, findings_of, unit_tokens};
use class_faces::{member_keys, text_of};
use desk_base::{OutOfMemory, Text};
use finding_limits::Tally;
use java_tree::{ClassTree, MemberTree};
use project_answers::{LineCursor, UnitFound, site_findings};
use project_files::ReadFile;
use std::alloc::Global;
use views::{Surfaces, view_of};

/// Units that are judged, and how many promises, findings and links there are.
#[derive(Drop)]
pub(crate) struct Judging {
    pub(crate) units: Vec<UnitFound>,
    pub(crate) tally: Tally,
}

impl Judging {
    fn new(alloc: Global, promises: usize) -> Judging
        ensures { (surfaces : List Face) → AreJudged surfaces [] promises result }
    {
        let mut tally = Tally::new();
        tally.add_promises(promises);
        Judging {
            units: Vec::new(alloc),
            tally,
        }
    }

    // Judges a unit: the header, or a member.
    fn put_unit(
        &mut self,
        alloc: Global,
        at: &ClassAt<'_>,
        lines: &mut LineCursor<'_>,
        member: Option<&MemberTree>,
        key: &Text,
    ) -> Result<(), OutOfMemory>
        ensures put { OnOk result ((surfaces : List Face) (units : List spec.UnitAt) (n : ℕ) → IsAt surfaces at.now → AreJudged surfaces units n self.old
            → AreJudged surfaces (units ++ spec.unit_at at.now.file lines.old.text.now at.now.class.now (option_copied member.entry) key.now ∷ []) n self.new) }
        ensures same { lines.new.text.now ≡ lines.old.text.now }
    {
        let findings = findings_of(alloc, at, member, key.clone()?)?;
        self.tally.add(findings.as_slice());
        let tokens = unit_tokens(at.class, member);
        let found = site_findings(alloc, at.file, lines, tokens, findings)?;
        self.units.push(UnitFound {
            key: key.clone()?,
            found,
        })?;
        Ok(())
    }

    // Judges a member, where it has a key.
    fn put_member(
        &mut self,
        alloc: Global,
        at: &ClassAt<'_>,
        lines: &mut LineCursor<'_>,
        member: &MemberTree,
        key: Option<&Text>,
    ) -> Result<(), OutOfMemory>
        ensures put { OnOk result ((surfaces : List Face) (units : List spec.UnitAt) (n : ℕ) → IsAt surfaces at.now → AreJudged surfaces units n self.old
            → AreJudged surfaces (units ++ spec.unit_if at.now.file lines.old.text.now at.now.class.now member.now (option_copied key.entry)) n self.new) }
        ensures same { lines.new.text.now ≡ lines.old.text.now }
    {
        match key {
            Some(key) => {
                self.put_unit(alloc, at, lines, Some(member), key)?;
                Ok(())
            }
            None => Ok(()),
        }
    }

    // Judges the members of a class, which have these keys.
    fn put_members(
        &mut self,
        alloc: Global,
        at: &ClassAt<'_>,
        lines: &mut LineCursor<'_>,
        keys: &[Text],
    ) -> Result<(), OutOfMemory>
        ensures put { OnOk result ((surfaces : List Face) (units : List spec.UnitAt) (n : ℕ) → IsAt surfaces at.now → AreJudged surfaces units n self.old
            → AreJudged surfaces (units ++ spec.member_units at.now.file lines.old.text.now at.now.class.now keys.now at.now.class.now.members) n self.new) }
        ensures same { lines.new.text.now ≡ lines.old.text.now }
    {
        let members = at.class.members.as_slice();
        for (i, member) in members.iter().enumerate() {
            self.put_member(alloc, at, lines, member, keys.get(i))?;
        }
        Ok(())
    }

    // Judges the units of a class: the header, then the members.
    fn put_units(
        &mut self,
        alloc: Global,
        at: &ClassAt<'_>,
        lines: &mut LineCursor<'_>,
    ) -> Result<(), OutOfMemory>
        ensures put { OnOk result ((surfaces : List Face) (units : List spec.UnitAt) (n : ℕ) → IsAt surfaces at.now → AreJudged surfaces units n self.old
            → AreJudged surfaces (units ++ spec.class_units at.now.file lines.old.text.now at.now.class.now) n self.new) }
        ensures same { lines.new.text.now ≡ lines.old.text.now }
    {
        let header = text_of(alloc, at.class.name.text.as_slice())?;
        let keys = member_keys(alloc, at.class)?;
        self.put_unit(alloc, at, lines, None, &header)?;
        self.put_members(alloc, at, lines, keys.as_slice())?;
        Ok(())
    }

    // Judges a class that is among the surfaces.
    fn put_class(
        &mut self,
        alloc: Global,
        file: u32,
        lines: &mut LineCursor<'_>,
        class: &ClassTree,
        surfaces: &Surfaces,
    ) -> Result<(), OutOfMemory>
        ensures put { OnOk result ((units : List spec.UnitAt) (n : ℕ) → IsSurfaced surfaces.now class.now → AreJudged surfaces.now units n self.old
            → AreJudged surfaces.now (units ++ spec.class_units file lines.old.text.now class.now) n self.new) }
        ensures same { lines.new.text.now ≡ lines.old.text.now }
    {
        match surfaces.get(&class.name.text) {
            Some(surface) => {
                let at = ClassAt {
                    file,
                    class,
                    view: view_of(surfaces, &class.name.text),
                    asides: surface.aside.as_slice(),
                };
                self.put_units(alloc, &at, lines)?;
                Ok(())
            }
            None => Ok(()),
        }
    }

    // Judges the types of a file, which are among the surfaces.
    fn put_file(
        &mut self,
        alloc: Global,
        file: u32,
        read: &ReadFile<'_>,
        surfaces: &Surfaces,
    ) -> Result<(), OutOfMemory>
        ensures { OnOk result ((units : List spec.UnitAt) (n : ℕ) → All (IsSurfaced surfaces.now) read.now.tree.types → AreJudged surfaces.now units n self.old
            → AreJudged surfaces.now (units ++ spec.units_in file read.now.file.text.now read.now.tree.types) n self.new) }
    {
        let mut lines = LineCursor::new(read.file.text);
        for class in read.tree.types.as_slice() {
            self.put_class(alloc, file, &mut lines, class, surfaces)?;
        }
        Ok(())
    }
}

/// Judges all units of files whose types are among the surfaces; so many promises there are.
pub(crate) fn judge_files(
    alloc: Global,
    read: &[ReadFile<'_>],
    surfaces: &Surfaces,
    promises: usize,
) -> Result<Judging, OutOfMemory>
    ensures { IfOk result (λ judging. AreSurfaced surfaces.now (map tree_file read.now) → AreJudged surfaces.now (spec.all_units (map tree_file read.now)) promises judging) }
{
    let mut judging = Judging::new(alloc, promises);
    for (i, file) in read.iter().enumerate() {
        let number = counted(i)?;
        judging.put_file(alloc, number, file, surfaces)?;
    }
    Ok(judging)
}

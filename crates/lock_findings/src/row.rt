ghost use Rattle.std.specs.Prelude.{◌≡◌, ◌++◌, not, IfOk, OnOk, OnErr};
ghost use Rattle.std.specs.List.{flat_map};
ghost use Rattle.std.specs.Str.Lossy.{utf8_lossy};
ghost use Rattle.bound_tree.specs.Claims.{varies_in};
ghost use Rattle.bound_tree.specs.Reading.{terms_of};
ghost use Rattle.bound_tree.specs.Shown.{claims_as, owner_as, what_as};
ghost use Rattle.lock_findings.specs.Front.{Begins};
ghost use Rattle.lock_findings.specs.Held.{base_of};
ghost use Rattle.lock_findings.specs.LockFindings.{kept_findings};
ghost use Rattle.lock_findings.specs.Rows as spec;

use crate::held::{is_held, is_held_if_any};
use crate::lock::{Base, Guard, Need};
use crate::own::Own;
use crate::promises::LockPromises;
use crate::ways::ways_of;
use bound_tree::{Claim, Expr, FieldName, MemberName, Owner, Seen, What, local_claim};
use desk_base::{Items, Name, OutOfMemory, PromiseKey, Text};
use result_records::{Alternative, Finding, FindingCode, FindingKey};
use sqlite_items::at;
use std::alloc::Global;

/// Where a finding stands: the claims around it, and the number of its token.
#[derive(Clone, Copy)]
pub(crate) struct Spot<'a> {
    pub(crate) claims: &'a [Claim<'a>],
    pub(crate) at: u32,
}

/// What the places of a unit are judged by: the promises of the project and of the unit, and which
/// locals are assigned.
#[derive(Drop)]
pub(crate) struct Judge<'a, P> {
    pub(crate) alloc: Global,
    pub(crate) promises: &'a P,
    pub(crate) own: &'a Own,
    pub(crate) varies: &'a [bool],
}

/// A name as a text; one of ASCII stays as it is.
pub(crate) fn subject_of(alloc: Global, name: &Name) -> Result<Text, OutOfMemory>
    ensures { IfOk result (λ text. text ≡ utf8_lossy name.now) }
{
    Ok(Text::from_string(String::from_utf8_lossy(alloc, name.as_slice())?))
}

/// A finding of the unit that isn't numbered yet.
pub(crate) fn finding(
    code: FindingCode,
    own: &Own,
    on: &PromiseKey,
    place: u32,
    subject: Text,
    alternatives: Items<Alternative>,
) -> Result<Finding, OutOfMemory>
    ensures { IfOk result (λ found. found ≡ spec.finding code own.now on.now place subject alternatives) }
{
    let unit = own.key.clone()?;
    let on = on.clone()?;
    Ok(Finding {
        key: FindingKey {
            code,
            number: 0,
            unit,
            on,
        },
        place,
        subject,
        alternatives,
    })
}

fn access_finding(
    alloc: Global,
    own: &Own,
    spot: &Spot<'_>,
    code: FindingCode,
    field: &FieldName,
    base: Option<u32>,
    guard: &Guard,
) -> Result<Finding, OutOfMemory>
    ensures { IfOk result (λ found. found ≡ spec.access_finding code own.now (claims_as spot.now.claims.now) spot.now.at field.now base guard.now) }
{
    let held = is_held(spot.claims, &guard.holder, &guard.lock.class, base);
    let ways = ways_of(alloc, own, &guard.lock, base, held, true)?;
    let subject = subject_of(alloc, &field.name)?;
    finding(code, own, &guard.key, spot.at, subject, ways)
}

fn call_finding_for(
    alloc: Global,
    own: &Own,
    spot: &Spot<'_>,
    subject: &Name,
    need: &Need,
    base: Option<u32>,
) -> Result<Finding, OutOfMemory>
    ensures { IfOk result (λ found. found ≡ spec.call_finding_for own.now (claims_as spot.now.claims.now) spot.now.at subject.now need.now base) }
{
    let held = is_held_if_any(spot.claims, &need.holder, &need.lock.class, base);
    let ways = ways_of(alloc, own, &need.lock, base, held, !need.lock.is_static)?;
    let subject = subject_of(alloc, subject)?;
    finding(
        FindingCode::UnlockedCall,
        own,
        &need.key,
        spot.at,
        subject,
        ways,
    )
}

/// The local that an argument is.
#[tactic(auto, using(crate::proofs::Arguments::arguments))]
fn argument_base(varies: &[bool], args: &[Expr], number: u32) -> Option<u32>
    ensures { result ≡ spec.argument_base (varies_in varies.now) (terms_of args.now) number }
{
    match at(args, number as usize) {
        Some(argument) => local_claim(argument, varies),
        None => None,
    }
}

impl<'a, P: LockPromises> Judge<'a, P> {
    /// Puts the findings of a read or write of a field.
    #[tactic(auto, using(crate::proofs::Front::fronts))]
    pub(crate) fn put_access(
        &self,
        spot: &Spot<'_>,
        code: FindingCode,
        field: &FieldName,
        base: Option<u32>,
        out: &mut Items<Finding>,
    ) -> Result<(), OutOfMemory>
        ensures ok { OnOk result (out.new ≡ out.old ++ spec.access_findings (P.promises self.now.promises.now) code self.now.own.now (claims_as spot.now.claims.now) spot.now.at field.now base) }
        ensures front { OnErr result (Begins out.old out.new) }
    {
        if field.is_final {
            return Ok(());
        }
        let guards = self.promises.guards(self.alloc, &field.class, &field.name)?;
        for guard in guards.as_slice() {
            out.push(access_finding(self.alloc, self.own, spot, code, field, base, guard)?)?;
        }
        Ok(())
    }

    /// What the caller puts in the place of the callee's base: its receiver, or an argument.
    fn actual_base(&self, receiver: Option<u32>, args: &[Expr], base: &Base) -> Option<u32>
        ensures { result ≡ spec.actual_base (varies_in self.now.varies.now) receiver (terms_of args.now) base.now }
    {
        match base {
            Base::Nobody => None,
            Base::This => receiver,
            Base::Param(number) => argument_base(self.varies, args, *number),
        }
    }

    fn call_finding(
        &self,
        spot: &Spot<'_>,
        subject: &Name,
        receiver: Option<u32>,
        args: &[Expr],
        need: &Need,
    ) -> Result<Finding, OutOfMemory>
        ensures { IfOk result (λ found. found ≡ spec.call_finding self.now.own.now (varies_in self.now.varies.now) (claims_as spot.now.claims.now) spot.now.at subject.now receiver (terms_of args.now) need.now) }
    {
        let base = self.actual_base(receiver, args, &need.base);
        call_finding_for(self.alloc, self.own, spot, subject, need, base)
    }

    /// Puts the findings of a call or `new`, one for each lock that the callee requires.
    #[tactic(auto, using(crate::proofs::Front::fronts))]
    fn put_needs(
        &self,
        spot: &Spot<'_>,
        subject: &Name,
        receiver: Option<u32>,
        args: &[Expr],
        needs: &[Need],
        out: &mut Items<Finding>,
    ) -> Result<(), OutOfMemory>
        ensures ok { OnOk result (out.new ≡ out.old ++ spec.call_findings self.now.own.now (varies_in self.now.varies.now) (claims_as spot.now.claims.now) spot.now.at subject.now receiver (terms_of args.now) needs.now) }
        ensures front { OnErr result (Begins out.old out.new) }
    {
        for need in needs {
            out.push(self.call_finding(spot, subject, receiver, args, need)?)?;
        }
        Ok(())
    }

    /// The base of an access or a call.
    fn base_of(&self, owner: Owner<'_>) -> Option<u32>
        ensures { result ≡ base_of (varies_in self.now.varies.now) (owner_as owner.entry) }
    {
        match owner {
            Owner::Of(value) => local_claim(value, self.varies),
            Owner::OfClass => None,
        }
    }

    /// Puts the findings of a call.
    #[tactic(auto, using(crate::proofs::Arguments::arguments, crate::proofs::Front::fronts))]
    fn put_call(
        &self,
        spot: &Spot<'_>,
        method: &MemberName,
        receiver: Option<u32>,
        args: &[Expr],
        out: &mut Items<Finding>,
    ) -> Result<(), OutOfMemory>
        ensures ok { OnOk result (out.new ≡ out.old ++ spec.method_findings (P.promises self.now.promises.now) self.now.own.now (varies_in self.now.varies.now) (claims_as spot.now.claims.now) spot.now.at method.now receiver (terms_of args.now)) }
        ensures front { OnErr result (Begins out.old out.new) }
    {
        let needs = self.promises.needs(
            self.alloc,
            &method.class,
            method.name.as_slice(),
            args.len(),
        )?;
        self.put_needs(spot, &method.name, receiver, args, needs.as_slice(), out)
    }

    /// Puts the findings of a `new`, which has no receiver in the caller.
    #[tactic(auto, using(crate::proofs::Arguments::arguments, crate::proofs::Front::fronts))]
    fn put_new(
        &self,
        spot: &Spot<'_>,
        class: &Name,
        args: &[Expr],
        out: &mut Items<Finding>,
    ) -> Result<(), OutOfMemory>
        ensures ok { OnOk result (out.new ≡ out.old ++ spec.new_findings (P.promises self.now.promises.now) self.now.own.now (varies_in self.now.varies.now) (claims_as spot.now.claims.now) spot.now.at class.now (terms_of args.now)) }
        ensures front { OnErr result (Begins out.old out.new) }
    {
        let needs = self.promises.needs(self.alloc, class, b"new", args.len())?;
        self.put_needs(spot, class, None, args, needs.as_slice(), out)
    }

    /// Puts the findings of a place.
    pub(crate) fn put_rows(
        &self,
        spot: &Spot<'_>,
        what: What<'_>,
        out: &mut Items<Finding>,
    ) -> Result<(), OutOfMemory>
        ensures ok { OnOk result (out.new ≡ out.old ++ spec.rows (P.promises self.now.promises.now) self.now.own.now (varies_in self.now.varies.now) (claims_as spot.now.claims.now) spot.now.at (what_as what.entry)) }
        ensures front { OnErr result (Begins out.old out.new) }
    {
        match what {
            What::Reads(field, owner) => {
                let base = self.base_of(owner);
                self.put_access(spot, FindingCode::UnguardedRead, field, base, out)
            }
            What::Writes(field, owner) => {
                let base = self.base_of(owner);
                self.put_access(spot, FindingCode::UnguardedWrite, field, base, out)
            }
            What::Calls(method, owner, args) => {
                let receiver = self.base_of(owner);
                self.put_call(spot, method, receiver, args, out)
            }
            What::Makes(class, args) => self.put_new(spot, class, args, out),
            What::Starts(_) | What::Locks(_) | What::Flows(_, _) => Ok(()),
        }
    }

    /// Puts the findings of a place with its claims; one that is faulty has none.
    fn put_place(&self, place: &Seen<'_>, out: &mut Items<Finding>) -> Result<(), OutOfMemory>
        ensures ok { OnOk result (out.new ≡ out.old ++ kept_findings (P.promises self.now.promises.now) self.now.own.now (varies_in self.now.varies.now) place.now) }
        ensures front { OnErr result (Begins out.old out.new) }
    {
        if place.is_faulty {
            return Ok(());
        }
        let spot = Spot {
            claims: place.claims,
            at: place.at,
        };
        self.put_rows(&spot, place.what, out)
    }

    /// Puts the findings of places.
    #[tactic(auto, using(crate::proofs::Pushed::loops))]
    pub(crate) fn put_places(
        &self,
        places: &[Seen<'_>],
        out: &mut Items<Finding>,
    ) -> Result<(), OutOfMemory>
        ensures ok { OnOk result (out.new ≡ out.old ++ flat_map (kept_findings (P.promises self.now.promises.now) self.now.own.now (varies_in self.now.varies.now)) places.now) }
        ensures front { OnErr result (Begins out.old out.new) }
    {
        for place in places {
            self.put_place(place, out)?;
        }
        Ok(())
    }
}

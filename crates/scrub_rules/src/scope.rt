ghost use Rattle.std.specs.Prelude.{◌≡◌};
ghost use Rattle.scrub_rules.specs.Scope as spec;

use java_tree::MemberTree;
use promise_grammar::{NamePattern, ScopeContent};

// Whether the name begins with the one part and ends with the other, which don't overlap in it.
fn encloses(before: &[u8], after: &[u8], name: &[u8]) -> bool
    ensures { result ≡ spec.encloses before.now after.now name.now }
{
    before.len() <= name.len()
        && after.len() <= name.len() - before.len()
        && name.starts_with(before)
        && name.ends_with(after)
}

fn matches(pattern: &NamePattern, name: &[u8]) -> bool
    ensures { result ≡ spec.matches pattern.now name.now }
{
    match pattern {
        NamePattern::Exactly(exact) => exact.as_slice() == name,
        NamePattern::Any => true,
        NamePattern::Starred { name: parts, at } => {
            let parts = parts.as_slice();
            let (before, after) = parts.split_at((*at).min(parts.len()));
            encloses(before, after, name)
        }
    }
}

/// Whether a scoped promise is for the member: a field or a method by its name, a method without
/// parameters by its name, or a constructor. A `main` is no method here.
pub fn selects(scope: &ScopeContent, member: &MemberTree) -> bool
    ensures { result ≡ spec.selects scope.now member.now }
{
    match (scope, member) {
        (ScopeContent::Fields(pattern), MemberTree::Field(field)) => {
            matches(pattern, field.name.text.as_slice())
        }
        (ScopeContent::Methods(pattern), MemberTree::Method(method)) => {
            matches(pattern, method.name.text.as_slice())
        }
        (ScopeContent::PlainMethods(pattern), MemberTree::Method(method)) => {
            method.params.is_empty() && matches(pattern, method.name.text.as_slice())
        }
        (ScopeContent::Constructors, MemberTree::Ctor(_)) => true,
        _ => false,
    }
}

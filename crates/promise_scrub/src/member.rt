ghost use Rattle.std.specs.Prelude.{◌≡◌, IfOk};

use desk_base::OutOfMemory;
use promise_grammar::{NamePattern, PromiseTree, ScopeContent, Shared};

/// A scoped promise of a class: the promise that it gives, and what it is for.
#[derive(Drop)]
pub(crate) struct Scoped {
    pub(crate) inner: Shared<PromiseTree>,
    pub(crate) scope: ScopeContent,
}

fn copied_pattern(pattern: &NamePattern) -> Result<NamePattern, OutOfMemory>
    ensures { IfOk result (λ copy. copy ≡ pattern.now) }
{
    match pattern {
        NamePattern::Exactly(name) => Ok(NamePattern::Exactly(name.clone()?)),
        NamePattern::Any => Ok(NamePattern::Any),
        NamePattern::Starred { name, at } => Ok(NamePattern::Starred {
            name: name.clone()?,
            at: *at,
        }),
    }
}

pub(crate) fn copied_scope(scope: &ScopeContent) -> Result<ScopeContent, OutOfMemory>
    ensures { IfOk result (λ copy. copy ≡ scope.now) }
{
    match scope {
        ScopeContent::Fields(pattern) => Ok(ScopeContent::Fields(copied_pattern(pattern)?)),
        ScopeContent::Methods(pattern) => Ok(ScopeContent::Methods(copied_pattern(pattern)?)),
        ScopeContent::PlainMethods(pattern) => {
            Ok(ScopeContent::PlainMethods(copied_pattern(pattern)?))
        }
        ScopeContent::Constructors => Ok(ScopeContent::Constructors),
    }
}

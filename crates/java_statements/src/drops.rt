//! Letting values go by a call.

/// Lets the value go. Where a value has many parts, a `?` or the end of a block would spell out the drop of
/// each at that place.
pub(crate) fn let_go<T: Drop>(_value: T) {}

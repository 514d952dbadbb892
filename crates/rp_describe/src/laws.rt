//! A law over the definitions alone. A call does nothing, and its caller may then use it.
ghost use Rattle.rp_describe.specs.MissingLaws.{MissingAreNull};

/// The law of missing variables: what a condition looks at by a navigation among them is null, at each row that a word of the
/// pattern maps to its variable.
pub fn law_missing()
    ensures { MissingAreNull }
{}

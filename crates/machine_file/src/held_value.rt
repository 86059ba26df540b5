use toml::Value;

/// What a file holds for a key.
#[derive(Clone, Copy)]
pub(crate) enum Held<'a> {
    LeftOut,
    Value(&'a Value),
    /// The section's name has no table.
    NoSection,
}

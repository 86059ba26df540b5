/// What a command takes.
#[derive(Clone, Copy)]
pub(crate) struct Form<'a> {
    /// The command's word.
    pub word: &'a str,
    /// Its names, in their order.
    pub names: &'a [&'a str],
    /// Names that may stand behind those.
    pub optional: &'a [&'a str],
    /// A name for all names behind those, of which one must be there.
    pub rest: Option<&'a str>,
    /// Its options, each with a value.
    pub options: &'a [&'a str],
    /// Its flags, which have no value.
    pub flags: &'a [&'a str],
}

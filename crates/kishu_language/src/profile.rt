/// The rules of the language under which a commit's cells run.
#[derive(Clone, Copy, Debug, PartialEq, Eq)]
pub enum Profile {
    One,
    /// The next release of the language. Nothing makes it yet.
    Two,
}

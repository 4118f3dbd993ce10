/// How much a principal has added to the journal: so many entries, and so many bytes of their lines in the policy text,
/// line feeds counted.
#[derive(Clone, Copy, Debug, PartialEq, Eq)]
pub struct Tally {
    pub entries: u64,
    pub bytes: u64,
}

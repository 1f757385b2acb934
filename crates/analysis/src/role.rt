// What a set of parts is looked at as: a path, or a cut.
#[derive(Clone, Copy, Debug, PartialEq, Eq)]
pub enum Role {
    Path,
    Cut,
}

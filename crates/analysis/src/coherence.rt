// What a verdict says of a structure. A file of its own, since names in one may not differ in case alone.
#[derive(Clone, Copy, Debug, PartialEq, Eq)]
pub struct Verdict {
    pub works_with_all: bool,
    pub fails_with_none: bool,
    pub relevant: u16,
    pub coherent: bool,
}

/// Where a moment stands among passes: the pass's place in their list, and the moment's place in the pass.
#[derive(Clone, Copy, Debug, PartialEq, Eq)]
pub struct Spot {
    pub pass: usize,
    pub moment: usize,
}

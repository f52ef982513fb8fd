/// How far the rules go.
#[derive(Clone, Copy)]
pub struct Bounds {
    /// How often a part may be repeated: more than there are tokens.
    pub turns: usize,
    /// How deep the expressions and statements inside may nest.
    pub levels: usize,
}

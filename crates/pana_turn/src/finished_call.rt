/// A call that a desk has finished: the number of the pass that made it, the call, its reply, and the state that it left.
/// Contracts speak of it; the program makes no value of it.
pub struct FinishedCall<S, C, R> {
    pub pass: u32,
    pub call: C,
    pub reply: R,
    pub left: S,
}

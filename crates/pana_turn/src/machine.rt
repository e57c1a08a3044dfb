/// What a desk serves: something that takes one call after another. To contracts it is its state.
pub trait Machine: Drop {
    /// What is asked of it.
    type Call: Drop;

    /// What it answers.
    type Reply: Drop;

    /// What a call may do: of the state before it, the call, its reply, and the state that it leaves.
    ghost step: { Self → Self.Call → Self.Reply → Self → Type 0 };

    /// Makes one call.
    fn make(&mut self, call: Self::Call) -> Self::Reply
        ensures { step self.old call result self.new };

    /// Whether some of its calls take as long as a disk does. Then callers sleep while they wait.
    fn is_slow(&self) -> bool {
        false
    }

    /// Whether this call takes so long, where some do. Such calls are made in the order in which they came.
    fn takes_long(_call: &Self::Call) -> bool {
        false
    }
}

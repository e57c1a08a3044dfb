/// A log that others append to as well.
#[derive(Clone, Copy)]
pub struct LogPlace<'a> {
    pub address: &'a str,
    /// For how many seconds an answer is waited for.
    pub patience: u32,
    /// Whether questions are answered from what was read before.
    pub is_stale: bool,
}

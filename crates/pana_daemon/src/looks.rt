/// How folders are looked at.
#[derive(Clone, Copy)]
pub struct Looks {
    /// Whether they are tracked by contents; else reports are planned for their files.
    pub is_tracked: bool,
    /// After how many seconds they are looked at again, where no newline has come before.
    pub every: Option<u32>,
}

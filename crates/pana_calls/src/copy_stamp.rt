//! Stamps in an answer.

/// A copy's number and the text of its stamp.
pub struct CopyStamp {
    pub copy: u64,
    pub text: String,
}

impl Drop for CopyStamp {
    fn drop(self) {
        let CopyStamp { copy: _, text: _ } = self;
    }
}

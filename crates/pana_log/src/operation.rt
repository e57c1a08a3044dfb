/// A call that a device in memory has done.
#[derive(Drop)]
pub(crate) enum Operation {
    Write { at: usize, bytes: Vec<u8> },
    Cut { len: usize },
    Sync,
}

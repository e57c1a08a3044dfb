//! Where the lines of a journal's file end.
ghost use Rattle.std.specs.Prelude.{◌≡◌, true};
ghost use Rattle.pana_store.specs.Ending.{before_end};

/// The bytes of a file before its first line that begins with NUL, as the last one of a journal's file does. A dump has
/// no such line. O(n), takes no memory.
pub fn before_end(file: &[u8]) -> &[u8]
    ensures { result.now ≡ before_end true file.now }
{
    let mut starts = true;
    for (index, byte) in file.iter().enumerate() {
        if starts && *byte == 0 {
            return &file[..index];
        }
        starts = *byte == b'\n';
    }
    file
}

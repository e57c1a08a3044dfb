/// What a share knows: how many tickets there are, how many of the 64 parts of the whole it has, how many tickets it has
/// drawn, and how often it found none left. No value of it is made.
pub struct Hand {
    pub most: u64,
    pub parts: u64,
    pub drawn: u64,
    pub missed: u64,
}

/// How many ticks there are, and whether no more come. No value of it is made.
pub struct Count {
    pub ticks: u64,
    pub is_over: bool,
}

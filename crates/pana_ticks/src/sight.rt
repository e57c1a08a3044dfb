/// What a look has shown: more ticks than were seen before; that no more come, and there are as many; or nothing new, with
/// the low 32 bits of the word, to sleep on.
pub(crate) enum Sight {
    More,
    Over,
    Same(u32),
}

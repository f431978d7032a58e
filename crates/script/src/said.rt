// What one line says.
use machine::word::Word;

// A word, said some times.
#[derive(Clone, Copy)]
pub(crate) struct Said {
    pub(crate) word: Word,
    pub(crate) times: u32,
}

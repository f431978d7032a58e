// Reading words, a line at a time: the first line that does not say a word is the answer.
ghost use Rattle.std.specs.Prelude.{◌≡◌, ◌≤◌, Ok, vec_len, MatchResult, OnOk};
ghost use Rattle.script.specs.Words.{with_line, words_of, UnreadFor};

use crate::lines::line_said;
use crate::said::Said;
use crate::unread::Unread;
use machine::word::Word;
use std::alloc::Global;

// The most words that are taken.
const MOST: usize = 10_000_000;

// Adds what a line says to the words before it.
fn add_line(words: &mut Vec<Word>, number: usize, line: &[u8]) -> Result<(), Unread>
    requires { vec_len words.old ≤ 10000000 }
    ensures few { OnOk result (vec_len words.new ≤ 10000000) }
    ensures words { MatchResult result (λ _. with_line number words.old.items line.now ≡ Ok words.new.items) (λ e. UnreadFor (with_line number words.old.items line.now) e) }
{
    let Said { word, times } = line_said(line).ok_or(Unread::BadLine(number))?;
    let count = words.len() + times as usize;
    if count > MOST {
        return Err(Unread::TooMany(number));
    }
    words.resize(count, word)?;
    Ok(())
}

// The words that the lines say, in order, each line ended by byte 10.
pub fn read_words(heap: Global, bytes: &[u8]) -> Result<Vec<Word>, Unread>
    ensures { MatchResult result (λ v. words_of bytes.now ≡ Ok v.items) (λ e. UnreadFor (words_of bytes.now) e) }
{
    let mut words = Vec::new(heap);
    for (i, line) in bytes.split_inclusive(|b| *b == b'\n').enumerate() {
        let number = i + 1;
        let line = line.strip_suffix(b"\n").ok_or(Unread::BadLine(number))?;
        add_line(&mut words, number, line)?;
    }
    Ok(words)
}

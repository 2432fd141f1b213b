// Words among the program's arguments, looked at where they are.
use crate::arguments::{argument, buffer};

// Whether argument i is that word.
pub fn is_word(rt: &HostRuntime, i: usize, word: &[u8]) -> bool {
    let mut text = buffer();
    let n = argument(rt, i, &mut text);
    &text[..n] == word
}

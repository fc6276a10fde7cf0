// One of some words, in a row with a bar between two, put into a lent buffer; and the place of a byte in a list.
#![tactic(auto)]

ghost use Rattle.std.specs.Prelude.{◌≡◌, ◌<◌, length, MatchOption};
ghost use Rattle.text.specs.Text.{Puts};
ghost use Rattle.words.specs.Words.{first_word, past_bar, word_of, index_of};

use text::{Writer, put_byte};

// What stands past the first bar; nothing does past the last word.
fn past_bar(words: &[u8]) -> Option<&[u8]>
    ensures { MatchOption result (words.now ≡ past_bar words.now words.now) (λ past. past.now ≡ past_bar words.now words.now) }
{
    for (i, b) in words.iter().enumerate() {
        if *b == b'|' {
            return Some(&words[i + 1..]);
        }
    }
    None
}

// The words from word k on; a number past the last word's costs no more than the words do.
fn words_from(words: &[u8], k: usize) -> &[u8]
    ensures { first_word result.now ≡ word_of words.now k }
{
    let mut rest = words;
    for _ in 0..k {
        match past_bar(rest) {
            Some(past) => rest = past,
            None => return rest,
        }
    }
    rest
}

// Word k.
pub fn put_word(out: &mut Writer, words: &[u8], k: usize)
    ensures { Puts out.old (word_of words.now k) out.new }
{
    for b in words_from(words, k) {
        if *b == b'|' {
            return;
        }
        put_byte(out, *b);
    }
}

// The place of the first such byte in a list, where the list has one.
pub fn index_of(list: &[u8], b: u8) -> Option<usize>
    ensures { MatchOption result (index_of list.now b ≡ length list.now) (λ k. (k < length list.now) × (k ≡ index_of list.now b)) }
{
    for (i, a) in list.iter().enumerate() {
        if *a == b {
            return Some(i);
        }
    }
    None
}

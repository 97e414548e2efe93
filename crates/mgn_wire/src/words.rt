ghost use Rattle.std.specs.Prelude.{◌≡◌, ◌≤◌, ◌<◌, ◌⊎◌, ◌↔◌, ℕ, MatchOption, true, false, length, slice_index, take, map};
ghost use Rattle.std.specs.Int.{bit_at};
ghost use Rattle.mgn_wire.specs.Word.{words_of, mode_in};
ghost use Rattle.mgn_wire.specs.Line.{all_filled};

use mgn_ids::IdFault;
use mgn_machine::Mode;
use std::simd::prelude::*;

// As many as the longest command has.
const MOST_WORDS: usize = 6;

// How many bytes of a line are looked at at once.
const BLOCK: usize = 64;

/// The words of a line.
#[derive(Clone, Copy)]
pub(crate) struct Words<'a> {
    pub items: [&'a [u8]; MOST_WORDS],
    pub count: usize,
}

// The first 64 bytes of a text, and zeros where it has fewer.
fn first_bytes(text: &[u8]) -> [u8; BLOCK]
    ensures { (k : ℕ) → k < 64 → slice_index result k ≡ slice_index text.now k }
{
    let size = text.len().min(BLOCK);
    let mut row = [0; BLOCK];
    row[..size].copy_from_slice(&text[..size]);
    row
}

// Which of 64 bytes are spaces: bit `k` stands for byte `k`. All are looked at at once.
fn spaces_of(row: &[u8; BLOCK]) -> u64
    ensures { (k : ℕ) → (bit_at result k ≡ 1) ↔ (slice_index row.now k ≡ 32) }
{
    u8x64::from_slice(row)
        .simd_eq(u8x64::splat(b' '))
        .to_bitmask()
}

// Which of the first 64 bytes of a text are spaces.
fn spaces_in(text: &[u8]) -> u64
    ensures spaces { (k : ℕ) → k < 64 → (bit_at result k ≡ 1) ↔ (slice_index text.now k ≡ 32) }
    ensures few { (k : ℕ) → 64 ≤ k → bit_at result k ≡ 0 }
{
    spaces_of(&first_bytes(text))
}

/// The words of a line, or `None` where one is empty or there are more than six.
#[tactic(auto, using(crate::proofs::WordFacts::cut_last))]
pub(crate) fn split_words(line: &[u8]) -> Option<Words<'_>>
    ensures { MatchOption result
        ((all_filled (words_of line.now) ≡ false) ⊎ (6 < length (words_of line.now)))
        (λ words. (words.count ≤ 6)
        × (map (λ s. s.now) (take words.count words.items) ≡ words_of line.now)
        × (all_filled (words_of line.now) ≡ true)) }
{
    let mut items = [line; MOST_WORDS];
    let mut count = 0;
    let mut start = 0;
    let mut at = 0;
    while at < line.len() {
        let mut spaces = spaces_in(&line[at..]);
        while spaces != 0 {
            let place = spaces.trailing_zeros();
            let i = at + place as usize;
            if i == start || count == MOST_WORDS - 1 {
                return None;
            }
            items[count] = &line[start..i];
            count += 1;
            start = i + 1;
            spaces &= !(1 << place);
        }
        at += BLOCK;
    }
    if start == line.len() {
        return None;
    }
    items[count] = &line[start..];
    Some(Words {
        items,
        count: count + 1,
    })
}

/// How an origin is margined: `GROSS` or `NET`.
#[tactic(auto, unfolding(crate::specs::Word::mode_in))]
pub(crate) fn read_mode(word: &[u8]) -> Result<Mode, IdFault>
    ensures { result ≡ mode_in word.now }
{
    match word {
        b"GROSS" => Ok(Mode::Gross),
        b"NET" => Ok(Mode::Net),
        _ => Err(IdFault::Syntax),
    }
}

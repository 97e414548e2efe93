//! Which pages of a list are kept, so that the others are passed at once.

ghost use Rattle.std.specs.Prelude.{◌≡◌, ◌≢◌, ◌<◌, ◌≤◌, ℕ};
ghost use Rattle.std.specs.Int.{bit_at};
ghost use Rattle.mgn_nets.specs.PageSets.{has_page};

// How many pages a list has at most.
const MOST_PAGES: usize = 256;

// How many of them a word stands for.
const WORD: usize = 64;

// The lowest bit of a word that has one.
fn lowest_bit(word: u64) -> usize
    requires { word ≢ 0 }
    ensures few { result < 64 }
    ensures own { bit_at word result ≡ 1 }
    ensures lower { (i : ℕ) → i < result → bit_at word i ≡ 0 }
{
    word.trailing_zeros() as usize
}

/// Some of the pages of a list, each as a bit.
#[derive(Clone, Copy)]
pub(crate) struct PageSet {
    words: [u64; 4],
}

impl PageSet {
    /// No page.
    pub const NONE: PageSet = PageSet { words: [0; 4] };

    /// Adds a page.
    pub fn insert(&mut self, page: usize)
        requires { page < 256 }
        ensures own { has_page self.new.words page ≡ 1 }
        ensures others { (other : ℕ) → other ≢ page → has_page self.new.words other ≡ has_page self.old.words other }
    {
        self.words[page / WORD] |= 1 << (page % WORD);
    }

    /// The pages of two sets.
    pub fn union(&self, other: &PageSet) -> PageSet
        ensures own { (page : ℕ) → has_page result.words page ≡ 0 → has_page self.now.words page ≡ 0 }
        ensures other { (page : ℕ) → has_page result.words page ≡ 0 → has_page other.now.words page ≡ 0 }
    {
        let mut words = self.words;
        for i in 0..4 {
            words[i] |= other.words[i];
        }
        PageSet { words }
    }

    /// The first page from one on, 256 where there is none.
    pub fn next(&self, from: usize) -> usize
        requires { from ≤ 256 }
        ensures from { from ≤ result }
        ensures few { result ≤ 256 }
        ensures has { result < 256 → has_page self.now.words result ≡ 1 }
        ensures passed { (page : ℕ) → from ≤ page → page < result → has_page self.now.words page ≡ 0 }
    {
        let mut page = from;
        while page < MOST_PAGES {
            let rest = self.words[page / WORD] >> (page % WORD);
            if rest != 0 {
                return page + lowest_bit(rest);
            }
            page = (page / WORD + 1) * WORD;
        }
        MOST_PAGES
    }
}

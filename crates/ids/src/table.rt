// The pieces at the start of a lent slice, as many as are claimed: a document's rows, its successor entries, a batch's operations.
// A table is also the cursor over itself.
ghost use Rattle.std.specs.Prelude.{◌≡◌, ◌++◌, ◌+◌, ◌*◌, ◌<◌, ◌≤◌, ◌^◌, ℕ, List, [], length, get_or, take, drop};
ghost use Rattle.std.specs.Iterator.{YieldsFirst, item_count};
ghost use Rattle.model.specs.Basic.{pieces};

use crate::piece::Piece;
use crate::sizes::{OP_WORDS, ROW_WORDS, SUCC_WORDS};
use std::marker::Model;

// First the pieces that the slice holds whole, then those that it does not, of fewer words or none.
#[derive(Drop)]
pub struct Table<'a, const W: usize> {
    words: &'a [u64],
    whole: usize,
    short: usize,
}

pub type Rows<'a> = Table<'a, ROW_WORDS>;

pub type Succs<'a> = Table<'a, SUCC_WORDS>;

pub type Ops<'a> = Table<'a, OP_WORDS>;

// A clause sees the list of its pieces, each as long as the slice lets it be.
impl<'a, const W: usize> Model for Table<'a, W> {
    ghost Value = { List (List ℕ) };

    ghost view = { λ t. pieces W (t.whole + t.short) t.words.now };

    ghost invariant = { λ t. (t.whole * W ≤ length t.words.now) × (t.whole + t.short < 2 ^ 64) };
}

// A table in two: the pieces that the slice holds whole, and those behind them.
#[derive(Drop)]
pub(crate) struct Parted<'a, const W: usize> {
    pub(crate) whole: Table<'a, W>,
    pub(crate) short: Table<'a, W>,
}

impl<'a, const W: usize> Table<'a, W> {
    pub fn new(words: &'a [u64], count: usize) -> Table<'a, W>
        ensures { result ≡ pieces W count words.now }
    {
        let whole = if W == 0 {
            0
        } else {
            count.min(words.len() / W)
        };
        Table {
            words,
            whole,
            short: count - whole,
        }
    }

    pub fn len(&self) -> usize
        ensures { result ≡ length self.now }
    {
        self.short + self.whole
    }

    // Piece i; past the last, one of no words.
    pub fn get(&self, i: usize) -> Piece<'a, W>
        ensures { result ≡ get_or self.now i [] }
    {
        if i < self.whole {
            let start = i * W;
            return Piece {
                words: &self.words[start..start + W],
            };
        }
        if i < self.whole + self.short {
            Piece::nth(self.words, i)
        } else {
            Piece::at(&[], 0)
        }
    }

    // The pieces from .. to.
    pub fn part(&self, from: usize, to: usize) -> Table<'a, W>
        ensures { result ≡ drop from (take to self.now) }
    {
        let end = to.min(self.whole + self.short);
        let start = from.min(end);
        let skipped = start.saturating_mul(W).min(self.words.len());
        let (_, words) = self.words.split_at(skipped);
        Table::new(words, end - start)
    }

    pub fn iter(&self) -> Table<'a, W>
        ensures same { result ≡ self.now }
        ensures fits { length self.now < 2 ^ 64 }
    {
        Table {
            words: self.words,
            whole: self.whole,
            short: self.short,
        }
    }

    // A walk over the whole pieces alone takes nothing from turn to turn but where it is and how many are left: for walks that are most of a call.
    pub(crate) fn parted(&self) -> Parted<'a, W>
        ensures { result.whole ++ result.short ≡ self.now }
    {
        let short = self.short;
        let (_, rest) = self.words.split_at(self.whole * W);
        Parted {
            whole: Table {
                words: self.words,
                whole: self.whole,
                short: 0,
            },
            short: Table {
                words: rest,
                whole: 0,
                short,
            },
        }
    }
}

impl<'a, const W: usize> Iterator for Table<'a, W> {
    type Item = Piece<'a, W>;

    ghost next_gives = { YieldsFirst (λ s. s) };

    ghost remaining = { item_count (λ s. s) };

    // A whole piece asks no more than that there is one: walks over tables are most of what a call does.
    fn next(&mut self) -> Option<Piece<'a, W>> {
        if 0 < self.whole {
            let (words, rest) = self.words.split_at(W);
            self.words = rest;
            self.whole -= 1;
            return Some(Piece { words });
        }
        if self.short == 0 {
            return None;
        }
        let (words, rest) = self.words.split_at(W.min(self.words.len()));
        self.words = rest;
        self.short -= 1;
        Some(Piece { words })
    }
}

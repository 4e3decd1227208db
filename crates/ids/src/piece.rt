// A piece of W words of a lent slice, read by index: a row, a successor entry, an operation. Where the slice ends it has fewer words, or none.
ghost use Rattle.std.specs.Prelude.{◌≡◌, ℕ, List, get_or, take, drop};
ghost use Rattle.ids.specs.Words.{piece_at};

use crate::sizes::{OP_WORDS, ROW_WORDS, SUCC_WORDS};
use std::marker::Model;

#[derive(Drop)]
pub struct Piece<'a, const W: usize> {
    pub(crate) words: &'a [u64],
}

pub type Row<'a> = Piece<'a, ROW_WORDS>;

pub type Succ<'a> = Piece<'a, SUCC_WORDS>;

pub type Op<'a> = Piece<'a, OP_WORDS>;

// A clause sees the list of its words.
impl<'a, const W: usize> Model for Piece<'a, W> {
    ghost Value = { List ℕ };

    ghost view = { λ p. p.words.now };
}

impl<'a, const W: usize> Piece<'a, W> {
    // The piece that starts at this word.
    pub fn at(words: &'a [u64], start: usize) -> Piece<'a, W>
        ensures { result ≡ take W (drop start words.now) }
    {
        let rest = &words[start.min(words.len())..];
        Piece {
            words: &rest[..W.min(rest.len())],
        }
    }

    // The piece with this number.
    pub fn nth(words: &'a [u64], i: usize) -> Piece<'a, W>
        ensures { result ≡ piece_at W words.now i }
    {
        // Most pieces are whole, and to divide by a constant is to multiply.
        if 0 < W && i < words.len() / W {
            let start = i * W;
            return Piece {
                words: &words[start..start + W],
            };
        }
        Piece::at(words, i.saturating_mul(W).min(words.len()))
    }

    // A word past the end is 0, as the definitions read it.
    pub fn word(&self, k: usize) -> u64
        ensures { result ≡ get_or self.now k 0 }
    {
        self.words.get(k).copied().unwrap_or(0)
    }
}

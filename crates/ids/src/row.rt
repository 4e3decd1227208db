// A row's words by name, and what they say.
ghost use Rattle.std.specs.Prelude.{◌≡◌, ◌&&◌, eqb};
ghost use Rattle.model.specs.Row.{id_of, object_of, key_kind_of, named_of, key_length_of, insert_of, action_of, value_kind_of, value_of, on_list, is_insert, is_make_sequence, is_set_or_make, is_counter, element_of};
ghost use Rattle.ids.specs.Kinds.{action_number, value_number};
ghost use Rattle.ids.specs.Words.{place_of, same_key_words, same_words};

use crate::kinds::{Action, KeyKind, ValueKind};
use crate::piece::Piece;
use crate::sizes::ROW_WORDS;

pub const ID: usize = 0;

pub const OBJECT: usize = 1;

pub const KEY_KIND: usize = 2;

pub const NAMED: usize = 3;

pub const KEY_LENGTH: usize = 4;

pub const KEY_WORD: usize = 5;

pub const KEY_WORD_2: usize = 6;

pub const KEY_WORD_3: usize = 7;

pub const INSERT: usize = 8;

pub const ACTION: usize = 9;

pub const VALUE_KIND: usize = 10;

pub const VALUE: usize = 11;

// Where row i starts; a row past the slice has no words.
#[tactic(auto, unfolding(crate::specs::Words::place_of))]
pub fn place(rows: &[u64], i: usize) -> usize
    ensures { result ≡ place_of rows.now i }
{
    if rows.len() <= i {
        rows.len()
    } else {
        i * ROW_WORDS
    }
}

impl<'a> Piece<'a, ROW_WORDS> {
    pub fn id(&self) -> u64
        ensures { result ≡ id_of self.now }
    {
        self.word(ID)
    }

    pub fn object(&self) -> u64
        ensures { result ≡ object_of self.now }
    {
        self.word(OBJECT)
    }

    pub fn key_kind(&self) -> u64
        ensures { result ≡ key_kind_of self.now }
    {
        self.word(KEY_KIND)
    }

    pub fn on_list(&self) -> bool
        ensures { result ≡ on_list self.now }
    {
        self.key_kind() == KeyKind::List as u64
    }

    pub fn named(&self) -> u64
        ensures { result ≡ named_of self.now }
    {
        self.word(NAMED)
    }

    pub fn key_length(&self) -> u64
        ensures { result ≡ key_length_of self.now }
    {
        self.word(KEY_LENGTH)
    }

    pub fn insert(&self) -> u64
        ensures { result ≡ insert_of self.now }
    {
        self.word(INSERT)
    }

    pub fn is_insert(&self) -> bool
        ensures { result ≡ is_insert self.now }
    {
        self.insert() == 1
    }

    pub fn action(&self) -> u64
        ensures { result ≡ action_of self.now }
    {
        self.word(ACTION)
    }

    // Is this what the row does?
    pub fn does(&self, action: Action) -> bool
        ensures { result ≡ eqb (action_of self.now) (action_number action) }
    {
        self.action() == action as u64
    }

    pub fn is_make_sequence(&self) -> bool
        ensures { result ≡ is_make_sequence self.now }
    {
        self.does(Action::MakeList)
    }

    pub fn is_set_or_make(&self) -> bool
        ensures { result ≡ is_set_or_make self.now }
    {
        self.does(Action::Set) || self.does(Action::MakeMap) || self.does(Action::MakeList)
    }

    pub fn value_kind(&self) -> u64
        ensures { result ≡ value_kind_of self.now }
    {
        self.word(VALUE_KIND)
    }

    // Is its value of this kind?
    pub fn holds(&self, kind: ValueKind) -> bool
        ensures { result ≡ eqb (value_kind_of self.now) (value_number kind) }
    {
        self.value_kind() == kind as u64
    }

    pub fn is_counter(&self) -> bool
        ensures { result ≡ is_counter self.now }
    {
        self.holds(ValueKind::Counter)
    }

    pub fn value(&self) -> u64
        ensures { result ≡ value_of self.now }
    {
        self.word(VALUE)
    }

    // An insert's element is its own id, any other list row's the one it names.
    #[tactic(auto, unfolding(model::specs::Row::element_of))]
    pub fn element(&self) -> u64
        ensures { result ≡ element_of self.now }
    {
        if self.is_insert() {
            self.id()
        } else {
            self.named()
        }
    }

    #[tactic(auto, unfolding(crate::specs::Words::same_key_words))]
    fn same_key_words(&self, other: &Piece<'_, ROW_WORDS>) -> bool
        ensures { result ≡ same_key_words self.now other.now }
    {
        self.key_length() == other.key_length()
            && self.word(KEY_WORD) == other.word(KEY_WORD)
            && self.word(KEY_WORD_2) == other.word(KEY_WORD_2)
            && self.word(KEY_WORD_3) == other.word(KEY_WORD_3)
    }

    // Of one object and key? For rows that pass check 4: keys are then equal if their words are.
    #[tactic(auto, unfolding(crate::specs::Words::same_words))]
    pub fn same_key(&self, other: &Piece<'_, ROW_WORDS>) -> bool
        ensures { result ≡ same_words self.now other.now }
    {
        if self.object() != other.object() {
            return false;
        }
        if self.on_list() {
            return other.on_list() && self.element() == other.element();
        }
        !other.on_list() && self.same_key_words(other)
    }
}

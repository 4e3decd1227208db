// Kinds of key, actions and kinds of value, each with the number that a word has for it (docs/LAYOUT.md).
ghost use Rattle.ids.specs.Kinds.{key_number, action_number, value_number, Decodes};

#[derive(Clone, Copy, PartialEq, Eq)]
pub enum KeyKind {
    Map = 0,
    List = 1,
}

#[derive(Clone, Copy, PartialEq, Eq)]
pub enum Action {
    MakeMap = 0,
    Set = 1,
    MakeList = 2,
    Delete = 3,
    Increment = 5,
}

#[derive(Clone, Copy, PartialEq, Eq)]
pub enum ValueKind {
    Null = 0,
    Boolean = 1,
    Unsigned = 3,
    Signed = 4,
    Float = 5,
    Counter = 8,
    Timestamp = 9,
}

// A number that no kind has.
#[derive(Clone, Copy, PartialEq, Eq)]
pub struct Unknown(pub u64);

impl TryFrom<u64> for KeyKind {
    type Error = Unknown;

    ghost try_from_gives = { Decodes key_number };

    fn try_from(number: u64) -> Result<KeyKind, Unknown> {
        match number {
            0 => Ok(KeyKind::Map),
            1 => Ok(KeyKind::List),
            _ => Err(Unknown(number)),
        }
    }
}

impl TryFrom<u64> for Action {
    type Error = Unknown;

    ghost try_from_gives = { Decodes action_number };

    fn try_from(number: u64) -> Result<Action, Unknown> {
        match number {
            0 => Ok(Action::MakeMap),
            1 => Ok(Action::Set),
            2 => Ok(Action::MakeList),
            3 => Ok(Action::Delete),
            5 => Ok(Action::Increment),
            _ => Err(Unknown(number)),
        }
    }
}

impl TryFrom<u64> for ValueKind {
    type Error = Unknown;

    ghost try_from_gives = { Decodes value_number };

    fn try_from(number: u64) -> Result<ValueKind, Unknown> {
        match number {
            0 => Ok(ValueKind::Null),
            1 => Ok(ValueKind::Boolean),
            3 => Ok(ValueKind::Unsigned),
            4 => Ok(ValueKind::Signed),
            5 => Ok(ValueKind::Float),
            8 => Ok(ValueKind::Counter),
            9 => Ok(ValueKind::Timestamp),
            _ => Err(Unknown(number)),
        }
    }
}

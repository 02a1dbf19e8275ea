// Why an entry, a run or a command is refused, and the number that it is answered by.
ghost use Rattle.std.specs.Prelude.{◌≡◌};
ghost use Rattle.model.specs.Codes.{refusal_code};

use std::error::Error;
use std::fmt;

/// A refusal. An answer has its number, `u8::from(refusal)`: 13 is reserved, and answered to no command.
#[derive(Clone, Copy, PartialEq, Eq, Debug)]
pub enum Refusal {
    /// 1: a store is not made for 1 to 4,096 entities and 1 to 128 kinds, or its values have neither 8 nor 16 bytes.
    Size,
    /// 2: fewer words are lent than the store needs.
    Short,
    /// 3: the words are no sound store.
    Unsound,
    /// 4: the tape goes on with a byte that is no command.
    Unknown,
    /// 5: the tape ends before the command's last operand.
    Cut,
    /// 6: fewer bytes, or words, are free than the accepted answer takes.
    NoRoom,
    /// 7: the kind is above 127 or, except for REG, not registered.
    Kind,
    /// 8: the kind is new, and as many are registered as the store is made for.
    Kinds,
    /// 9: the kind is in that list already.
    Again,
    /// 10: the list has 16 kinds.
    Handful,
    /// 11: the entity is not live.
    Dead,
    /// 12: fewer numbers are free than there are entities to make.
    Full,
    /// 14: the staged kinds and a group of the draft have a kind in common, and neither has all kinds of the other.
    Clash,
    /// 15: the draft has 64 groups, and the staged kinds would be one more.
    Many,
    /// 16: the part of a column starts behind its end, or ends behind the last row.
    Beyond,
    /// 19: the caller is above 15.
    Caller,
}

impl From<Refusal> for u8 {
    ghost from_gives = { λ refusal number. number ≡ refusal_code refusal };

    fn from(refusal: Refusal) -> u8 {
        match refusal {
            Refusal::Size => SIZE,
            Refusal::Short => SHORT,
            Refusal::Unsound => UNSOUND,
            Refusal::Unknown => UNKNOWN,
            Refusal::Cut => CUT,
            Refusal::NoRoom => NOROOM,
            Refusal::Kind => KIND,
            Refusal::Kinds => KINDS,
            Refusal::Again => AGAIN,
            Refusal::Handful => HANDFUL,
            Refusal::Dead => DEAD,
            Refusal::Full => FULL,
            Refusal::Clash => CLASH,
            Refusal::Many => MANY,
            Refusal::Beyond => BEYOND,
            Refusal::Caller => CALLER,
        }
    }
}

impl fmt::Display for Refusal {
    fn fmt<W: fmt::Write>(&self, f: &mut fmt::Formatter<W>) -> fmt::Result {
        f.write_str(match self {
            Refusal::Size => "no store has this size",
            Refusal::Short => "too few words",
            Refusal::Unsound => "the words are no sound store",
            Refusal::Unknown => "no command has this byte",
            Refusal::Cut => "the operands are cut off",
            Refusal::NoRoom => "no room for the answer",
            Refusal::Kind => "no such kind",
            Refusal::Kinds => "no room for another kind",
            Refusal::Again => "the kind is in the list already",
            Refusal::Handful => "the list is full",
            Refusal::Dead => "the entity is not live",
            Refusal::Full => "no numbers are free",
            Refusal::Clash => "the group would overlap another",
            Refusal::Many => "no room for another group",
            Refusal::Beyond => "no such part of the column",
            Refusal::Caller => "no such caller",
        })
    }
}

impl Error for Refusal {}

// Refusals, by their names in 01's table; 02's No. 7 has the last.
pub const SIZE: u8 = 1;

pub const SHORT: u8 = 2;

pub const UNSOUND: u8 = 3;

pub const UNKNOWN: u8 = 4;

pub const CUT: u8 = 5;

pub const NOROOM: u8 = 6;

pub const KIND: u8 = 7;

pub const KINDS: u8 = 8;

pub const AGAIN: u8 = 9;

pub const HANDFUL: u8 = 10;

pub const DEAD: u8 = 11;

pub const FULL: u8 = 12;

// Answered to no command (02, No. 3); the number stays reserved.
pub const WIDE: u8 = 13;

pub const CLASH: u8 = 14;

pub const MANY: u8 = 15;

pub const BEYOND: u8 = 16;

pub const CALLER: u8 = 19;

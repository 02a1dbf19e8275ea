// The commands, and the byte by which each stands on a tape.
ghost use Rattle.std.specs.Prelude.{◌≡◌};
ghost use Rattle.model.specs.Codes.{command_byte, Decodes};

use crate::refusals::Refusal;

/// A command, without its operands.
#[derive(Clone, Copy, PartialEq, Eq, Debug)]
pub enum Command {
    /// Byte 1: registers a kind.
    Register,
    /// Byte 2: puts a kind and its value into the staged list.
    Hold,
    /// Byte 3: makes an entity with the staged components.
    New,
    /// Byte 4: gives an entity the staged components.
    Put,
    /// Byte 5: takes the staged kinds from an entity, and answers their values.
    Take,
    /// Byte 6: takes the staged kinds from an entity.
    Drop,
    /// Byte 7: destroys an entity.
    Kill,
    /// Byte 8: takes all components from all entities.
    Wipe,
    /// Byte 9: makes a group of the staged kinds, in the draft.
    Group,
    /// Byte 10: makes the draft the layout.
    Apply,
    /// Byte 11: puts a kind into the excluded list.
    Bar,
    /// Byte 12: answers where the rows stand that hold the staged kinds and not the excluded.
    Range,
    /// Byte 13: empties both lists.
    Empty,
    /// Byte 14: answers the caller's count of refusals.
    Tally,
    /// Byte 15: makes as many entities with the staged components as it is told.
    Tray,
    /// Byte 16: says who calls from here on.
    SetCaller,
}

impl TryFrom<u8> for Command {
    type Error = Refusal;

    ghost try_from_gives = { Decodes };

    fn try_from(byte: u8) -> Result<Self, Refusal> {
        match byte {
            REG => Ok(Command::Register),
            HOLD => Ok(Command::Hold),
            NEW => Ok(Command::New),
            PUT => Ok(Command::Put),
            TAKE => Ok(Command::Take),
            DROP => Ok(Command::Drop),
            KILL => Ok(Command::Kill),
            WIPE => Ok(Command::Wipe),
            GROUP => Ok(Command::Group),
            APPLY => Ok(Command::Apply),
            BAR => Ok(Command::Bar),
            RANGE => Ok(Command::Range),
            EMPTY => Ok(Command::Empty),
            TALLY => Ok(Command::Tally),
            TRAY => Ok(Command::Tray),
            SETCALLER => Ok(Command::SetCaller),
            _ => Err(Refusal::Unknown),
        }
    }
}

impl From<Command> for u8 {
    ghost from_gives = { λ command byte. byte ≡ command_byte command };

    fn from(command: Command) -> u8 {
        match command {
            Command::Register => REG,
            Command::Hold => HOLD,
            Command::New => NEW,
            Command::Put => PUT,
            Command::Take => TAKE,
            Command::Drop => DROP,
            Command::Kill => KILL,
            Command::Wipe => WIPE,
            Command::Group => GROUP,
            Command::Apply => APPLY,
            Command::Bar => BAR,
            Command::Range => RANGE,
            Command::Empty => EMPTY,
            Command::Tally => TALLY,
            Command::Tray => TRAY,
            Command::SetCaller => SETCALLER,
        }
    }
}

// Commands, by their names in 01's table; 02's Nos. 4 and 7 have the last two.
pub const REG: u8 = 1;

pub const HOLD: u8 = 2;

pub const NEW: u8 = 3;

pub const PUT: u8 = 4;

pub const TAKE: u8 = 5;

pub const DROP: u8 = 6;

pub const KILL: u8 = 7;

pub const WIPE: u8 = 8;

pub const GROUP: u8 = 9;

pub const APPLY: u8 = 10;

pub const BAR: u8 = 11;

pub const RANGE: u8 = 12;

pub const EMPTY: u8 = 13;

pub const TALLY: u8 = 14;

pub const TRAY: u8 = 15;

pub const SETCALLER: u8 = 16;
// The last of them.
pub const LAST_COMMAND: u8 = SETCALLER;

#![tactic(auto)]
// Lock modes: the mode type, the compatibility matrix, sets of modes, and down conversions.
// A mode is given as its number, NL 0 to EX 5, and a set of modes as a number below 64 whose bit m is for mode m.
ghost use Rattle.std.specs.Prelude.{◌≡◌, ◌<◌};
ghost use Rattle.modes.specs.Modes.{compatible, down};
ghost use Rattle.modes.specs.Sets.{fits_set, FitsRow, with_mode};
ghost use Rattle.modes.specs.Made.{made_numbers, made};

// A lock mode, with its number.
#[derive(Clone, Copy, Debug, PartialEq, Eq, PartialOrd, Ord)]
pub enum Mode {
    Null = 0,
    ConcurrentRead = 1,
    ConcurrentWrite = 2,
    ProtectedRead = 3,
    ProtectedWrite = 4,
    Exclusive = 5,
}

impl Mode {
    pub const NL: Mode = Mode::Null;

    pub const CR: Mode = Mode::ConcurrentRead;

    pub const CW: Mode = Mode::ConcurrentWrite;

    pub const PR: Mode = Mode::ProtectedRead;

    pub const PW: Mode = Mode::ProtectedWrite;

    pub const EX: Mode = Mode::Exclusive;

    // The mode with this number. A number above 5 is none.
    pub fn from_number(n: u32) -> Option<Mode>
        ensures { made_numbers result ≡ made n }
    {
        match n {
            0 => Some(Mode::NL),
            1 => Some(Mode::CR),
            2 => Some(Mode::CW),
            3 => Some(Mode::PR),
            4 => Some(Mode::PW),
            5 => Some(Mode::EX),
            _ => None,
        }
    }
}

// The compatibility matrix: a row for each held mode, NL to EX, a column for each asked mode.
const COMPATIBLE: [[bool; 6]; 6] = [
    [true, true, true, true, true, true], // NL
    [true, true, true, true, true, false], // CR
    [true, true, true, false, false, false], // CW
    [true, true, false, true, false, false], // PR
    [true, true, false, false, false, false], // PW
    [true, false, false, false, false, false], // EX
];

// Whether the asked mode is compatible with the held one.
pub fn goes_with(held: u32, asked: u32) -> bool
    requires held_bound { held < 6 }
    requires asked_bound { asked < 6 }
    ensures { result ≡ compatible held asked }
{
    COMPATIBLE[held as usize][asked as usize]
}

// Whether a conversion is down: every mode compatible with the old mode is compatible with the new.
pub fn down(old: u32, new: u32) -> bool
    requires bound { old < 6 }
    requires bound_2 { new < 6 }
    ensures { result ≡ down old new }
{
    for mode in 0..6 {
        if COMPATIBLE[old as usize][mode] & !COMPATIBLE[new as usize][mode] {
            return false;
        }
    }
    true
}

// The set with one mode more.
pub fn with_mode(set: u32, mode: u32) -> u32
    requires set_bound { set < 64 }
    requires mode_bound { mode < 6 }
    ensures { (result ≡ with_mode set mode) × (result < 64) }
{
    set | (1 << mode)
}

// A row for each set of modes, a column for each asked mode: whether it is compatible with every mode of the set.
const FITS: [[bool; 6]; 64] = [
    [true, true, true, true, true, true], // 0: none
    [true, true, true, true, true, true], // 1: NL
    [true, true, true, true, true, false], // 2: CR
    [true, true, true, true, true, false], // 3: NL CR
    [true, true, true, false, false, false], // 4: CW
    [true, true, true, false, false, false], // 5: NL CW
    [true, true, true, false, false, false], // 6: CR CW
    [true, true, true, false, false, false], // 7: NL CR CW
    [true, true, false, true, false, false], // 8: PR
    [true, true, false, true, false, false], // 9: NL PR
    [true, true, false, true, false, false], // 10: CR PR
    [true, true, false, true, false, false], // 11: NL CR PR
    [true, true, false, false, false, false], // 12: CW PR
    [true, true, false, false, false, false], // 13: NL CW PR
    [true, true, false, false, false, false], // 14: CR CW PR
    [true, true, false, false, false, false], // 15: NL CR CW PR
    [true, true, false, false, false, false], // 16: PW
    [true, true, false, false, false, false], // 17: NL PW
    [true, true, false, false, false, false], // 18: CR PW
    [true, true, false, false, false, false], // 19: NL CR PW
    [true, true, false, false, false, false], // 20: CW PW
    [true, true, false, false, false, false], // 21: NL CW PW
    [true, true, false, false, false, false], // 22: CR CW PW
    [true, true, false, false, false, false], // 23: NL CR CW PW
    [true, true, false, false, false, false], // 24: PR PW
    [true, true, false, false, false, false], // 25: NL PR PW
    [true, true, false, false, false, false], // 26: CR PR PW
    [true, true, false, false, false, false], // 27: NL CR PR PW
    [true, true, false, false, false, false], // 28: CW PR PW
    [true, true, false, false, false, false], // 29: NL CW PR PW
    [true, true, false, false, false, false], // 30: CR CW PR PW
    [true, true, false, false, false, false], // 31: NL CR CW PR PW
    [true, false, false, false, false, false], // 32: EX
    [true, false, false, false, false, false], // 33: NL EX
    [true, false, false, false, false, false], // 34: CR EX
    [true, false, false, false, false, false], // 35: NL CR EX
    [true, false, false, false, false, false], // 36: CW EX
    [true, false, false, false, false, false], // 37: NL CW EX
    [true, false, false, false, false, false], // 38: CR CW EX
    [true, false, false, false, false, false], // 39: NL CR CW EX
    [true, false, false, false, false, false], // 40: PR EX
    [true, false, false, false, false, false], // 41: NL PR EX
    [true, false, false, false, false, false], // 42: CR PR EX
    [true, false, false, false, false, false], // 43: NL CR PR EX
    [true, false, false, false, false, false], // 44: CW PR EX
    [true, false, false, false, false, false], // 45: NL CW PR EX
    [true, false, false, false, false, false], // 46: CR CW PR EX
    [true, false, false, false, false, false], // 47: NL CR CW PR EX
    [true, false, false, false, false, false], // 48: PW EX
    [true, false, false, false, false, false], // 49: NL PW EX
    [true, false, false, false, false, false], // 50: CR PW EX
    [true, false, false, false, false, false], // 51: NL CR PW EX
    [true, false, false, false, false, false], // 52: CW PW EX
    [true, false, false, false, false, false], // 53: NL CW PW EX
    [true, false, false, false, false, false], // 54: CR CW PW EX
    [true, false, false, false, false, false], // 55: NL CR CW PW EX
    [true, false, false, false, false, false], // 56: PR PW EX
    [true, false, false, false, false, false], // 57: NL PR PW EX
    [true, false, false, false, false, false], // 58: CR PR PW EX
    [true, false, false, false, false, false], // 59: NL CR PR PW EX
    [true, false, false, false, false, false], // 60: CW PR PW EX
    [true, false, false, false, false, false], // 61: NL CW PR PW EX
    [true, false, false, false, false, false], // 62: CR CW PR PW EX
    [true, false, false, false, false, false], // 63: NL CR CW PR PW EX
];

// The row of a set. Where nobody holds a mode the table is not read: the compiler builds it on the stack at each use.
pub fn fits_row(set: u32) -> [bool; 6]
    requires { set < 64 }
    ensures { FitsRow set result }
{
    if set == 0 {
        return [true; 6];
    }
    FITS[set as usize]
}

// Whether the asked mode is compatible with every mode of the set.
pub fn fits(set: u32, asked: u32) -> bool
    requires set_bound { set < 64 }
    requires asked_bound { asked < 6 }
    ensures { result ≡ fits_set set asked }
{
    let row = fits_row(set);
    row[asked as usize]
}

// For each asked mode the set of those that are not compatible with it. The digits, from the left, are EX PW PR CW CR NL.
const AGAINST: [u32; 6] = [
    0b00_0000, // NL: none
    0b10_0000, // CR: EX
    0b11_1000, // CW: PR PW EX
    0b11_0100, // PR: CW PW EX
    0b11_1100, // PW: CW PR PW EX
    0b11_1110, // EX: all but NL
];

// The same as `fits`, in less time: for what grants nothing, above all the soundness check, which asks at every lock.
pub fn fits_by_masks(set: u32, asked: u32) -> bool
    requires set_bound { set < 64 }
    requires asked_bound { asked < 6 }
    ensures { result ≡ fits_set set asked }
{
    set & AGAINST[asked as usize] == 0
}

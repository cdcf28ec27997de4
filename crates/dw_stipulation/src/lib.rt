//! The stipulation of a problem: within how many moves the side to move must win.
#![tactic(auto)]

ghost use Rattle.std.specs.Prelude.{◌≡◌, ◌≤◌, ◌&&◌, nat_le, if◌then◌else◌, Some, None, option_map};

/// A number of moves of the side to move, within which it must win: 1 to 20.
#[derive(Clone, Copy, Debug, PartialEq, Eq)]
pub struct MoveCount {
    /// The number.
    pub value: u8,
    pub ghost some: { 1 ≤ value },
    pub ghost few: { value ≤ 20 },
}

impl MoveCount {
    /// The fewest moves within which a win can be asked for.
    pub const FEWEST: MoveCount = MoveCount { value: 1 };

    /// The most moves within which a win can be asked for.
    pub const MOST: MoveCount = MoveCount { value: 20 };

    /// Returns this number of moves, or `None` if it is not `FEWEST` to `MOST`.
    pub fn new(value: u8) -> Option<Self>
        ensures { option_map (λ count. count.value) result
            ≡ if nat_le 1 value && nat_le value 20 then Some value else None }
    {
        if (Self::FEWEST.value..=Self::MOST.value).contains(&value) {
            Some(MoveCount { value })
        } else {
            None
        }
    }
}

// The laws of rooms. A function does nothing: its contract is the law.

ghost use Rattle.uc_top.specs.Rooms.{LowerHasRoom};
ghost use Rattle.uc_top.specs.RoomLaws.{LawRooms};

/// For each accepted program there are rooms of sinks that hold all that may be put where it is lowered.
pub fn law_lower_has_room()
    ensures { LowerHasRoom }
{}

/// For each line of words on texts that the store tells there is a number of bytes such that sinks with room for so many have
/// room for all that a call may put: to `check` of an accepted program, to `make`, to `explain`, and to `run` where the entries
/// of its runs are fit and no more than the options say.
pub fn law_rooms()
    ensures { LawRooms }
{}

//! What relative names and the limit of a group mean.
ghost use Rattle.gen_groups.specs.Laws.{NewestIsHighest, NextIsNewer, OldestGo, OlderAreCounted, RoomIsMade, ZeroIsNewest};

/// Of the generations of a group, (0) is the newest, which has the highest number, and (-n) the one than which n are
/// newer. (+n) names a generation that is newer than all.
pub fn relative_law()
    ensures highest { NewestIsHighest }
    ensures newest { ZeroIsNewest }
    ensures older { OlderAreCounted }
    ensures next { NextIsNewer }
{}

/// What goes by the limit of a group leaves room for one more generation, and each that stays is newer than each that
/// goes.
pub fn limit_law()
    ensures room { RoomIsMade }
    ensures oldest { OldestGo }
{}

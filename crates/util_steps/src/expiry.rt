//! Whether data sets are unexpired.
ghost use Rattle.std.specs.Prelude.{◌≡◌, false};
ghost use Rattle.std.specs.Option.{option_map_or};
ghost use Rattle.std.specs.Ordering.{is_lt, nat_cmp};
ghost use Rattle.std.specs.Cmp.Lexicographic.{slice_cmp};
ghost use Rattle.vol_model.specs.Writing.{set_on};
ghost use Rattle.util_steps.specs.Expiry.{is_unexpired};
ghost use Rattle.util_steps.specs.Taking.{IsReady, Reads};

use ebcdic_names::Dsn;
use vol_model::{Machine, Stop, WorkErr};

// Whether a date stands before another.
fn is_before(date: &[u8; 3], other: &[u8; 3]) -> bool
    ensures { result ≡ is_lt (slice_cmp nat_cmp date.now other.now) }
{
    date.cmp(other).is_lt()
}

/// Whether a data set is there and expires later than a date: the year since 1900, and a day in two bytes.
pub fn is_unexpired<M: Machine>(
    machine: &mut M,
    date: &[u8; 3],
    v: u8,
    dsn: &Dsn,
) -> Result<bool, Stop>
    requires { IsReady M.Machine machine.old }
    ensures { Reads M.Machine (λ shelf b. b ≡ option_map_or (is_unexpired date.now) (set_on shelf v dsn.now.bytes) false) machine.old machine.new result }
{
    match machine.attr(v, dsn) {
        Ok(Some(info)) => Ok(is_before(date, &info.attr.expires)),
        Ok(None) => Ok(false),
        Err(WorkErr::Memory) => Err(Stop::Memory),
        Err(WorkErr::Device) => Err(Stop::Device),
    }
}

//! The names of the data sets on a pack.
ghost use Rattle.std.specs.Prelude.{◌≡◌, ◌⊎◌, [], List, ℕ, IsTrue, IfOk};
ghost use Rattle.stop_model.specs.Files.{file_of};
ghost use Rattle.volume_manager.specs.Lines.{names_listing};
ghost use Rattle.volume_manager.specs.Names.{IsListing, names_in, set_name};
ghost use Rattle.volume_manager.specs.Run.{FileFacts, FollowsTask, LeavesFiles, status_of};
ghost use Rattle.volume_manager.specs.Task.{names_task, task_on};

use crate::cause::Cause;
use crate::end::{end, refuse};
use crate::mount::mount;
use crate::text::listing;
use dscb_codec::Dscb;
use hall_core::Hall;
use std::alloc::{AllocError, Global};

// The name of a data set: 44 bytes in EBCDIC, with blanks after it.
type Name = [u8; 44];

/// Prints the names of the data sets on the pack in a file, in the order of their EBCDIC bytes, and gives the status.
pub fn names<H: Hall>(alloc: Global, hall: &mut H, file: &str) -> Result<u8, Cause>
    requires { (H.facts hall.old).units ≡ [] }
    ensures task { IsTrue H.tells → FollowsTask (task_on file.now names_task (file_of (H.meaning hall.old).state file.now))
        (H.meaning hall.old) (H.meaning hall.new) (status_of result) }
    ensures files { IsTrue H.tells → LeavesFiles (H.meaning hall.old) (H.meaning hall.new) }
    ensures silent { IsTrue H.tells → (status_of result ≡ 22) ⊎ (status_of result ≡ 25)
        → (H.meaning hall.new).printed ≡ (H.meaning hall.old).printed }
    ensures facts { FileFacts file.now (H.facts hall.old) (H.facts hall.new) (status_of result) }
{
    match mount(alloc, hall, file) {
        Ok(vol) => {
            let text = names_text(alloc, &vol.slots)?;
            end(hall, &text, Ok(0))
        }
        Err(why) => refuse(alloc, hall, file, why),
    }
}

// The names in DSCBs, in the order of their bytes, a line each.
fn names_text(alloc: Global, dscbs: &[Dscb]) -> Result<Vec<u8>, AllocError>
    ensures { IfOk result (λ text. (listed : List (List ℕ)) × IsListing (names_in dscbs.now) listed ×
        (text.items ≡ names_listing listed)) }
{
    let mut names = names_in(alloc, dscbs)?;
    names.sort()?;
    listing(alloc, &names)
}

// The names in the format 1 DSCBs among these, in their order. Fails only for want of memory.
fn names_in(alloc: Global, dscbs: &[Dscb]) -> Result<Vec<Name>, AllocError>
    ensures { IfOk result (λ names. names.items ≡ names_in dscbs.now) }
{
    dscbs.iter().filter_map(set_name).collect(alloc)
}

// The name of the data set that a DSCB describes, if it has format 1.
fn set_name(dscb: &Dscb) -> Option<Name>
    ensures { result ≡ set_name dscb.now }
{
    match dscb {
        Dscb::F1(set) => Some(set.name),
        _ => None,
    }
}

//! Whether a pack is settled, and which bodies on it can't be read.
ghost use Rattle.std.specs.Prelude.{◌≡◌, ◌≤◌, ◌⊎◌, [], List, ℕ, IfOk, IsTrue};
ghost use Rattle.mount_repair.specs.Scans.{IsScanOf};
ghost use Rattle.pack_machine.specs.Checking.{unread_in};
ghost use Rattle.stop_model.specs.Counts.{Rose};
ghost use Rattle.stop_model.specs.Files.{file_of};
ghost use Rattle.vtoc_sets.specs.Sets.{volume_in};
ghost use Rattle.volume_manager.specs.Lines.{check_text};
ghost use Rattle.volume_manager.specs.Run.{FileFacts, FollowsTask, LeavesFiles, NoCountFell, status_of};
ghost use Rattle.volume_manager.specs.Task.{check_code, check_task, task_on};

use crate::cause::Cause;
use crate::end::{end, refuse};
use crate::mount::scan_file;
use crate::text::check_text;
use hall_core::Hall;
use mount_repair::Scan;
use pack_machine::{Unread, unread_of};
use std::alloc::{AllocError, Global};

/// Prints whether the pack in a file is settled, and then each data set but SYSCTLG whose body can't be read, with the
/// first relative track that breaks it. The status is 0 where it is settled and nothing else is printed, and else 4.
pub fn check<H: Hall>(alloc: Global, hall: &mut H, file: &str) -> Result<u8, Cause>
    requires { (H.facts hall.old).units ≡ [] }
    ensures task { IsTrue H.tells → FollowsTask (task_on file.now check_task (file_of (H.meaning hall.old).state file.now))
        (H.meaning hall.old) (H.meaning hall.new) (status_of result) }
    ensures files { IsTrue H.tells → LeavesFiles (H.meaning hall.old) (H.meaning hall.new) }
    ensures silent { IsTrue H.tells → (status_of result ≡ 22) ⊎ (status_of result ≡ 25)
        → (H.meaning hall.new).printed ≡ (H.meaning hall.old).printed }
    ensures facts { FileFacts file.now (H.facts hall.old) (H.facts hall.new) (status_of result) }
{
    match scan_file(alloc, hall, file) {
        Ok(scanned) => say(alloc, hall, &scanned),
        Err(why) => refuse(alloc, hall, file, why),
    }
}

// Prints what a scan tells of its pack, and gives the status.
fn say<H: Hall>(alloc: Global, hall: &mut H, scanned: &Scan) -> Result<u8, Cause>
    ensures task { IsTrue H.tells → (image : List ℕ) → IsScanOf image scanned.now
        → FollowsTask (check_task image (volume_in image scanned.now.vol))
        (H.meaning hall.old) (H.meaning hall.new) (status_of result) }
    ensures files { IsTrue H.tells → LeavesFiles (H.meaning hall.old) (H.meaning hall.new) }
    ensures silent { status_of result ≡ 25 → hall.new ≡ hall.old }
    ensures status { (status_of result ≤ 4) ⊎ ((status_of result ≡ 24) ⊎ (status_of result ≡ 25)) }
    ensures print { status_of result ≡ 24 → Rose (H.facts hall.old).print_faults (H.facts hall.new).print_faults }
    ensures later { NoCountFell (H.facts hall.old) (H.facts hall.new) }
    ensures references { (H.facts hall.new).references ≡ (H.facts hall.old).references }
    ensures units { (H.facts hall.new).units ≡ (H.facts hall.old).units }
{
    let found = found(alloc, scanned)?;
    end(hall, &found.text, Ok(found.code))
}

// What a scan tells of its pack.
#[derive(Drop)]
struct Finding {
    // The text that is printed.
    text: Vec<u8>,
    // The code with which the program ends.
    code: u8,
}

// The text on a pack that was scanned, and the code.
fn found(alloc: Global, scanned: &Scan) -> Result<Finding, AllocError>
    ensures text { let unread = unread_in scanned.now.volume.items in IfOk result (λ r. r.text.items
        ≡ check_text scanned.now.vol.serial.bytes scanned.now.settled unread) }
    ensures status { let unread = unread_in scanned.now.volume.items in
        IfOk result (λ r. r.code ≡ check_code scanned.now.settled unread) }
    ensures low { IfOk result (λ r. r.code ≤ 4) }
{
    let unread = unread_of(alloc, &scanned.volume)?;
    let text = check_text(alloc, &scanned.vol.serial, scanned.settled, &unread)?;
    let code = code(scanned.settled, &unread);
    Ok(Finding { text, code })
}

// The code for a pack that is settled or not, of which these bodies can't be read.
fn code(settled: bool, unread: &[Unread]) -> u8
    ensures code { result ≡ check_code settled unread.now }
    ensures low { result ≤ 4 }
{
    if settled && unread.is_empty() { 0 } else { 4 }
}

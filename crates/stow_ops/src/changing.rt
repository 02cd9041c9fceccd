//! An entry put into a directory, or taken out.
ghost use Rattle.std.specs.Prelude.{◌≡◌, IfOk, IsErrOf};
ghost use Rattle.chain_spec.specs.Kept.{joined, kept};
ghost use Rattle.pack_spec.specs.Directories.{name_number};
ghost use Rattle.vol_model.specs.Lawful.{IsLawfulEntry};
ghost use Rattle.vol_model.specs.Shelf.{drop_on, enter_on};
ghost use Rattle.vol_model.specs.declared.answers.StoreErr.{StoreErr};
ghost use Rattle.pds_directory.specs.Directories.{entries_read};
ghost use Rattle.stow_ops.specs.Changes.{ChangesDir, HasDir};

use crate::entries::{with_entry, without_entry};
use crate::storing::store;
use ebcdic_names::Name8;
use hall_core::Hall;
use pds_directory::{Dir, DirEntry};
use sorted_chain::kept;
use std::alloc::Global;
use vol_model::{Entry, StoreErr};
use vtoc_index::Vol;

/// Puts an entry into the directory of the partitioned data set whose format 1 a slot holds, in the
/// order of the names; one of its name goes, if it is to be replaced.
///
/// The body of the set can be read, and its directory is packed. `dir` is that directory, as `read_dir`
/// gave it or as an earlier call left it. It becomes the directory as it stands after the change, whose
/// entries are answered; after an error it is as before. The index is that of the image of its unit, and
/// no write is pending. Of the directory's blocks those that change are written in one write each, which
/// is made durable before the next: from the last to the first where the entries take more bytes than
/// before, else from the first to the last. A stop leaves an image that stands for the volume without
/// the change, or with it.
///
/// It is refused, in this order, where an entry has the name and isn't to be replaced
/// (`MemberExists`), and where the entries need more blocks than the directory has (`DirFull`). All
/// memory is taken before the first write. `Device` comes only where the count of its faults rose;
/// then the index may be that of no image.
pub fn enter<H: Hall>(
    alloc: Global,
    hall: &mut H,
    vol: &mut Vol,
    slot: u32,
    dir: &mut Dir,
    entry: &Entry,
    replace: bool,
) -> Result<Vec<DirEntry>, StoreErr>
    requires entry { IsLawfulEntry entry.now }
    requires dir { HasDir H.tells (H.facts hall.old) (H.meaning hall.old) vol.old slot dir.old }
    ensures changes { ChangesDir H.tells (λ dsn. enter_on dsn entry.now replace) (H.facts hall.old)
        (H.facts hall.new) (H.meaning hall.old) (H.meaning hall.new) vol.old vol.new slot dir.old
        dir.new result }
{
    let entries = with_entry(alloc, kept_of(alloc, dir)?, entry, replace)?;
    store(alloc, hall, vol, slot, dir, &entries)?;
    Ok(entries)
}

/// Takes the entry of a name out of the directory of the partitioned data set whose format 1 a slot
/// holds.
///
/// The conditions are those of `enter`, and so is what `dir` is and becomes, what is answered, what is
/// written, and what a stop leaves. It is refused where no entry has the name (`NoMember`). All memory
/// is taken before the first write. `Device` comes only where the count of its faults rose; then the
/// index may be that of no image.
pub fn drop_entry<H: Hall>(
    alloc: Global,
    hall: &mut H,
    vol: &mut Vol,
    slot: u32,
    dir: &mut Dir,
    name: &Name8,
) -> Result<Vec<DirEntry>, StoreErr>
    requires dir { HasDir H.tells (H.facts hall.old) (H.meaning hall.old) vol.old slot dir.old }
    ensures changes { ChangesDir H.tells (λ dsn. drop_on dsn name.now) (H.facts hall.old)
        (H.facts hall.new) (H.meaning hall.old) (H.meaning hall.new) vol.old vol.new slot dir.old
        dir.new result }
{
    let entries = without_entry(kept_of(alloc, dir)?, name)?;
    store(alloc, hall, vol, slot, dir, &entries)?;
    Ok(entries)
}

// The entries of a directory that count.
fn kept_of(alloc: Global, dir: &Dir) -> Result<Vec<DirEntry>, StoreErr>
    ensures kept { IfOk result (λ entries. entries.items
        ≡ kept name_number (joined (entries_read dir.now))) }
    ensures memory { (e : StoreErr) → IsErrOf result e → e ≡ StoreErr.Memory }
{
    match kept(alloc, &dir.blocks) {
        Ok(entries) => Ok(entries),
        Err(_) => Err(StoreErr::Memory),
    }
}

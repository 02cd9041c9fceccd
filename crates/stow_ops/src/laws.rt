//! What the types of bytes and names say of them, as functions of empty body.
ghost use Rattle.std.specs.Prelude.{◌≡◌, ◌<◌, ℕ, length};
ghost use Rattle.std.specs.List.{AllByRecursion};
ghost use Rattle.pds_directory.specs.Entries.{IsNamed};

use vol_model::Entry;

// The bytes of a slice are below 256.
pub(crate) fn bytes_law(bytes: &[u8])
    ensures { AllByRecursion (λ (b : ℕ). b < 256) bytes.now }
{}

// A name has eight bytes.
fn eight_law(name: &[u8; 8])
    ensures eight { length name.now ≡ 8 }
    ensures bytes { AllByRecursion (λ (b : ℕ). b < 256) name.now }
{
    bytes_law(name);
}

// So has that of an entry.
pub(crate) fn name_law(entry: &Entry)
    ensures { IsNamed entry.now }
{
    eight_law(&entry.name.bytes);
}

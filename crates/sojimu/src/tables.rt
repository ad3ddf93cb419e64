// Question 9, its two leaves, and the dual.
ghost use Rattle.std.specs.Prelude.{◌≡◌};
ghost use Rattle.table.specs.Table.{legal_label, legal_field};
ghost use Rattle.table.specs.View.{label_of, sound_of, sound_at, empty_table, dual_of};

use table::{Table, Turned};

// Question 9.
#[unsafe(no_mangle)]
pub extern "C" fn sojimu_sound(table: &Table) -> bool
    ensures { result ≡ sound_of table.now }
{
    table::sound(table)
}

// Question 9 where a position is given with the table.
#[unsafe(no_mangle)]
pub extern "C" fn sojimu_sound_at(table: &Table, position: u32) -> bool
    ensures { result ≡ sound_at table.now position }
{
    table::sound_at(table, position)
}

// An array is not returned by itself.
#[repr(C)]
#[derive(Drop)]
pub struct Words {
    pub table: Table,
}

// The table that a refusal gives back.
#[unsafe(no_mangle)]
pub extern "C" fn sojimu_empty() -> Words
    ensures { result ≡ record { table = empty_table } }
{
    Words {
        table: table::empty(),
    }
}

// The dual, or 9 and the empty table.
#[unsafe(no_mangle)]
pub extern "C" fn sojimu_dual(table: &Table) -> Turned
    ensures { result ≡ dual_of table.now }
{
    table::dual(table)
}

// Whether a table may have this label.
#[unsafe(no_mangle)]
pub extern "C" fn sojimu_label_legal(label: u64) -> bool
    ensures { result ≡ legal_label (label_of label) }
{
    table::label_legal(label)
}

// Whether a table may have a field of this kind and range.
#[unsafe(no_mangle)]
pub extern "C" fn sojimu_range_legal(kind: u32, low: u32, high: u32) -> bool
    ensures { result ≡ legal_field (record { kind = kind; low = low; high = high }) }
{
    table::range_legal(kind, low, high)
}

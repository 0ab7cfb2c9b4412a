//! Tables whose places may be empty.
ghost use Rattle.std.specs.Prelude.{◌<◌, ◌^◌, OnOk};
ghost use Rattle.reg_arena.specs.Lists.Tables.{IsSetAt, item_at};

use std::alloc::AllocError;

/// Sets the item at one place of a table, which grows as far as that place if it is shorter.
pub(crate) fn set_in_table<T: Copy>(
    table: &mut Vec<Option<T>>,
    place: usize,
    item: T,
) -> Result<(), AllocError>
    requires { place < 2 ^ 32 }
    ensures { OnOk result (IsSetAt place item (item_at table.old.items) (item_at table.new.items)) }
{
    if table.len() <= place {
        table.resize(place + 1, None)?;
    }
    table[place] = Some(item);
    Ok(())
}

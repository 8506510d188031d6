// Tables that grow within the room that they were made with.
ghost use Rattle.programs.specs.Programs.{EntryAdded};

use std::alloc::AllocError;

// Adds an entry to a table that has room for it, and answers its number. Not by `push`, which asks for more memory where there is no room.
pub fn add<T: Copy>(table: &mut Vec<T>, entry: T) -> Result<usize, AllocError>
    ensures { EntryAdded entry table.old table.new result }
{
    let at = table.len();
    if at >= table.capacity() {
        return Err(AllocError);
    }
    table.push_reserved(entry);
    Ok(at)
}

#[cfg(test)]
mod tests {
    use super::add;
    use std::test::Fail;

    // Two entries have room, and a third has none.
    #[test]
    fn adds_within_the_room(rt: HostRuntime) -> Result<(), Fail> {
        let mut table = Vec::with_capacity(rt.alloc(), 2)?;
        let room = table.capacity();
        assert_eq!(rt; add(&mut table, 7u8)?, 0);
        assert_eq!(rt; add(&mut table, 8u8)?, 1);
        assert_eq!(rt; table.as_slice(), [7, 8].as_slice());
        assert!(rt; room > 2 || add(&mut table, 9u8).is_err());
        Ok(())
    }
}

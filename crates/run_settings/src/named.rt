//! The elements and directions that records name.

ghost use Rattle.std.specs.Prelude.{◌≡◌, [], true, not, IfOk};
ghost use Rattle.name_tables.specs.Names.{is_among};
ghost use Rattle.run_settings.specs.Records.{with_id};
ghost use Rattle.run_settings.specs.Reductions.{names_in};

use name_tables::NameTable;
use std::alloc::{AllocError, Global};

/// The ids of the elements that records name, by the direction.
#[derive(Drop)]
pub struct Named {
    pub direct: NameTable,
    pub opposite: NameTable,
}

impl Named {
    /// No names. It takes no memory.
    pub fn new(alloc: Global) -> Named
        ensures direct { result.direct ≡ [] }
        ensures opposite { result.opposite ≡ [] }
    {
        Named {
            direct: NameTable::new(alloc),
            opposite: NameTable::new(alloc),
        }
    }

    /// Adds an id in a direction, and says whether it is new there.
    pub fn add(&mut self, alloc: Global, id: &str, opposite: bool) -> Result<bool, AllocError>
        ensures is_new { IfOk result (λ is_new. is_new ≡ not (is_among (names_in opposite self.old) id.now)) }
        ensures added { IfOk result (λ is_new. is_new ≡ true → self.new ≡ with_id opposite id.now self.old) }
    {
        let id = String::from_str(alloc, id)?;
        if opposite {
            self.opposite.add(id)
        } else {
            self.direct.add(id)
        }
    }
}

//! The ids of triangles.
ghost use Rattle.std.specs.Prelude.{◌≡◌, ◌↔◌, IsTrue};
ghost use Rattle.batch.specs.Ids.{HasIds, ids_after};

/// How many ids there are: one for each colour of 24 bits.
const ID_COUNT: usize = 16_777_216;

/// Whether there are ids for this many triangles, where they need any.
pub(crate) fn has_ids(ids: Option<u32>, count: usize) -> bool
    ensures { IsTrue result ↔ HasIds ids count }
{
    match ids {
        None => true,
        Some(id) => (id as usize) <= ID_COUNT && count <= ID_COUNT - id as usize,
    }
}

/// The first id of the triangles that follow this many.
pub(crate) fn after(ids: Option<u32>, count: usize) -> Option<u32>
    requires { HasIds ids count }
    ensures { result ≡ ids_after ids count }
{
    match ids {
        None => None,
        Some(id) => Some(id + count as u32),
    }
}

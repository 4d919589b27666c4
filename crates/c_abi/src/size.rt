ghost use Rattle.std.specs.Prelude.{◌↔◌, IsTrue};
ghost use Rattle.c_abi.specs.Sizes.{IsOwnSize};

/// Whether the size of a struct, as the caller has it, is the library's own, or 0 for just that.
pub fn is_own_size(size: u32, own: u32) -> bool
    ensures { IsTrue result ↔ IsOwnSize size own }
{
    size == 0 || size == own
}

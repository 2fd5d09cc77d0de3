// Whether a block of a found word looks fixed (document 01's "looks F"), by its own stretch of the word. Assumes nothing.
ghost use Rattle.std.specs.Prelude.{◌≡◌, ◌<◌, length};
ghost use Rattle.heads.specs.Looks.{starts_fixed};

// One block, from its first symbol on: it looks fixed where that is 0.
pub fn looks_fixed(block: &[u8]) -> bool
    requires { 0 < length block.now }
    ensures { result ≡ starts_fixed block.now }
{
    block[0] == 0
}

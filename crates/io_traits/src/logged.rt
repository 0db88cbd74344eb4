// A history of bytes that is kept for clauses alone.
ghost use Rattle.std.specs.Prelude.{◌≡◌, ◌++◌};
ghost use Rattle.io_traits.specs.Memory.{logged_bytes};

use http_server::Log;

/// The history goes on with these bytes.
pub fn remember(past: &mut Log<u8, ()>, piece: &[u8])
    ensures { logged_bytes past.new.items ≡ logged_bytes past.old.items ++ piece.now }
{
    for byte in piece {
        *past = past.and(byte, &());
    }
}

// How wide the stages are, and where a slot is in them.
ghost use Rattle.std.specs.Prelude.{◌≡◌, ◌+◌, ◌≤◌};
ghost use Rattle.entry_arena.specs.State.{width_after};
ghost use Rattle.entry_arena.specs.Stages.{IsAt};

/// How many slots an arena has from the first, in itself.
pub const FIRST: usize = 4;

/// How many slots the stage has that comes behind so many slots: 4 the first, twice as many each further one, and 4,096 at
/// most.
pub fn next_width(slots: u32) -> u32
    ensures { result ≡ width_after slots }
{
    slots.saturating_add(4).min(4096)
}

/// The stage of a slot that isn't in the first, counted from the second on, and its place there.
pub fn locate(slot: u32) -> (usize, usize)
    requires { 4 ≤ slot }
    ensures { IsAt slot (result.0 + 1) result.1 }
{
    let n = slot as usize + 4;
    if n < 4096 {
        let top = n.ilog2();
        (top as usize - 3, n - (1 << top))
    } else {
        (n / 4096 + 8, n % 4096)
    }
}

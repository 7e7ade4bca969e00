ghost use Rattle.std.specs.Prelude.{◌≡◌, ◌<◌, ◌≤◌};
ghost use Rattle.gc_make.specs.Draws.{drawn_node, next_draw};

/// The number that is drawn behind another.
pub(crate) fn next_draw(number: u32) -> u32
    ensures next { result ≡ next_draw number }
    ensures below { result < 2147483648 }
{
    ((1_103_515_245 * u64::from(number) + 12_345) % 2_147_483_648) as u32
}

/// The node among some that a drawn number stands for.
pub(crate) fn drawn_node(count: u32, number: u32) -> u32
    requires { 1 ≤ count }
    ensures node { result ≡ drawn_node count number }
    ensures below { result < count }
{
    (number / 65_536) % count
}
